// The joint's tables filled from a network, and rewired.
pub mod rows;
pub mod wiring;
