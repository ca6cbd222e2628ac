// The joint of two networks: their gates side by side in two tables of rows, rewired where two signals have one bit. Its calls ask for what
// `unchecked` says.
#![tactic(auto)]

pub mod unchecked;
