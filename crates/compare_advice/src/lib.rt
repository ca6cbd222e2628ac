// Advice to a comparison: which signals may have one bit, a frame on which outputs may differ, which gates matter to two signals. A verdict holds
// whatever the advice is, so these functions promise only that they are safe, that they end, that what they give stays in range, and that a look
// keeps the first network's outputs. Its calls ask for what `unchecked` says.
#![tactic(auto)]

mod numbers;
pub mod unchecked;
