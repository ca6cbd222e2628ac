// Tables of the sums of a gate's weights by setting: 16 weights, each on the scale, in two halves of 256 sums. Its calls ask for what
// `unchecked` says.
#![tactic(auto)]

pub mod unchecked;
