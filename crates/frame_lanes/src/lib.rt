// The sums of one gate over 32 frames at once, and its bits by them. Its calls ask for what `unchecked` says.
#![tactic(auto)]

pub mod unchecked;
