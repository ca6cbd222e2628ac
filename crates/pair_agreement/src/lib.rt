// Whether a merged gate is on the scale, and whether it agrees with its composed pair, on two gates by their distinct feeds. Its calls ask
// for what `unchecked` says.
#![tactic(auto)]

pub mod unchecked;
