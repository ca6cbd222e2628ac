// Whether a merged gate has the composed pair's bit and keeps the margins on a block of settings, on two gates by their distinct feeds. Its
// calls ask for what `unchecked` says.
#![tactic(auto)]

pub mod unchecked;
