// Whether a merged gate has the composed pair's bit on a setting and keeps the margins there, on two gates by their distinct feeds. Its
// calls ask for what `unchecked` says.
#![tactic(auto)]

pub mod unchecked;
