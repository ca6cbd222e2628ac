// The merged gate of two gates by their distinct feeds. Its calls ask for what `unchecked` says.
#![tactic(auto)]

pub mod unchecked;
