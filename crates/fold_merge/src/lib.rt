// Merges in records. Its calls ask for what `unchecked` says.
#![tactic(auto)]

pub mod unchecked;
