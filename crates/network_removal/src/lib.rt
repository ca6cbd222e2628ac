// A gate removed from a record in place. Its calls ask for what `unchecked` says.
#![tactic(auto)]

pub mod unchecked;
