// The lines of the question as plain data. Its calls ask for what `unchecked` says.
#![tactic(auto)]

pub mod unchecked;
