// The newest step of a journal, and the journal without it. Its calls ask for what `unchecked` says.
#![tactic(auto)]

pub mod unchecked;
