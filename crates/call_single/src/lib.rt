// Merge and drop on a record, each with its step in the journal. Its calls ask for what `unchecked` says.
#![tactic(auto)]

pub mod unchecked;
