// Collapse on a record, with its steps in the journal. Its calls ask for what `unchecked` says.
#![tactic(auto)]

pub mod unchecked;
