// Sweep on a record, with its steps in the journal. Its call asks for what `unchecked` says.
#![tactic(auto)]

pub mod unchecked;
