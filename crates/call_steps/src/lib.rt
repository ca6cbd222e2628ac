// The steps of a call entered into the journal of a record. Its call asks for what `unchecked` says.
#![tactic(auto)]

pub mod unchecked;
