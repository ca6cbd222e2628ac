// The tests of a drop on a record. Its call asks for what `unchecked` says.
#![tactic(auto)]

pub mod unchecked;
