// Undo: the record before its latest step. Its call asks for what `unchecked` says.
#![tactic(auto)]

pub mod unchecked;
