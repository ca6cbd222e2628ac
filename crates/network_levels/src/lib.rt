// The levels of a network's gates, of a record. Its call asks for what `unchecked` says.
#![tactic(auto)]

pub mod unchecked;
