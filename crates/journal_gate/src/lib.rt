// A step at a gate of a network, entered into a journal. Its call asks for what `unchecked` says.
#![tactic(auto)]

pub mod unchecked;
