// The network that the newest step of a journal gives back. Its call asks for what `unchecked` says.
#![tactic(auto)]

pub mod unchecked;
