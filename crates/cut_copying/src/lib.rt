// The marked gates of a network copied into a new one. Its call asks for what `unchecked` says.
#![tactic(auto)]

pub mod unchecked;
