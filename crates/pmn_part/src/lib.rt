// The part of a PMN file that one gate has. Its call asks for what `unchecked` says.
#![tactic(auto)]

pub mod unchecked;
