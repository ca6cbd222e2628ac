// The complement of the gate that votes in its place, on two gates by their distinct feeds. Its call asks for what `unchecked` says.
#![tactic(auto)]

pub mod unchecked;
