// The sums of some weights as a rising list. Its call asks for what `unchecked` says.
#![tactic(auto)]

pub mod unchecked;
