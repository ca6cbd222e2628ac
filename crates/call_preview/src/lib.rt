// A preview as a call of a list, which leaves the record as it was. Its call asks for what `unchecked` says.
#![tactic(auto)]

pub mod unchecked;
