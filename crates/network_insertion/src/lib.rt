// A gate put into a network record: the inverse of its removal. Its call asks for what `unchecked` says.
#![tactic(auto)]

pub mod unchecked;
