// The text of the question's lines and of its header, written into lent bytes. Its calls ask for what `unchecked` says.
#![tactic(auto)]

pub mod unchecked;
