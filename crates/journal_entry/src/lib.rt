// A step entered into a journal.
#![tactic(auto)]

pub mod unchecked;
