// The same network in the other file version: document 02, No. 8.
#![tactic(auto)]

pub mod unchecked;
