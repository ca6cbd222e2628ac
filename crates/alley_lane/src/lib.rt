// The first lane of bytes, and what is listed of it. Its calls ask for what `unchecked` says.
#![tactic(auto)]

pub mod unchecked;
