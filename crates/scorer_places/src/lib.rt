// A sheet in lent places. Its calls ask for what `unchecked` says.
#![tactic(auto)]

pub mod unchecked;
