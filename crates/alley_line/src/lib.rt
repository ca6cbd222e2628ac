// The lines of a sheet as text. Its calls ask for what `unchecked` says.
#![tactic(auto)]

pub mod unchecked;
