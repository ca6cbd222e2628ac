// The new signals of a cut's gates. Its calls ask for what `unchecked` says.
#![tactic(auto)]

pub mod unchecked;
