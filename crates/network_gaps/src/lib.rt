// Arrays with a gap for a new gate, and signals raised past it. Its calls ask for what `unchecked` says.
#![tactic(auto)]

pub mod unchecked;
