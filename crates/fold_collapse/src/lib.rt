// A gate collapsed into its readers by their pairs. Its call asks for what `unchecked` says.
#![tactic(auto)]

pub mod unchecked;
