// Which gates of a record read a signal, and whether an output names it. Its calls ask for what `unchecked` says.
#![tactic(auto)]

pub mod unchecked;
