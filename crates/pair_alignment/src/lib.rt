// The two gates of a merge brought into a record by their distinct feeds. Its call asks for what `unchecked` says.
#![tactic(auto)]

pub mod unchecked;
