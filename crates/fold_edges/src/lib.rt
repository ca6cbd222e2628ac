// The edge from one gate of a record to another: its refusals, and the two gates aligned. Its calls ask for what `unchecked` says.
#![tactic(auto)]

pub mod unchecked;
