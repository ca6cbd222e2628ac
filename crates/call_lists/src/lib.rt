// A list of calls given as numbers, run from a network just read: on a whole file, and on a record by calls that ask for what `unchecked` says.
#![tactic(auto)]

pub mod files;
pub mod unchecked;
