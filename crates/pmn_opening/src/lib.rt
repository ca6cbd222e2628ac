// How the functions on whole files begin and end: the refusal of the file or for too few places, and the numbers put into lent places.
// Its calls ask for what `unchecked` says.
#![tactic(auto)]

pub mod unchecked;
