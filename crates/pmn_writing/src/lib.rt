// The parts of the writer: the header, one gate, the outputs, each into the bytes lent to it. Its calls ask for what `unchecked` says.
#![tactic(auto)]

pub mod unchecked;
