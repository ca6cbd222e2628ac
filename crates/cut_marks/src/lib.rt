// Marks of up to 128 gates in one word, by value. Its calls ask for what `unchecked` says.
#![tactic(auto)]

pub mod unchecked;

// Marks of up to 128 gates: that of gate g stands in bit g. 16 bytes, so that a call by value costs little.
#[derive(Clone, Copy)]
pub struct Marks {
    pub bits: u128,
}
