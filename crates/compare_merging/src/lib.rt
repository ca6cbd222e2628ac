// Pairs of signals of the joint tried, and what is shown to have one bit put to use: what reads the later signal reads the earlier one instead. Its
// calls ask for what `unchecked` says.
#![tactic(auto)]

pub mod unchecked;

// What came of it: a frame worth reading, or none where both signals of each output are shown to have one bit; and what is left of the budget.
#[derive(Clone, Copy)]
pub struct Outcome {
    pub worth: Option<u64>,
    pub left: u64,
}

// A pair of signals tried: whether what reads the one reads the other now, and what is left of the budget.
#[derive(Clone, Copy)]
pub(crate) struct Tried {
    pub merged: bool,
    pub left: u64,
}
