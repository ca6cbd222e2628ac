// The least and the greatest sum of a block of settings, on two gates by their distinct feeds. Its calls ask for what `unchecked` says.
#![tactic(auto)]

// The least and the greatest of some sums.
#[derive(Clone, Copy)]
pub struct Span {
    pub least: i32,
    pub most: i32,
}

pub mod unchecked;
