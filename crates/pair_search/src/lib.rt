// The pair search on two gates by their distinct feeds. Document 01, "Pair". Its calls ask for what `unchecked` says.
#![tactic(auto)]

// The pair that a search found, k and l, or that there is none.
#[derive(Clone, Copy)]
pub enum Found {
    At(usize, usize),
    Nothing,
}

pub mod unchecked;
