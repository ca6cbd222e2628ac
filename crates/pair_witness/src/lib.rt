// A setting with the fewest ones on which a merged gate is not clear, on two gates by their distinct feeds. Its calls ask for what `unchecked`
// says.
#![tactic(auto)]

// The setting that a pass found, or that there is none.
#[derive(Clone, Copy)]
pub enum Unclear {
    At(usize),
    Nowhere,
}

pub mod unchecked;
