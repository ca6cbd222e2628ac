// The settings that bound the k / l of a merge the most, which a pair search tries first, on two gates by their distinct feeds. Its calls ask
// for what `unchecked` says.
#![tactic(auto)]

// Two settings that rule candidates out, which are tried before all others.
#[derive(Clone, Copy)]
pub struct Remembered {
    pub last: usize,
    pub earlier: usize,
}

// A fraction k / l with terms on the dial; 1 / 0 is above all others.
#[derive(Clone, Copy)]
pub struct Fraction {
    pub k: u32,
    pub l: u32,
}

// The least and the greatest k / l on the dial that no setting seen rules out, and the settings that rule out what is below the one and what is
// above the other.
#[derive(Clone, Copy)]
pub struct Bounds {
    pub least: Fraction,
    pub below: usize,
    pub most: Fraction,
    pub above: usize,
}

// Two fractions, with no other between them that has smaller terms than both together, and k * a + l * c at each: `low`
// and `high`.
#[derive(Clone, Copy)]
pub struct Neighbours {
    pub below: Fraction,
    pub above: Fraction,
    pub low: i32,
    pub high: i32,
}

pub mod unchecked;
