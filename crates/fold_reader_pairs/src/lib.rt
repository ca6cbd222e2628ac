// The pair of each reader of a gate, or the refusal of its collapse. Its calls ask for what `unchecked` says.
#![tactic(auto)]

pub mod unchecked;

use refusals::Refusal;

// The multipliers for the readers of a gate: by gate k and l for every reader, 0 for every other gate.
#[derive(Clone, Copy)]
pub struct Pairs {
    pub ks: [u8; 128],
    pub ls: [u8; 128],
}

// A reader whose pair is refused, by its number, and the refusal.
#[derive(Clone, Copy)]
pub struct Refuser {
    pub reader: usize,
    pub refusal: Refusal,
}

// The first reader whose pair is refused, and the pairs of the readers before it; 0 for every other gate.
#[derive(Clone, Copy)]
pub struct FirstRefuser {
    pub refuser: Refuser,
    pub pairs: Pairs,
}
