// Lists of calls on a network with its journal: definitions and laws, in specs/. The only code is the type of a call, and that of the numbers
// which it gives.
#![tactic(auto)]

// One call of a list: a merge (u, v, k, l), a drop or a collapse (a signal), a sweep (B), a preview (the signal of the gate to collapse), or an
// undo.
#[derive(Clone, Copy)]
pub enum Call {
    Merge {
        u: usize,
        v: usize,
        k: usize,
        l: usize,
    },
    Drop {
        s: usize,
    },
    Collapse {
        s: usize,
    },
    Sweep {
        b: usize,
    },
    Preview {
        s: usize,
    },
    Undo,
}

// The three numbers that a call of a list gives beside its code: a sweep gives the number of its collapses, 0 and 0; a preview gives gates,
// cost and levels; every other call gives 0, 0 and 0.
#[derive(Clone, Copy)]
pub struct Figures {
    pub first: u64,
    pub second: u64,
    pub third: u64,
}
