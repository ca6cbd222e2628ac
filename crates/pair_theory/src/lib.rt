// The two gates of a merge by their distinct feeds: the record of them, and in specs/ what it stands for and the merged gate that it gives.
#![tactic(auto)]

use fold_theory::Thresholds;

// The number of distinct feeds, the first 16 of them, the weights on each of the gate that votes (u, or its complement) and of v, and the
// two gates' thresholds with the board. Spare places hold 0.
#[derive(Clone, Copy)]
pub struct Alignment {
    pub count: usize,
    pub signals: [u8; 16],
    pub us: [i32; 16],
    pub vs: [i32; 16],
    pub thresholds: Thresholds,
}
