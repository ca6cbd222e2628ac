// Reading the header of a PMN file: the mark and the version, the board, then the counts.
#![tactic(auto)]

use network::Board;

pub mod unchecked;

// What a header says: the board and the counts.
#[derive(Clone, Copy)]
pub struct Head {
    pub board: Board,
    pub inputs: usize,
    pub gates: usize,
    pub outputs: usize,
}
