// One ball on the lane. Its calls ask for what `unchecked` says.
#![tactic(auto)]

pub mod unchecked;

// The game under way before a ball: the frame (1 to 10, 11 after the game's end), its balls so far, the pins that they felled, and the
// pins that stand, pin j in bit j.
#[derive(Clone, Copy)]
pub struct Lane {
    pub frame: usize,
    pub balls: usize,
    pub down: usize,
    pub rack: u64,
}
