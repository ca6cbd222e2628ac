// The tally of a game: the running scores from the pins felled by each ball, and the sheet. Its calls ask for what `unchecked` says.
#![tactic(auto)]

pub mod unchecked;

// What `score` answers: 0 or the refusal; how many balls, and the pins felled by each; how many frames have a score, and their running
// scores. Spare places hold 0.
#[derive(Clone, Copy)]
pub struct Sheet {
    pub code: u8,
    pub balls: usize,
    pub felled: [u8; 21],
    pub scored: usize,
    pub scores: [u16; 10],
}

// Running scores: of how many frames, and each of them; spare places hold 0.
#[derive(Clone, Copy)]
pub struct Scored {
    pub frames: usize,
    pub scores: [u16; 10],
}

// A frame that counts: its balls before the bonus, its balls with the bonus, and the pins that these felled.
#[derive(Clone, Copy)]
pub struct FrameCount {
    pub own: usize,
    pub counted: usize,
    pub score: usize,
}
