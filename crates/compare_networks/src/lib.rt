// Whether two networks read alike on every frame.
#![tactic(auto)]

pub mod files;
pub mod unchecked;

ghost use Rattle.compare_networks.specs.Answers.{compare_answer, ComparedAs};

use network::Network;
use network_soundness::is_sound;
use unchecked::{compare_sound, refusal};

// What `compare` answers: 0 or the refusal; the verdict, 0 alike, 1 apart and 2 undecided; a frame on which the output bits differ, if they are
// apart; and the steps used. With a refusal the other numbers are 0.
#[derive(Clone, Copy)]
pub struct Compared {
    pub code: u8,
    pub verdict: u8,
    pub frame: u64,
    pub steps: u64,
}

// What is settled of the outputs' signals: both of each have one bit on every frame, or some output's are apart on this frame, or neither.
#[derive(Clone, Copy)]
pub(crate) enum Finding {
    Alike,
    Apart(u64),
    Undecided,
}

// What is settled, and what is left of the budget.
#[derive(Clone, Copy)]
pub(crate) struct Found {
    pub finding: Finding,
    pub left: u64,
}

// Two networks compared with at most so many steps. Refusals: 20 broken record, for either, 19 unlike networks.
pub fn compare(first: Network, second: Network, budget: u64) -> Compared
    ensures { ComparedAs (compare_answer first second) budget result }
{
    if !is_sound(first) || !is_sound(second) {
        return refusal(20);
    }
    compare_sound(&first, &second, budget)
}
