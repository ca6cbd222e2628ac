// Whether two signals of the joint of two networks have one bit on every frame: what a partial assignment forces, decisions, and jumps back to the
// last decision on which a contradiction rests. Its call asks for what `unchecked` says.
#![tactic(auto)]

mod advice;
mod decisions;
mod rules;
pub mod unchecked;

// How a refutation ends: refuted; with a frame worth reading, input i in bit i; or with levels or budget spent.
#[derive(Clone, Copy)]
pub enum Ending {
    Refuted,
    Worth(u64),
    Spent,
}

// What a refutation answers: how it ends, and what is left of the budget.
#[derive(Clone, Copy)]
pub struct Refutation {
    pub ending: Ending,
    pub left: u64,
}

// A partial assignment: a byte for each signal, 0 dark, 1 lit, any other open; and a word for each, with the decisions on which the byte rests, a bit
// for each.
// Kept: bytes, since a promise is stated over them (`compare_theory`: Allows, Extends, Rests).
#[derive(Drop)]
pub(crate) struct Held {
    pub bits: [u8; 296],
    pub rests: [u64; 296],
}

// The least and the greatest sum of a gate, and the decisions on which each rests: a bit for each decision.
#[derive(Clone, Copy)]
pub(crate) struct Ends {
    pub least: i32,
    pub most: i32,
    pub up: u64,
    pub down: u64,
}

// What a rule does: nothing, a signal is set, or it meets a contradiction, which rests on these decisions.
#[derive(Clone, Copy)]
pub(crate) enum Step {
    Still,
    Moved,
    Clash(u64),
}

// A signal to try, and whether to try it lit first.
#[derive(Clone, Copy)]
pub(crate) struct Choice {
    pub signal: usize,
    pub lit: bool,
}
