// What a sweep remembers of each gate, by its number, and what is left of it after a collapse.
#![tactic(auto)]

pub mod unchecked;

// What a sweep remembers of each gate, by its number: a hint, which is a reader to try first, and a refuser, which is a reader that is known to
// refuse the gate, or 128 where none is known.
#[derive(Clone, Copy)]
pub struct Memory {
    pub hints: [u8; 128],
    pub refusers: [u8; 128],
}
