// Which gate a sweep folds next: the lowest one with at most so many readers that collapse accepts.
#![tactic(auto)]

pub mod unchecked;

use fold_reader_pairs::Pairs;

// The gate that a sweep folds next, by its signal, and the pairs of its readers.
#[derive(Clone, Copy)]
pub struct Choice {
    pub u: usize,
    pub pairs: Pairs,
}
