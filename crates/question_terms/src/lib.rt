// The terms of a line of the question, as plain data. Its calls ask for what `unchecked` says.
#![tactic(auto)]

pub mod unchecked;

// A term: a coefficient on a variable (counted from 0).
#[derive(Clone, Copy)]
pub struct Term {
    pub variable: usize,
    pub coefficient: i32,
}

// A line: so many terms, and the right side. Spare places hold 0.
#[derive(Clone, Copy)]
pub struct LineRecord {
    pub count: usize,
    pub terms: [Term; 17],
    pub right: i32,
}
