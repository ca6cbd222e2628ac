// Two records compared.
use crate::output::{byte, number};
use journal::Record;
use std::io;

// The verdict on two records with at most so many steps.
pub(crate) fn case(
    rt: &impl Print,
    first: Record,
    second: Record,
    budget: usize,
) -> io::Result<()> {
    let compared = front::compare(first, second, budget as u64);
    byte(rt, compared.code)?;
    byte(rt, compared.verdict)?;
    number(rt, compared.frame)?;
    number(rt, compared.steps)
}
