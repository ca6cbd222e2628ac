// Cuts of one output.
use crate::output::{byte, number, text};
use crate::show;
use cut_output::CutAnswer;
use journal::Record;
use std::io;

// The bit of an output on eight frames: the frame 0, and each later one so much more.
pub(crate) fn bits(rt: &impl Print, held: Record, output: usize, step: usize) -> io::Result<()> {
    let j = output % 16;
    let mut frame: usize = 0;
    for _ in 0..8 {
        let reading = front::read_frame(held, frame as u64);
        number(rt, (reading.bits >> j) % 2)?;
        frame = std::num::wrapping_add_usize(frame, step);
    }
    Ok(())
}

// The cut of an output.
pub(crate) fn cut(held: Record, output: usize) -> CutAnswer {
    front::cut(held, output)
}

// A case: the code of the cut, the record that it left, and the output's bits before it and after it.
pub(crate) fn case(rt: &impl Print, held: Record, output: usize, step: usize) -> io::Result<()> {
    let answer = cut(held, output);
    let left = answer.after;
    byte(rt, answer.code)?;
    show::network(rt, left)?;
    show::size(rt, left)?;
    text(rt, b" before")?;
    bits(rt, held, output, step)?;
    text(rt, b" after")?;
    bits(rt, left, 0, step)
}
