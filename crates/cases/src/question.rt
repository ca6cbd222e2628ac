// Lines of the question of two records.
use crate::lent::{show, up_to};
use crate::output::{byte, count};
use journal::Record;
use std::io;

// Line n in so many of the lent bytes.
pub(crate) fn case(
    rt: &impl Print,
    first: Record,
    second: Record,
    n: usize,
    out: &mut [u8],
    room: usize,
) -> io::Result<()> {
    let end = up_to(room, out);
    let written = front::line(first, second, n, &mut out[..end]);
    byte(rt, written.code)?;
    count(rt, written.length)?;
    show(rt, out, room, written.length)
}
