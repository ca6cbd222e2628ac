// What is printed on standard output.
use basics::magnitude;
use std::io;

// A text.
pub(crate) fn text(rt: &impl Print, bytes: &[u8]) -> io::Result<()> {
    rt.write_all(bytes)
}

// The bytes of a text from a place on, up to an end; nothing where they are not all there.
pub(crate) fn part(rt: &impl Print, bytes: &[u8], from: usize, end: usize) -> io::Result<()> {
    if end < from {
        return Ok(());
    }
    if bytes.len() < end {
        return Ok(());
    }
    text(rt, &bytes[from..end])
}

// A space and a number.
pub(crate) fn number(rt: &impl Print, n: u64) -> io::Result<()> {
    print!(rt; " {n}")
}

// A space and a count, a signal or a place.
pub(crate) fn count(rt: &impl Print, n: usize) -> io::Result<()> {
    number(rt, n as u64)
}

// A space and the number that a byte is.
pub(crate) fn byte(rt: &impl Print, n: u8) -> io::Result<()> {
    number(rt, n as u64)
}

// A space, a sign and a size.
pub(crate) fn signed(rt: &impl Print, z: i32) -> io::Result<()> {
    let size = magnitude(z);
    if z < 0 {
        print!(rt; " -{size}")
    } else {
        print!(rt; " +{size}")
    }
}

// The numbers that the first bytes of a list are.
pub(crate) fn numbers(rt: &impl Print, list: &[u8], count: usize) -> io::Result<()> {
    for n in list.iter().take(count) {
        byte(rt, *n)?;
    }
    Ok(())
}
