// Lent bytes and words: how many of them a call is lent, and what it left.
ghost use Rattle.std.specs.Prelude.{◌≡◌, ◌≤◌, length, take};

use crate::output::{byte, part, text};
use crate::script::byte_at;
use std::io;

// A number of bytes, or their number where that is less.
pub(crate) fn up_to(n: usize, bytes: &[u8]) -> usize
    ensures within { result ≤ length bytes.now }
    ensures prefix { result ≡ length (take result bytes.now) }
{
    if bytes.len() < n { bytes.len() } else { n }
}

// A number of words, or their number where that is less.
pub(crate) fn words_up_to(n: usize, words: &[u64]) -> usize
    ensures within { result ≤ length words.now }
    ensures prefix { result ≡ length (take result words.now) }
{
    if words.len() < n { words.len() } else { n }
}

// A byte put at a place, where there is one.
pub(crate) fn put(bytes: &mut [u8], at: usize, value: usize) {
    if at < bytes.len() {
        bytes[at] = (value % 256) as u8;
    }
}

// What a call left that was lent so many bytes: the first byte, the last, and the one after it; and on the next line the text that it wrote,
// without its line feed.
pub(crate) fn show(rt: &impl Print, bytes: &[u8], room: usize, length: usize) -> io::Result<()> {
    byte(rt, byte_at(bytes, 0))?;
    byte(rt, byte_at(bytes, std::num::wrapping_sub_usize(room, 1)))?;
    byte(rt, byte_at(bytes, room))?;
    if 0 < length {
        text(rt, b"\n")?;
        part(rt, bytes, 0, length - 1)?;
    }
    Ok(())
}
