// What is read from standard input.
use std::io::{self, Read};

// Reads until the buffer is full or the input ends. The answer is how many bytes came, which stand at its start.
pub(crate) fn read_full<R: Read>(reader: &mut R, buffer: &mut [u8]) -> io::Result<usize> {
    let mut done: usize = 0;
    // Kept: a read may bring fewer bytes than there is room for, so `done` is no index that a `for` counts.
    while done < buffer.len() {
        let n = reader.read(&mut buffer[done..])?;
        if n == 0 {
            return Ok(done);
        }
        done = done + n;
    }
    Ok(done)
}
