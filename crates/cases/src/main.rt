// Records and files through every call of `front`: the bench gates of the paper, every refusal of every call, the order of the refusals where
// several apply. The file stdin is a script. A line that begins with '=' names a part. A line with a colon is a case: a name and a call, which
// are printed with what the call answered. Any other line says what the record is. The file stdout holds the whole output.
#![tactic(auto)]

mod alley;
mod building;
mod calls;
mod cuts;
mod describing;
mod files;
mod games;
mod input;
mod journals;
mod lent;
mod output;
mod question;
mod records;
mod script;
mod show;
mod table;
mod verdicts;

use input::read_full;
use journal::{Record, just_read};
use output::{part, text};
use records::{is_record_line, with_line};
use script::{after, byte_at, find, numbers_from};
use std::io;

// A case of a part that leaves the record as it is.
fn case(
    rt: &impl Print,
    part: u8,
    kept: Record,
    held: Record,
    script: &[u8],
    call: usize,
) -> io::Result<()> {
    let mut lane = [0u8; 66];
    let mut out = [170u8; 260];
    let letter = byte_at(script, call);
    let n = numbers_from(script, call);
    files::put_lane(held, &mut lane);
    match part {
        b'f' => files::case(rt, letter, held, n, &mut lane, &mut out),
        b'q' => question::case(rt, kept, held, n[0], &mut out, n[1]),
        b'o' => cuts::case(rt, held, n[0], n[1]),
        b'g' => games::case(rt, held, script, call),
        b't' => table::case(rt, letter, n, &mut out),
        b'v' => verdicts::case(rt, kept, held, n[0]),
        _ => alley::case(rt, letter, n, &lane, &mut out),
    }
}

// One line, from its first byte on, of a part. The answer is the record for the next line.
fn line(
    rt: &impl Print,
    letter: u8,
    kept: Record,
    held: Record,
    script: &[u8],
    from: usize,
) -> io::Result<Record> {
    if is_record_line(byte_at(script, from)) {
        return Ok(with_line(held, script, from));
    }
    let mut left = held;
    let call = after(after(find(script, from, b':')));
    part(rt, script, from, find(script, from, b'\n'))?;
    text(rt, b" =")?;
    if letter == b'c' {
        left = calls::case(rt, held, script, from, call)?;
    } else {
        case(rt, letter, kept, held, script, call)?;
    }
    text(rt, b"\n")?;
    Ok(left)
}

// The lines of a script after its first, which is a heading.
fn lines(rt: &impl Print, script: &[u8], length: usize) -> io::Result<()> {
    let mut held = just_read(network::blank());
    let mut kept = held;
    let mut letter = b'c';
    let mut at: usize = 0;
    while at < length {
        if byte_at(script, at) == b'\n' {
            let from = at + 1;
            if byte_at(script, from) == b'=' {
                letter = byte_at(script, after(after(from)));
                part(rt, script, from, after(find(script, from, b'\n')))?;
            } else {
                held = line(rt, letter, kept, held, script, from)?;
            }
            if byte_at(script, from) == b'K' {
                kept = held;
            }
        }
        at = at + 1;
    }
    Ok(())
}

fn main(rt: HostRuntime) -> io::Result<()> {
    let mut script = [b'\n'; 131072];
    let mut reader = rt.reader();
    let length = read_full(&mut reader, &mut script)?;
    lines(&rt, &script, length)
}
