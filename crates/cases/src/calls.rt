// Calls that fold: each prints the code, the numbers that the call answered, and what it left.
use crate::output::{byte, count, number, numbers, text};
use crate::script::{byte_at, numbers_from};
use crate::show;
use call_theory::Call;
use journal::{CallAnswer, Record};
use std::io;

// The answer of the call with a first letter and with numbers.
pub(crate) fn single(letter: u8, held: Record, n: [usize; 8]) -> CallAnswer {
    match letter {
        b'm' => front::merge(held, n[0], n[1], n[2], n[3]),
        b'd' => front::drop_gate(held, n[0]),
        b'c' => front::collapse(held, n[0]),
        b's' => front::sweep(held, n[0]),
        _ => front::undo(held),
    }
}

// The same as a call of a list.
fn listed(letter: u8, n: [usize; 8]) -> Call {
    match letter {
        b'm' => Call::Merge {
            u: n[0],
            v: n[1],
            k: n[2],
            l: n[3],
        },
        b'd' => Call::Drop { s: n[0] },
        b'c' => Call::Collapse { s: n[0] },
        b's' => Call::Sweep { b: n[0] },
        b'u' => Call::Undo,
        _ => Call::Preview { s: n[0] },
    }
}

// An answer: its code, its three numbers, and what the call left: the network where it was accepted; else whether the record is the one that
// came in; and its size.
fn answered(rt: &impl Print, held: Record, r: CallAnswer) -> io::Result<()> {
    let figures = r.figures;
    byte(rt, r.code)?;
    number(rt, figures.first)?;
    number(rt, figures.second)?;
    number(rt, figures.third)?;
    if r.code == 0 {
        show::network(rt, r.after)?;
    } else if held == r.after {
        text(rt, b" unchanged")?;
    } else {
        text(rt, b" changed")?;
    }
    show::size(rt, r.after)
}

// A call of a list again and again until it is refused, 1,000 times at most: how many were accepted, and the refusal. The answer is the record
// that it leaves.
fn repeated(rt: &impl Print, letter: u8, held: Record, n: [usize; 8]) -> io::Result<Record> {
    let mut now = held;
    for accepted in 0..1000 {
        let r = front::apply(now, listed(letter, n));
        if r.code != 0 {
            count(rt, accepted)?;
            answered(rt, now, r)?;
            return Ok(now);
        }
        now = r.after;
    }
    Ok(now)
}

// A pair: its code, k and l.
fn pair(rt: &impl Print, held: Record, u: usize, v: usize) -> io::Result<()> {
    let r = front::pair(held, u, v);
    byte(rt, r.code)?;
    count(rt, r.k)?;
    count(rt, r.l)
}

// The distinct feeds: their number, and the 16 places of their signals.
fn feeds(rt: &impl Print, held: Record, u: usize, v: usize) -> io::Result<()> {
    let r = front::distinct_feeds(held, u, v);
    byte(rt, r.code)?;
    count(rt, r.count)?;
    numbers(rt, &r.signals, 16)
}

// A witness: its code and the setting.
fn witness(
    rt: &impl Print,
    held: Record,
    u: usize,
    v: usize,
    k: usize,
    l: usize,
) -> io::Result<()> {
    let r = front::witness(held, u, v, k, l);
    byte(rt, r.code)?;
    count(rt, r.setting)
}

// A preview: its code, gates, cost and levels.
fn preview(rt: &impl Print, held: Record, s: usize) -> io::Result<()> {
    let r = front::preview(held, s);
    byte(rt, r.code)?;
    count(rt, r.gates)?;
    number(rt, r.cost)?;
    count(rt, r.levels)
}

// A call by itself, which leaves the record as it is for the next line.
fn alone(rt: &impl Print, letter: u8, held: Record, n: [usize; 8]) -> io::Result<()> {
    match letter {
        b'p' => pair(rt, held, n[0], n[1]),
        b'w' => witness(rt, held, n[0], n[1], n[2], n[3]),
        b'f' => feeds(rt, held, n[0], n[1]),
        b'v' => preview(rt, held, n[0]),
        b'j' => show::steps(rt, held.journal),
        _ => answered(rt, held, single(letter, held, n)),
    }
}

// A call of a list; the answer is the record that it leaves.
fn applied(rt: &impl Print, letter: u8, held: Record, n: [usize; 8]) -> io::Result<Record> {
    let r = front::apply(held, listed(letter, n));
    answered(rt, held, r)?;
    Ok(r.after)
}

// A case, from its name on: a call; or 'apply' or 'repeat', where the name is a call of a list. The answer is the record for the next line.
pub(crate) fn case(
    rt: &impl Print,
    held: Record,
    script: &[u8],
    name: usize,
    call: usize,
) -> io::Result<Record> {
    let letter = byte_at(script, call);
    if letter == b'a' {
        return applied(rt, byte_at(script, name), held, numbers_from(script, name));
    }
    if letter == b'r' {
        return repeated(rt, byte_at(script, name), held, numbers_from(script, name));
    }
    alone(rt, letter, held, numbers_from(script, call))?;
    Ok(held)
}
