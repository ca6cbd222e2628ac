// fold: reads a PMN file on standard input, sweeps its network with B = 128, and prints gates, cost and levels before and after, the
// number of collapses, and the question for before and after. A refused file prints only its number. The work is done by proved
// libraries; this program reads, calls and writes.
#![tactic(auto)]

mod input;

use input::read_full;
use journal::Record;
use pmn_format::LONGEST_FILE;
use std::io;

// One byte more than the longest file has is enough to see that a file is longer.
const INPUT_LENGTH: usize = LONGEST_FILE + 1;

// The size of a network before and after.
fn sizes(rt: &impl Print, before: Record, after: Record) -> io::Result<()> {
    let was = front::report(before);
    let is = front::report(after);
    println!(rt; "gates {} {}", was.gates, is.gates)?;
    println!(rt; "cost {} {}", was.cost, is.cost)?;
    println!(rt; "levels {} {}", was.levels, is.levels)
}

// Line n of the question, or false past the last.
fn question_line(rt: &impl Print, before: Record, after: Record, n: usize) -> io::Result<bool> {
    let mut line = [0u8; 254];
    let written = front::line(before, after, n, &mut line);
    if written.code != 0 {
        return Ok(false);
    }
    let Some(text) = line.get(..written.length) else {
        return Ok(false);
    };
    rt.write_all(text)?;
    Ok(true)
}

// Every line of the question: two networks have at most 545.
fn whole_question(rt: &impl Print, before: Record, after: Record) -> io::Result<()> {
    for n in 0..1000usize {
        if !question_line(rt, before, after, n)? {
            break;
        }
    }
    Ok(())
}

// The whole report for a file.
fn fold(rt: &impl Print, file: &[u8]) -> io::Result<()> {
    let opened = front::read(file);
    if opened.code != 0 {
        return println!(rt; "refused {}", opened.code);
    }
    let before = opened.held;
    let swept = front::sweep(before, 128);
    sizes(rt, before, swept.after)?;
    println!(rt; "folded {}", swept.figures.first)?;
    whole_question(rt, before, swept.after)
}

fn main(rt: HostRuntime) -> io::Result<()> {
    let mut buffer = [0u8; INPUT_LENGTH];
    let mut reader = rt.reader();
    let n = read_full(&mut reader, &mut buffer)?;
    fold(&rt, buffer.get(..n).unwrap_or(&buffer))
}
