// Games through the scorer.
use crate::lent::words_up_to;
use crate::output::{byte, count, number, numbers, text};
use crate::script::{after, byte_at, find};
use journal::Record;
use scorer_tally::Sheet;
use std::io;

// The frame after a ball: a digit for that many pins standing, from the first on, and `T` for all ten; `t` for the tenth pin alone; `M` for
// all ten and a bit above ten inputs; anything else for that bit alone.
fn frame_of(ball: u8) -> u64 {
    match ball {
        b'0' => 0,
        b'1' => 1,
        b'2' => 3,
        b'3' => 7,
        b'4' => 15,
        b'5' => 31,
        b'6' => 63,
        b'7' => 127,
        b'8' => 255,
        b'9' => 511,
        b'T' => 1023,
        b't' => 512,
        b'M' => 2047,
        _ => 1024,
    }
}

// The frames after the balls of a game: how many, and each.
#[derive(Clone, Copy)]
struct Balls {
    balls: usize,
    frames: [u64; 32],
}

// The balls of the first word from a place on, 32 at most; a byte below the digits ends it.
fn balls_from(script: &[u8], from: usize) -> Balls {
    let mut frames = [0u64; 32];
    let mut at = after(find(script, from, b' '));
    for balls in 0..32 {
        let ball = byte_at(script, at);
        if ball < b'0' {
            return Balls { balls, frames };
        }
        frames[balls] = frame_of(ball);
        at = after(at);
    }
    Balls { balls: 32, frames }
}

// A running score.
fn points(rt: &impl Print, n: u16) -> io::Result<()> {
    number(rt, u64::from(n))
}

// The running scores.
fn scores(rt: &impl Print, places: &[u16; 10], scored: usize) -> io::Result<()> {
    for place in places.iter().take(scored) {
        points(rt, *place)?;
    }
    Ok(())
}

// The code, the pins felled by each ball and the running scores.
fn show_sheet(rt: &impl Print, sheet: Sheet) -> io::Result<()> {
    byte(rt, sheet.code)?;
    text(rt, b", balls")?;
    count(rt, sheet.balls)?;
    text(rt, b":")?;
    numbers(rt, &sheet.felled, sheet.balls)?;
    text(rt, b", frames")?;
    count(rt, sheet.scored)?;
    text(rt, b":")?;
    scores(rt, &sheet.scores, sheet.scored)
}

// The sheet of the first frames of a list.
fn scored(rt: &impl Print, held: Record, frames: &[u64], balls: usize) -> io::Result<()> {
    let end = words_up_to(balls, frames);
    show_sheet(rt, front::score(held, &frames[..end]))
}

// A game: the gates of the network, and the sheet.
pub(crate) fn case(rt: &impl Print, held: Record, script: &[u8], call: usize) -> io::Result<()> {
    let game = balls_from(script, call);
    text(rt, b" gates")?;
    count(rt, held.network.gates)?;
    text(rt, b", code")?;
    scored(rt, held, &game.frames, game.balls)
}
