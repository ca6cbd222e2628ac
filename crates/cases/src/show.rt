// Networks, journals and records as text on standard output.
use crate::output::{byte, count, number, numbers, signed, text};
use journal::{Journal, Record};
use network::{Board, Network};
use std::io;

// The feed at a place: its signal and its weight.
fn feed<'a>(
    rt: &impl Print,
    signals: &'a [u8],
    weights: &'a [i32],
    place: usize,
) -> io::Result<()> {
    if signals.len() <= place {
        return Ok(());
    }
    if weights.len() <= place {
        return Ok(());
    }
    byte(rt, signals[place])?;
    signed(rt, weights[place])
}

// A gate: in brackets its feeds, which stand from a place on, and its threshold.
fn gate<'a>(
    rt: &impl Print,
    signals: &'a [u8],
    weights: &'a [i32],
    first: usize,
    fanin: u8,
    threshold: i32,
) -> io::Result<()> {
    text(rt, b" [")?;
    for i in 0..usize::from(fanin) {
        feed(rt, signals, weights, std::num::wrapping_add_usize(first, i))?;
    }
    text(rt, b" ;")?;
    signed(rt, threshold)?;
    text(rt, b" ]")
}

// Gate g of a network, after its signal.
fn gate_of(rt: &impl Print, network: Network, g: usize) -> io::Result<()> {
    let i = g % 128;
    let fanin = network.fanins[i];
    let threshold = network.thresholds[i];
    count(rt, std::num::wrapping_add_usize(network.inputs, g))?;
    gate(
        rt,
        &network.signals,
        &network.weights,
        16 * i,
        fanin,
        threshold,
    )
}

// A board of version 2: its version and its margins.
fn board(rt: &impl Print, board: Board) -> io::Result<()> {
    if board.version == 1 {
        return Ok(());
    }
    text(rt, b" board")?;
    byte(rt, board.version)?;
    byte(rt, board.on)?;
    byte(rt, board.off)
}

// The first 16 gates of a network, and its outputs.
fn gates(rt: &impl Print, network: Network) -> io::Result<()> {
    text(rt, b" gates")?;
    for g in 0..network.gates.min(16) {
        gate_of(rt, network, g)?;
    }
    text(rt, b" outputs")?;
    numbers(rt, &network.drivers, network.outputs)
}

// The network of a record where it has at most 16 gates, and whether the record is sound.
pub(crate) fn network(rt: &impl Print, held: Record) -> io::Result<()> {
    let network = held.network;
    if network.gates <= 16 {
        gates(rt, network)?;
        board(rt, network.board)?;
    }
    if front::is_sound(held) {
        text(rt, b" sound")?;
    }
    Ok(())
}

// The report of a record: its code, gates, cost and levels; and the number of the steps in its journal.
pub(crate) fn size(rt: &impl Print, held: Record) -> io::Result<()> {
    let size = front::report(held);
    text(rt, b" size")?;
    byte(rt, size.code)?;
    count(rt, size.gates)?;
    number(rt, size.cost)?;
    count(rt, size.levels)?;
    text(rt, b" steps")?;
    count(rt, held.journal.count)
}

// The kind of a step: 0 is a merge.
fn kind(rt: &impl Print, kind: u8) -> io::Result<()> {
    if kind == 0 {
        text(rt, b" merge")
    } else {
        text(rt, b" drop")
    }
}

// Step i of a journal: its kind, its signal, and the gate that stood there.
fn step(rt: &impl Print, journal: Journal, step: usize) -> io::Result<()> {
    let i = step % 64;
    let fanin = journal.fanins[i];
    let threshold = journal.thresholds[i];
    kind(rt, journal.kinds[i])?;
    byte(rt, journal.signals[i])?;
    gate(
        rt,
        &journal.feeds,
        &journal.weights,
        16 * i,
        fanin,
        threshold,
    )
}

// Every step of a journal, the newest first.
pub(crate) fn steps(rt: &impl Print, journal: Journal) -> io::Result<()> {
    for i in 0..journal.count.min(64) {
        step(rt, journal, i)?;
    }
    Ok(())
}
