// Reading the parts of a gate: its feed count, its threshold, its feeds, then its margins. They serve the reader.
ghost use Rattle.std.specs.Prelude.{◌≡◌, [], ◌≤◌, T};
ghost use Rattle.network.specs.Limits.{in_scale};
ghost use Rattle.network.specs.Record.{gate_record};
ghost use Rattle.pmn_format.specs.Format.{parse_feed, parse_feeds, parse_gate};
ghost use Rattle.pmn_format.proofs.AtLaws.{parse_kept};
ghost use Rattle.pmn_format.specs.Answered.{as_read, mapped};
ghost use Rattle.pmn_gate.specs.GateAnswers.{feed_of, gate_places};

use crate::Feed;
use network::unchecked::gate_keeps;
use network::{Board, GateRecord};
use network_limits::{in_scale, weight_sound};
use pmn_format::unchecked::{next_byte, next_int};
use refusals::Refusal;

// The next feed, of the gate with signal own; its signal is low at least.
#[tactic(auto, unfolding(refusals::specs::Numbers::number_of, network::specs::Limits::weight_ok))]
fn read_feed(rest: &[u8], own: usize, low: usize) -> Result<(Feed, &[u8]), Refusal>
    ensures { mapped feed_of (as_read result) ≡ parse_feed own low rest.now }
{
    let (signal, rest) = next_byte(rest)?;
    if !(low..own).contains(&usize::from(signal)) {
        return Err(Refusal::CrossedFeed);
    }
    let (weight, rest) = next_int(rest)?;
    if !weight_sound(weight) {
        return Err(Refusal::OffTheScale);
    }
    Ok((Feed { signal, weight }, rest))
}

// The rest of the gate with signal own, whose feed count and threshold are read: its feeds.
fn read_feeds(
    bytes: &[u8],
    own: usize,
    fanin: u8,
    threshold: i32,
) -> Result<(GateRecord, &[u8]), Refusal>
    requires { fanin ≤ 16 }
    ensures { as_read result ≡ mapped (gate_places threshold) (parse_feeds own fanin 0 [] bytes.now) }
{
    let mut gate = GateRecord {
        fanin,
        threshold,
        signals: [0; 16],
        weights: [0; 16],
    };
    let mut rest = bytes;
    let mut low = 0;
    for i in 0..usize::from(fanin) {
        let (feed, after) = read_feed(rest, own, low)?;
        gate.signals[i] = feed.signal;
        gate.weights[i] = feed.weight;
        low = usize::from(feed.signal) + 1;
        rest = after;
    }
    Ok((gate, rest))
}

// The same, and that the gate keeps the margins; those of version 1 need no test.
#[tactic(auto, unfolding(refusals::specs::Numbers::number_of))]
fn read_kept(
    rest: &[u8],
    own: usize,
    fanin: u8,
    threshold: i32,
    board: Board,
) -> Result<(GateRecord, &[u8]), Refusal>
    requires { (fanin ≤ 16) × T (in_scale threshold) }
    ensures { as_read result ≡ mapped gate_record (parse_kept board own fanin threshold rest.now) }
{
    let (gate, rest) = read_feeds(rest, own, fanin, threshold)?;
    let plain = (board.on == 0) & (board.off == 1);
    if !plain && !gate_keeps(gate, board) {
        return Err(Refusal::BrokenMargin);
    }
    Ok((gate, rest))
}

// The next gate, whose signal is own.
#[tactic(auto, unfolding(refusals::specs::Numbers::number_of))]
pub fn read_gate(rest: &[u8], own: usize, board: Board) -> Result<(GateRecord, &[u8]), Refusal>
    ensures { as_read result ≡ mapped gate_record (parse_gate board own rest.now) }
{
    let (fanin, rest) = next_byte(rest)?;
    if 16 < fanin {
        return Err(Refusal::TooWide);
    }
    let (threshold, rest) = next_int(rest)?;
    if !in_scale(threshold) {
        return Err(Refusal::OffTheScale);
    }
    read_kept(rest, own, fanin, threshold, board)
}
