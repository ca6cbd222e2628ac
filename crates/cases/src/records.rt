// The lines that say what the record of the next lines is.
use crate::calls::single;
use crate::cuts::cut;
use crate::describing::described;
use crate::script::{byte_at, numbers_from};
use crate::{building, journals};
use journal::{Journal, Record, just_read};
use network::Network;

// Whether a line that begins with a byte is such a line, or says nothing, as a comment and an empty line.
pub(crate) fn is_record_line(byte: u8) -> bool {
    match byte {
        b'#' | b'\n' | b'i' | b'B' | b'U' | b'J' | b'S' | b'R' | b'T' | b'C' | b'K' => true,
        _ => false,
    }
}

// The record with another network.
fn with_network(held: Record, network: Network) -> Record {
    let journal = held.journal;
    Record { network, journal }
}

// The record with another journal.
fn with_journal(held: Record, journal: Journal) -> Record {
    let network = held.network;
    Record { network, journal }
}

// A record after a call by its letter.
fn called(letter: u8, held: Record, n: [usize; 8]) -> Record {
    let answer = single(letter, held, n);
    answer.after
}

// A record after the cut of an output.
fn cut_out(held: Record, output: usize) -> Record {
    let answer = cut(held, output);
    answer.after
}

// The record after a line that begins at a place. 'inputs' is a network, with an empty journal. 'Board' puts a version, an on margin and an off
// margin into the network, and 'Unsound' a signal into a place of the feeds: the place, then the signal. 'Journal' puts a journal beside the
// network: the number of steps that it claims, and a number that each of its places holds. 'Step' puts a journal of one step there: its kind, its
// signal, the number of feeds that it claims, and its gate. 'Reduce' sweeps the record, 'Take back' takes its latest step back, and 'Cut' leaves one
// output.
pub(crate) fn with_line(held: Record, script: &[u8], from: usize) -> Record {
    let n = numbers_from(script, from);
    match byte_at(script, from) {
        b'i' => just_read(described(script, from)),
        b'B' => with_network(held, building::with_board(held.network, n[0], n[1], n[2])),
        b'U' => with_network(held, building::with_signal(held.network, n[0], n[1])),
        b'J' => with_journal(held, journals::filled(n[0], n[1])),
        b'S' => with_journal(
            held,
            journals::of_one_step(n[0], n[1], n[2], described(script, from)),
        ),
        b'R' => called(b's', held, n),
        b'T' => called(b'u', held, n),
        b'C' => cut_out(held, n[0]),
        _ => held,
    }
}
