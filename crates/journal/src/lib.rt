// The record: a network with the journal of its last 64 accepted steps; and what a call of a list on it answers.
#![tactic(auto)]

pub mod unchecked;

ghost use Rattle.std.specs.Prelude.{◌≡◌};
ghost use Rattle.journal.specs.Journals.{empty_journal};
ghost use Rattle.journal.specs.Records.{just_read, sound_whole};

use call_theory::Figures;
use network::Network;

// A journal: the number of steps, and for each of 64 places its kind (0 a merge, else a drop), its signal, and the gate that stood there: feed
// count, threshold, and 16 feed places. The newest step stands at place 0, step i's feed f at place 16 i + f; spare places hold 0.
#[derive(Clone, Copy, PartialEq, Eq)]
pub struct Journal {
    pub count: usize,
    pub kinds: [u8; 64],
    pub signals: [u8; 64],
    pub fanins: [u8; 64],
    pub thresholds: [i32; 64],
    pub feeds: [u8; 1024],
    pub weights: [i32; 1024],
}

// A record: a network, and the journal of the steps that led to it.
#[derive(Clone, Copy, PartialEq, Eq)]
pub struct Record {
    pub network: Network,
    pub journal: Journal,
}

// What a call of a list answers: 0 or the refusal, the record that it leaves, and its three numbers.
#[derive(Clone, Copy)]
pub struct CallAnswer {
    pub code: u8,
    pub after: Record,
    pub figures: Figures,
}

// The kind of a step, in the order of their numbers in a journal.
#[derive(Clone, Copy, Debug, PartialEq, Eq)]
pub enum StepKind {
    Merge,
    Drop,
}

// The journal of a read.
#[tactic(auto, unfolding(crate::specs::Journals::empty_journal))]
pub fn empty() -> Journal
    ensures { result ≡ empty_journal }
{
    Journal {
        count: 0,
        kinds: [0; 64],
        signals: [0; 64],
        fanins: [0; 64],
        thresholds: [0; 64],
        feeds: [0; 1024],
        weights: [0; 1024],
    }
}

// The record of a network just read: its journal is empty.
#[tactic(auto, unfolding(crate::specs::Records::just_read))]
pub fn just_read(network: Network) -> Record
    ensures { result ≡ just_read network }
{
    Record {
        network,
        journal: empty(),
    }
}

// Whether a record is sound: its network is, and its journal claims at most 64 steps.
#[tactic(auto, unfolding(crate::specs::Records::sound_whole))]
pub fn is_sound(held: Record) -> bool
    ensures { result ≡ sound_whole held }
{
    network_soundness::is_sound(held.network) && held.journal.count <= 64
}

// A refusal, with the record that came in.
pub fn refusal(code: u8, held: Record) -> CallAnswer
    ensures { result ≡ record { code = code; after = held; figures = record { first = 0; second = 0; third = 0 } } }
{
    CallAnswer {
        code,
        after: held,
        figures: Figures {
            first: 0,
            second: 0,
            third: 0,
        },
    }
}
