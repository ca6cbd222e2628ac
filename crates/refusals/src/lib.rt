// The numbered refusals of documents 01 and 02: why a call did nothing. What can refuse answers a `Result` with one of them, and `?` hands it on; where
// C or a struct with a code is answered, `number` makes it.
#![tactic(auto)]

ghost use Rattle.std.specs.Prelude.{◌≡◌};
ghost use Rattle.basics.specs.Refusals.{code_of};
ghost use Rattle.refusals.specs.Numbers.{number_of, as_answer};

use std::error::Error;
use std::fmt;

// Why a call refuses. The variants stand in the order of their numbers, from 1 to 29.
#[derive(Clone, Copy, Debug, PartialEq, Eq)]
pub enum Refusal {
    ForeignMark = 1,
    StrangeVersion,
    BadCount,
    CutShort,
    CrossedFeed,
    OffTheScale,
    TooWide,
    StrayOutput,
    Tail,
    LongFrame,
    NoSuchGate,
    NotAFeed,
    AgainstTheGrain,
    OffTheDial,
    Disagrees,
    NoPair,
    StillRead,
    ShortBuffer,
    UnlikeNetworks,
    BrokenRecord,
    NoSuchLine,
    EmptyJournal,
    UnsoundStep,
    BrokenMargin,
    MarginOfVersion2,
    FramesAndPlaces,
    FewerThanTenOutputs,
    BallAfterTheEnd,
    PinUpAgain,
}

impl Refusal {
    // The number of the refusal.
    pub fn number(self) -> u8
        ensures { result ≡ number_of self }
    {
        self as u8
    }
}

impl fmt::Display for Refusal {
    fn fmt<W: fmt::Write>(&self, f: &mut fmt::Formatter<W>) -> fmt::Result {
        write!(f, "refused {}", self.number())
    }
}

impl Error for Refusal {}

// The code of an answer: 0, or the number of its refusal.
pub fn code(answer: Result<(), Refusal>) -> u8
    ensures { result ≡ code_of (as_answer answer) }
{
    match answer {
        Ok(()) => 0,
        Err(refusal) => refusal.number(),
    }
}
