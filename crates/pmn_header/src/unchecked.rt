// Reading the parts of a header, each from the front of the bytes that are left: the mark and the version, the board, then the counts. They serve
// the reader.
ghost use Rattle.std.specs.Prelude.{◌≡◌, MatchResult};
ghost use Rattle.refusals.specs.Numbers.{number_of};
ghost use Rattle.pmn_format.specs.Format.{refused, parse_board, parse_counts, parse_file};
ghost use Rattle.pmn_format.specs.Answered.{as_read};
ghost use Rattle.pmn_format.proofs.HeadLaws.{parse_count};
ghost use Rattle.pmn_header.specs.HeadAnswers.{Headed};

use crate::Head;
use network::Board;
use pmn_format::SHORTEST_FILE;
use pmn_format::unchecked::next_byte;
use refusals::Refusal;

// The board of a file of this version.
#[tactic(auto, unfolding(refusals::specs::Numbers::number_of, basics::specs::Lists::between))]
fn read_board(version: u8, rest: &[u8]) -> Result<(Board, &[u8]), Refusal>
    ensures { as_read result ≡ parse_board version rest.now }
{
    if version == 1 {
        let board = Board {
            version: 1,
            on: 0,
            off: 1,
        };
        return Ok((board, rest));
    }
    let (on, rest) = next_byte(rest)?;
    let (off, rest) = next_byte(rest)?;
    if off == 0 {
        return Err(Refusal::BadCount);
    }
    let board = Board {
        version: 2,
        on,
        off,
    };
    Ok((board, rest))
}

// A count, from 1 to most.
#[tactic(auto, unfolding(refusals::specs::Numbers::number_of, basics::specs::Lists::between))]
fn read_count(rest: &[u8], most: usize) -> Result<(usize, &[u8]), Refusal>
    ensures { as_read result ≡ parse_count most rest.now }
{
    let (count, rest) = next_byte(rest)?;
    let count = usize::from(count);
    if !(1..=most).contains(&count) {
        return Err(Refusal::BadCount);
    }
    Ok((count, rest))
}

// The rest of the header of a file with this board: its counts.
#[tactic(auto, using(pmn_format::proofs::HeadLaws::count_few))]
fn read_counts(rest: &[u8], board: Board) -> Result<(Head, &[u8]), Refusal>
    ensures { MatchResult result (λ p. Headed rest.now (parse_counts board rest.now) p.0 p.1.now) (λ e. parse_counts board rest.now ≡ refused (number_of e)) }
{
    let (inputs, rest) = read_count(rest, 40)?;
    let (gates, rest) = read_count(rest, 128)?;
    let (outputs, rest) = read_count(rest, 16)?;
    let head = Head {
        board,
        inputs,
        gates,
        outputs,
    };
    Ok((head, rest))
}

// The header, and the bytes after it.
#[tactic(auto, unfolding(refusals::specs::Numbers::number_of, basics::specs::Lists::between))]
pub fn read_head(file: &[u8]) -> Result<(Head, &[u8]), Refusal>
    ensures { MatchResult result (λ p. Headed file.now (parse_file file.now) p.0 p.1.now) (λ e. parse_file file.now ≡ refused (number_of e)) }
{
    if file.len() < SHORTEST_FILE || !file.starts_with(b"PMN") {
        return Err(Refusal::ForeignMark);
    }
    let version = file[3];
    if !(1..=2).contains(&version) || file[4] != 0 {
        return Err(Refusal::StrangeVersion);
    }
    let (board, rest) = read_board(version, &file[5..])?;
    read_counts(rest, board)
}
