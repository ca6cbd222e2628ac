// The calls that change nothing, on a record: the test of its journal, then the call on its network.
#![tactic(auto)]

ghost use Rattle.std.specs.Prelude.{◌≡◌, length};
ghost use Rattle.basics.specs.Refusals.{code_of, stored};
ghost use Rattle.journal_calls.specs.Answers.{writing_on, as_written, reading_on, frames_on, report_on, line_on, as_line_written};
ghost use Rattle.journal_calls.specs.Answers.{pair_on, preview_on, WitnessOn, feeds_on, CompareOn};

use compare_networks::Compared;
use fold_feeds::DistinctFeeds;
use fold_pair::PairFound;
use fold_witness::Witnessed;
use frame_reading::Reading;
use journal::Record;
use network_report::SizeReport;
use pmn_writer::Written;
use question_text::LineWritten;

// The file of the network, at the front of the lent bytes.
pub fn write(held: Record, out: &mut [u8]) -> Written
    ensures value { result ≡ as_written (writing_on held (length out.old)) }
    ensures out_after { out.new ≡ stored (writing_on held (length out.old)) out.old }
{
    let count = held.journal.count;
    if 64 < count {
        return Written {
            code: 20,
            length: 0,
        };
    }
    pmn_writer::write(held.network, out)
}

// The output bits on a frame, and the number of outputs that are 1.
pub fn read_frame(held: Record, frame: u64) -> Reading
    ensures { result ≡ reading_on held frame }
{
    let count = held.journal.count;
    if 64 < count {
        return Reading {
            code: 20,
            bits: 0,
            ones: 0,
        };
    }
    frame_reading::read_frame(held.network, frame)
}

// The output bits on each of up to 64 frames.
pub fn read_frames(held: Record, frames: &[u64], answers: &mut [u64]) -> u8
    ensures value { result ≡ code_of (frames_on held frames.now answers.old) }
    ensures answers_after { answers.new ≡ stored (frames_on held frames.now answers.old) answers.old }
{
    let count = held.journal.count;
    if 64 < count {
        return 20;
    }
    frame_batch::read_frames(held.network, frames, answers)
}

// Gates, cost and levels.
pub fn report(held: Record) -> SizeReport
    ensures { result ≡ report_on held }
{
    let count = held.journal.count;
    if 64 < count {
        return SizeReport {
            code: 20,
            gates: 0,
            cost: 0,
            levels: 0,
        };
    }
    network_report::report(held.network)
}

// One line of the question of two records, at the front of the lent bytes.
pub fn line(first: Record, second: Record, n: usize, out: &mut [u8]) -> LineWritten
    ensures value { result ≡ as_line_written (line_on first second n (length out.old)) }
    ensures out_after { out.new ≡ stored (line_on first second n (length out.old)) out.old }
{
    let one = first.journal.count;
    if 64 < one {
        return LineWritten {
            code: 20,
            length: 0,
        };
    }
    let other = second.journal.count;
    if 64 < other {
        return LineWritten {
            code: 20,
            length: 0,
        };
    }
    question_text::line(first.network, second.network, n, out)
}

// Whether two records read alike on every frame.
pub fn compare(first: Record, second: Record, budget: u64) -> Compared
    ensures { CompareOn first second budget result }
{
    let one = first.journal.count;
    if 64 < one {
        return compare_networks::unchecked::refusal(20);
    }
    let count = second.journal.count;
    if 64 < count {
        return compare_networks::unchecked::refusal(20);
    }
    compare_networks::compare(first.network, second.network, budget)
}

// The least pair with which u merges into v.
pub fn pair(held: Record, u: usize, v: usize) -> PairFound
    ensures { result ≡ pair_on held u v }
{
    let count = held.journal.count;
    if 64 < count {
        return PairFound {
            code: 20,
            k: 0,
            l: 0,
        };
    }
    fold_pair::pair(held.network, u, v)
}

// Gates, cost and levels that a collapse would leave.
pub fn preview(held: Record, s: usize) -> SizeReport
    ensures { result ≡ preview_on held s }
{
    let count = held.journal.count;
    if 64 < count {
        return SizeReport {
            code: 20,
            gates: 0,
            cost: 0,
            levels: 0,
        };
    }
    fold_preview::preview(held.network, s)
}

// The merge's own number, and a setting that shows why where it is 15.
pub fn witness(held: Record, u: usize, v: usize, k: usize, l: usize) -> Witnessed
    ensures { WitnessOn held u v k l result }
{
    let count = held.journal.count;
    if 64 < count {
        return Witnessed {
            code: 20,
            setting: 0,
        };
    }
    fold_witness::witness(held.network, u, v, k, l)
}

// The distinct feeds of u and v, rising.
pub fn distinct_feeds(held: Record, u: usize, v: usize) -> DistinctFeeds
    ensures { result ≡ feeds_on held u v }
{
    let count = held.journal.count;
    if 64 < count {
        return fold_feeds::unchecked::no_feeds(20);
    }
    fold_feeds::distinct_feeds(held.network, u, v)
}
