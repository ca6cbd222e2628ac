// Every call of documents 01 and 02, in one file, each with its promise and its refusals in the paper's order. A call on a record tests it first
// and answers 20 for one that is not sound: its network, or a journal that claims more than 64 steps. A refusal gives 0 for every other number,
// hands the record back unchanged and touches no lent byte. Each call is thin over the crate that does the work.
#![tactic(auto)]

ghost use Rattle.std.specs.Prelude.{◌≡◌, length};
ghost use Rattle.basics.specs.Refusals.{code_of, stored};
ghost use Rattle.pmn_format.specs.Part.{part_answer, as_part};
ghost use Rattle.call_theory.specs.declared.Call.TheVariants.{Merge, Drop, Collapse, Sweep, Undo};
ghost use Rattle.journal.specs.Records.{sound_whole};
ghost use Rattle.journal.specs.Answers.{applied};
ghost use Rattle.pmn_converter.specs.Conversion.{conversion_of, as_converted};
ghost use Rattle.cut_output.specs.Answers.{cut_record};
ghost use Rattle.alley_theory.specs.Answers.{no_lanes, listing, as_listed, text_of, total_answer, as_sheet_line};
ghost use Rattle.scorer.specs.Answers.{scoring};
ghost use Rattle.three_feeds.specs.Rule.{EntryRule};
ghost use Rattle.three_feeds.specs.Table.{table_entry};
ghost use Rattle.three_feeds_part.specs.Parts.{mask_part, part_bytes_after};
ghost use Rattle.journal_calls.specs.Answers.{writing_on, as_written, reading_on, frames_on, report_on, line_on, as_line_written};
ghost use Rattle.journal_calls.specs.Answers.{pair_on, preview_on, WitnessOn, feeds_on, CompareOn};
ghost use Rattle.front.specs.Front.{opened_file};

use alley_theory::{Listed, Totals};
use call_theory::Call;
use compare_networks::Compared;
use cut_output::CutAnswer;
use fold_feeds::DistinctFeeds;
use fold_pair::PairFound;
use fold_witness::Witnessed;
use frame_reading::Reading;
use journal::{CallAnswer, Record};
use network_report::SizeReport;
use pmn_converter::Converted;
use pmn_writer::Written;
use question_text::LineWritten;
use scorer_tally::Sheet;
use three_feeds::TableEntry;
use three_feeds_part::MaskPart;

// What `read` answers: 0 or the refusal, and the record; that of the blank network on refusal.
#[derive(Clone, Copy)]
pub struct Opened {
    pub code: u8,
    pub held: Record,
}

// ---- files

// The record of a file: its network, and an empty journal. Refusals: 1, 2, 3, then field by field 3, 4, 5, 6, 7, 24, 8, at last 9.
pub fn read(file: &[u8]) -> Opened
    ensures { result ≡ opened_file file.now }
{
    let loaded = pmn_reader::read(file);
    let code = loaded.code;
    let held = journal::just_read(loaded.network);
    Opened { code, held }
}

// The file of the record's network is put at the front of the lent bytes; the answer is its length. No file carries the journal. Refusals: 20, 18
// where the file is longer than the lent bytes.
pub fn write(held: Record, out: &mut [u8]) -> Written
    ensures value { result ≡ as_written (writing_on held (length out.old)) }
    ensures out_after { out.new ≡ stored (writing_on held (length out.old)) out.old }
{
    journal_calls::write(held, out)
}

// The bytes of the gate with a signal in a file; none where the file or the signal is refused.
pub fn gate_part(file: &[u8], signal: usize) -> &[u8]
    ensures { result.now ≡ as_part (part_answer file.now signal) }
{
    pmn_reader::gate_part(file, signal)
}

// The number of the refusal of `gate_part`, or 0: as read, 11.
pub fn gate_part_code(file: &[u8], signal: usize) -> u8
    ensures { result ≡ code_of (part_answer file.now signal) }
{
    pmn_reader::gate_part_code(file, signal)
}

// The file of the same network in the other version is put at the front of the lent bytes; the answer is its length. Refusals: as read, 25, 18.
pub fn convert(file: &[u8], out: &mut [u8]) -> Converted
    ensures value { result ≡ as_converted (conversion_of file.now (length out.old)) }
    ensures out_after { out.new ≡ stored (conversion_of file.now (length out.old)) out.old }
{
    pmn_converter::convert(file, out)
}

// ---- what a record says

// Whether a record is sound: a PMN file describes its network, spare places hold 0, and its journal claims at most 64 steps.
pub fn is_sound(held: Record) -> bool
    ensures { result ≡ sound_whole held }
{
    journal::is_sound(held)
}

// The output bits on a frame, and the number of outputs that are 1. Refusals: 20, 10.
pub fn read_frame(held: Record, frame: u64) -> Reading
    ensures { result ≡ reading_on held frame }
{
    journal_calls::read_frame(held, frame)
}

// The output bits on each of up to 64 frames, in one pass: those on frame i go into place i of the answers. Refusals: 20, 26, 10.
pub fn read_frames(held: Record, frames: &[u64], answers: &mut [u64]) -> u8
    ensures value { result ≡ code_of (frames_on held frames.now answers.old) }
    ensures answers_after { answers.new ≡ stored (frames_on held frames.now answers.old) answers.old }
{
    journal_calls::read_frames(held, frames, answers)
}

// Gates, cost and levels. Refusals: 20.
pub fn report(held: Record) -> SizeReport
    ensures { result ≡ report_on held }
{
    journal_calls::report(held)
}

// Line n of the question of two records is put at the front of the lent bytes; the answer is its length. Refusals: 20 for either, 19, 21, 18.
pub fn line(first: Record, second: Record, n: usize, out: &mut [u8]) -> LineWritten
    ensures value { result ≡ as_line_written (line_on first second n (length out.old)) }
    ensures out_after { out.new ≡ stored (line_on first second n (length out.old)) out.old }
{
    journal_calls::line(first, second, n, out)
}

// Whether two records read alike: 0 alike, on every frame; 1 apart, on the frame that is given; 2 undecided, which is never given for at most 20
// inputs. The budget is a number of steps, and the answer has the steps used. Nothing is changed. Refusals: 20 for either, 19.
pub fn compare(first: Record, second: Record, budget: u64) -> Compared
    ensures { CompareOn first second budget result }
{
    journal_calls::compare(first, second, budget)
}

// ---- what folding would do

// The k and l with the least k + l, then the least k, with which u merges into v. Refusals: 20, 11, 12, 7, 16.
pub fn pair(held: Record, u: usize, v: usize) -> PairFound
    ensures { result ≡ pair_on held u v }
{
    journal_calls::pair(held, u, v)
}

// Gates, cost and levels that a collapse of the gate with signal s would leave; the record is not changed. Refusals: those of the collapse.
pub fn preview(held: Record, s: usize) -> SizeReport
    ensures { result ≡ preview_on held s }
{
    journal_calls::preview(held, s)
}

// The merge's own number; where it is 15, a setting of the distinct feeds that shows why, with as few lit as any. The record is not changed.
pub fn witness(held: Record, u: usize, v: usize, k: usize, l: usize) -> Witnessed
    ensures { WitnessOn held u v k l result }
{
    journal_calls::witness(held, u, v, k, l)
}

// The distinct feeds of u and v, rising, of which a setting speaks. Refusals: 20, 11, 12, 7.
pub fn distinct_feeds(held: Record, u: usize, v: usize) -> DistinctFeeds
    ensures { result ≡ feeds_on held u v }
{
    journal_calls::distinct_feeds(held, u, v)
}

// ---- what changes a record

// u merged into v with k and l; one step is entered. Refusals: 20, 11, 12, 14, 7, 6, 24, 15.
pub fn merge(held: Record, u: usize, v: usize, k: usize, l: usize) -> CallAnswer
    ensures { result ≡ applied held (Merge u v k l) }
{
    call_apply::apply(held, Call::Merge { u, v, k, l })
}

// The gate with signal s removed, which nothing reads; one step is entered. Refusals: 20, 11, 17.
pub fn drop_gate(held: Record, s: usize) -> CallAnswer
    ensures { result ≡ applied held (Drop s) }
{
    call_apply::apply(held, Call::Drop { s })
}

// The gate with signal s merged into all of its readers and dropped; each merge in rising order of the readers, and then the drop, is a step that
// is entered. Refusals: 20, 11, 17, then the first reader's 7 or 16.
pub fn collapse(held: Record, s: usize) -> CallAnswer
    ensures { result ≡ applied held (Collapse s) }
{
    call_apply::apply(held, Call::Collapse { s })
}

// The lowest gate with at most b readers that collapse accepts is collapsed, again and again until there is none; the steps of each collapse are
// entered, and the first of the three numbers is that of the collapses. Refusals: 20, 14.
pub fn sweep(held: Record, b: usize) -> CallAnswer
    ensures { result ≡ applied held (Sweep b) }
{
    call_apply::apply(held, Call::Sweep { b })
}

// The latest step taken back: the network before it, signals included, and the journal without it. Refusals: 20, 22, 23.
pub fn undo(held: Record) -> CallAnswer
    ensures { result ≡ applied held Undo }
{
    call_apply::apply(held, Call::Undo)
}

// One call of a list: a merge, a drop, a collapse, a sweep, a preview or an undo, with its own refusals.
pub fn apply(held: Record, call: Call) -> CallAnswer
    ensures { result ≡ applied held call }
{
    call_apply::apply(held, call)
}

// ---- one output alone

// The record of one output alone: all inputs, the margins and the version stay, the gates that the output names or that a gate of the cut reads keep
// their order with new signals, and the journal is empty. Refusals: 20, 8 for an output number that the network lacks.
pub fn cut(held: Record, output: usize) -> CutAnswer
    ensures { result ≡ cut_record held output }
{
    cut_output::cut(held, output)
}

// ---- one bowler's game

// The sheet of a game, from the frames after each ball: the pins felled by each, and the running score of every finished frame whose bonus balls
// are known. Refusals: 20, 27 fewer than ten outputs; then ball by ball 10, 28 a ball after the game's end, 29 a pin that stands after a ball
// without having stood before it in the same rack.
pub fn score(held: Record, frames: &[u64]) -> Sheet
    ensures { result ≡ scoring held frames.now }
{
    scorer::score(held, frames)
}

// ---- the whole alley on one sheet

// The totals before the first lane.
pub fn no_lanes() -> Totals
    ensures { result ≡ no_lanes }
{
    alley_sheet::no_lanes()
}

// The first lane of the bytes, which are an alley file's from a lane's start on, is listed: its line is put at the front of the lent bytes, and the
// answer has the bytes that the lane takes, what is listed of it and the totals after it. `last` says that no bytes follow. Refusals: 20 for totals
// that no alley has, 18.
pub fn list_lane(bytes: &[u8], last: bool, totals: Totals, out: &mut [u8]) -> Listed
    ensures value { result ≡ as_listed totals (listing totals last bytes.now (length out.old)) }
    ensures out_after { out.new ≡ stored (text_of (listing totals last bytes.now (length out.old))) out.old }
{
    alley_sheet::list_lane(bytes, last, totals, out)
}

// The last line, `total` and both sums, is put at the front of the lent bytes. Refusals: 18.
pub fn total_line(totals: Totals, out: &mut [u8]) -> alley_theory::LineWritten
    ensures value { result ≡ as_sheet_line (total_answer totals (length out.old)) }
    ensures out_after { out.new ≡ stored (total_answer totals (length out.old)) out.old }
{
    alley_sheet::total_line(totals, out)
}

// ---- the three-feed table

// The entry of a truth table of three feeds: a gate that has exactly that function, or two settings that are 1 and two that are 0 which show that no
// gate has it.
pub fn table_entry(table: u8) -> TableEntry
    ensures value { result ≡ table_entry table }
    ensures entry_rule { EntryRule table result }
{
    three_feeds::entry(table)
}

// The bytes of that gate on three signals are put at the front of the lent bytes, as a part of a PMN file. Refusals: 5 where the signals do not rise,
// the settings where there is no gate, 18.
pub fn table_part(table: u8, i: u8, j: u8, k: u8, out: &mut [u8]) -> MaskPart
    ensures value { result ≡ mask_part table i j k (length out.old) }
    ensures out_after { out.new ≡ part_bytes_after table i j k out.old }
{
    three_feeds_part::put_part(table, i, j, k, out)
}
