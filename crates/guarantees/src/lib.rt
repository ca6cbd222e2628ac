// What a customer buys, each theorem as the promise of an empty public function: the check names it, and nothing can make it vanish.
// The promises cite the definitions in specs/. "Every record" is a parameter; "every file" is every list of bytes.
#![tactic(auto)]

ghost use Rattle.std.specs.Prelude.{◌≡◌, List, map, ℕ};
ghost use Rattle.pmn_format.specs.Format.{Bytes};
ghost use Rattle.pmn_reader.specs.Answers.{loaded};
ghost use Rattle.fold_theory.specs.Bench.{bench, reply};
ghost use Rattle.call_theory.specs.Steps.{State};
ghost use Rattle.call_theory.specs.declared.Call.{Call};
ghost use Rattle.journal.specs.Records.{just_read};
ghost use Rattle.fold_witness.specs.declared.Witnessed.{Witnessed};
ghost use Rattle.guarantees.specs.Files.{Accepted, SoundIsDescribed, WrittenIsRead, ReadIsWritten};
ghost use Rattle.guarantees.specs.Questions.{Questions};
ghost use Rattle.guarantees.specs.Lists.{ListClaim};
ghost use Rattle.guarantees.specs.Records.{RecordClaim, JournalClaim};
ghost use Rattle.guarantees.specs.Pairs.{PairClaim};
ghost use Rattle.guarantees.specs.Previews.{PreviewClaim};
ghost use Rattle.guarantees.specs.Thirteen.{NeverThirteen};
ghost use Rattle.guarantees.specs.Witnesses.{LightsFewest};
ghost use Rattle.guarantees.specs.Frames.{FramesClaim};
ghost use Rattle.guarantees.specs.Cuts.{CutClaim};

use journal::Record;
use network::Network;

// A record is sound exactly when some file's reading gives it, without its journal, which no file carries, and the journal claims at most 64
// steps.
pub fn sound_is_described(held: Record)
    ensures { SoundIsDescribed held }
{}

// Every sound record, written and read again, is that record, compared without the journal, which no file carries.
pub fn written_is_read(held: Record)
    ensures { WrittenIsRead held }
{}

// Every accepted file, read and written again, is those bytes; and every accepted read is sound.
pub fn read_is_written()
    ensures { (file : List ℕ) → Bytes file → ReadIsWritten file }
{}

// Demand 2: for any two sound records with equal input and output counts, the question has a 0/1 solution exactly when some frame makes
// their outputs differ, and so has what is written: by a strict reader of the texts, the header says how many variables and how many lines
// after it there are, each line's text says that line, and every variable is one of those that the header counts. No text is longer than
// 254 bytes.
pub fn question_decides(first: Network, second: Network)
    ensures { Questions first second }
{}

// Demand 3: from the record of any file that a read accepts, every list of merges, drops, collapses, sweeps, previews and undos with any numbers,
// refused ones included. The record after it is read alike on every frame and has the same board; the two have equal input and output
// counts, and the question written for them is as claimed above and has no 0/1 solution; each call leaves exactly the network and the journal
// and gives exactly the answer that the definitions give; a merge within the limits is accepted exactly when it agrees and keeps the margins; a
// collapse exactly when every reader has a pair; after an accepted sweep nothing within its reader limit is left to collapse; and a preview
// changes nothing and shows what a collapse would leave. Document 02, No. 5: as many undos as a call entered steps, at most 64, give back the
// network before it; no undo answers 23; and if at most 64 steps were accepted since the read, repeating undo until 22 gives the record read.
pub fn lists_of_calls()
    ensures { (file : List ℕ) → Bytes file → Accepted file → (calls : List Call) → ListClaim (just_read (loaded file).network) calls }
{}

// Any record, made by hand or not, and any call: it is refused with 20 exactly if the record is not sound; a refused call hands the record back; a
// sound one stays sound.
pub fn any_record_and_call(held: Record)
    ensures { (call : Call) → RecordClaim held call }
{}

// Document 02, No. 5: after an accepted call the journal is the newest 64 of its steps and those before, also if the call makes more than 64.
pub fn newest_64_are_kept()
    ensures { (state : State) (call : Call) → JournalClaim state call }
{}

// The pair rule, for every record and any two numbers: the answer is the qualifying pair with the least k + l, then the least k, and its merge is
// accepted; 16 is given only if none of the 1,024 qualifies; and a pair is given if one qualifies on a sound record.
pub fn pairs_are_least(held: Record)
    ensures { (u v : ℕ) → PairClaim held u v }
{}

// Document 02, No. 1, for every record and any number: a preview is the report of the record that a collapse leaves, or the collapse's refusal; as a
// call of a list it hands its record back as it was, with the whole preview.
pub fn previews_are_reports(held: Record)
    ensures { (s : ℕ) → PreviewClaim held s }
{}

// Document 02, No. 2: no merge, pair, drop, collapse, sweep, preview, witness or undo answers 13, on any record and with any numbers.
pub fn thirteen_is_never_given(held: Record)
    ensures { NeverThirteen held }
{}

// Document 02, No. 9: for every record and any numbers, whatever answer with 15 meets the promise of `witness` lights, counted signal by
// signal, no more of the distinct signals than any setting on which the merged gate and the composed pair differ.
pub fn witnesses_light_fewest(held: Record)
    ensures { (u v k l : ℕ) (w : Witnessed) → LightsFewest held u v k l w }
{}

// Document 02, No. 10, for every record: up to 64 frames in one pass are read as single readings give them; 20, then 26 for more of them or for too
// few places, then 10.
pub fn frames_in_one_pass(held: Record)
    ensures { (frames lent : List ℕ) → FramesClaim held frames lent }
{}

// Document 02, No. 12, for every record and any number: 20, then 8 for an output that the network lacks, or the cut. Its gates are those that the
// output names or that a gate of the cut reads, and no others, in their order with new signals; the record is sound, its journal is empty, and all
// inputs, the margins and the version stay. It gives that output's bit on every frame; every gate in it is needed by the same rule, and its own cut
// is itself. Of a record just read, with any list of calls before the cut, or any list after it, the bit is the same.
pub fn pins_are_cut(held: Record)
    ensures { (output : ℕ) → CutClaim held output }
{}

// The bench gates P1 to P11 and the example of document 02, No. 2: what the definitions say is what the papers say.
pub fn bench_gates()
    ensures { map (λ row. reply row.ask) bench ≡ map (λ row. row.want) bench }
{}
