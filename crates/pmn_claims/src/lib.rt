// What is claimed of the functions on whole files, from bytes to bytes.
#![tactic(auto)]

ghost use Rattle.std.specs.Prelude.{List, ℕ};
ghost use Rattle.network.specs.Threshold.{Net};
ghost use Rattle.pmn_format.specs.Format.{Bytes};
ghost use Rattle.pmn_claims.specs.Reads.{ReadAlike};
ghost use Rattle.pmn_claims.specs.Answers.{FilesAsRecords};
ghost use Rattle.pmn_claims.specs.Runs.{RunClaim};
ghost use Rattle.pmn_claims.specs.Margins.{MarginsOfFile};
ghost use Rattle.pmn_claims.specs.Converter.{ConverterClaim};
ghost use Rattle.pmn_claims.specs.Cuts.{CutClaim};

// The functions on whole files start from the network of the record that `read` gives, or refuse with its number, and then with 18 for too few places.
pub fn files_are_records()
    ensures { (file : List ℕ) → Bytes file → ReadAlike file }
{}

// Pairs, previews and witnesses of a file that a read accepts are those of the record that was read.
pub fn files_answer_as_records()
    ensures { (file : List ℕ) → Bytes file → FilesAsRecords file }
{}

// Demand 3 for `pmn_run`, for every file, every list of numbers and any lent places. If the answer is 0, the first answers[0] bytes of `out` are a
// file that a read accepts; no output tells its network from that of the file, on any frame; its board is the same; the question written for the two
// has no 0/1 solution; it is what the calls leave one after another, and each group of four numbers is what they answer. If it is another number,
// every lent place is as it was.
pub fn runs_are_lists_of_calls()
    ensures { (file numbers answers out : List ℕ) → Bytes file → RunClaim file numbers answers out }
{}

// Document 02, No. 8: the file of a network within the other limits is read as that network if all its gates keep the margins, in the words of source
// document 004, and else refused with 24.
pub fn broken_margins_give_24()
    ensures { (net : Net) → MarginsOfFile net }
{}

// Document 02, No. 8: a file is converted exactly if it is of version 1 or its margins are 0 and 1, byte by byte, and what it becomes is read as the
// same inputs, gates and outputs; the others are refused with 25, then with 18 if there is no room.
pub fn versions_are_converted()
    ensures { (file : List ℕ) → Bytes file → (room : ℕ) → ConverterClaim file room }
{}

// Document 02, No. 12, for `pmn_cut`: the number of the read, 18 without a place for the length, 8 for an output that the network lacks; or the bytes of
// a file that a read accepts, whose network is the cut as claimed of networks, if the lent bytes have room for them, and else 18.
pub fn files_are_cut()
    ensures { (file : List ℕ) → Bytes file → (output : ℕ) → CutClaim file output }
{}
