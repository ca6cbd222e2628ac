// The calls for C and Rust: each function takes a PMN file and numbers (the last takes a number alone), and answers 0 or the refusal.
// include/pmn.h has the declarations; a slice is a pointer and then a length.
#![tactic(auto)]

ghost use Rattle.std.specs.Prelude.{◌≡◌, length};
ghost use Rattle.basics.specs.Refusals.{code_of, stored};
ghost use Rattle.pmn_opening.specs.Files.{read_net, open_net, length_of};
ghost use Rattle.pmn_files.specs.Files.{report_places, file_out, part_out};
ghost use Rattle.pmn_converter.specs.Conversion.{conversion_places};
ghost use Rattle.frame_files.specs.Files.{frame_places, file_frames};
ghost use Rattle.fold_pair.specs.Files.{pair_places};
ghost use Rattle.fold_preview.specs.Files.{preview_places};
ghost use Rattle.fold_witness.specs.Files.{WitnessLeft};
ghost use Rattle.fold_feeds.specs.Files.{distinct_places};
ghost use Rattle.cut_files.specs.Answers.{cut_places};
ghost use Rattle.compare_networks.specs.Files.{compared_files, CompareLeft};
ghost use Rattle.question_files.specs.Files.{line_out};
ghost use Rattle.call_runs.specs.Files.{run_answer, ran_file, ran_numbers};
ghost use Rattle.scorer.specs.Answers.{score_places};
ghost use Rattle.three_feeds_places.specs.Places.{entry_places};

// The network of a file is read, and nothing more.
#[unsafe(no_mangle)]
pub extern "C" fn pmn_check(file: &[u8]) -> u8
    ensures { result ≡ code_of (read_net file.now) }
{
    pmn_files::check_file(file)
}

// A frame is read: the output bits go into place 0 of the answer, the number of ones into place 1.
#[unsafe(no_mangle)]
pub extern "C" fn pmn_frame(file: &[u8], frame: u64, answer: &mut [u64]) -> u8
    ensures value { result ≡ code_of (frame_places file.now frame answer.old) }
    ensures answer_after { answer.new ≡ stored (frame_places file.now frame answer.old) answer.old }
{
    frame_files::read_file_frame(file, frame, answer)
}

// Up to 64 frames are read in one pass: the output bits on frame i go into place i of the answers.
#[unsafe(no_mangle)]
pub extern "C" fn pmn_frames(file: &[u8], frames: &[u64], answers: &mut [u64]) -> u8
    ensures value { result ≡ code_of (file_frames file.now frames.now answers.old) }
    ensures answers_after { answers.new ≡ stored (file_frames file.now frames.now answers.old) answers.old }
{
    frame_files::read_file_frames(file, frames, answers)
}

// A game is scored from the frames after each ball: the number of balls goes into place 0 of the answer, the number of scores known into
// place 1, the pins felled by each ball into the next 21, the running scores into the ten after these.
#[unsafe(no_mangle)]
pub extern "C" fn pmn_score(file: &[u8], frames: &[u64], answer: &mut [u64]) -> u8
    ensures value { result ≡ code_of (score_places file.now frames.now (length answer.old)) }
    ensures answer_after { answer.new
        ≡ stored (score_places file.now frames.now (length answer.old)) answer.old }
{
    scorer::files::score_file(file, frames, answer)
}

// The pair for two gates: k goes into place 0 of the answer, l into place 1.
#[unsafe(no_mangle)]
pub extern "C" fn pmn_pair(file: &[u8], u: u64, v: u64, answer: &mut [u64]) -> u8
    ensures value { result ≡ code_of (pair_places file.now u v answer.old) }
    ensures answer_after { answer.new ≡ stored (pair_places file.now u v answer.old) answer.old }
{
    fold_pair::files::pair_of_file(file, u, v, answer)
}

// A witness of a merge: the merge's own number; only where it is 15, the setting with the fewest ones that shows it goes into place 0 of
// the answer.
#[unsafe(no_mangle)]
pub extern "C" fn pmn_witness(file: &[u8], u: u64, v: u64, k: u64, l: u64, answer: &mut [u64]) -> u8
    ensures { WitnessLeft (open_net file.now (length answer.old) 1) u v k l answer.old answer.new result }
{
    fold_witness::files::witness_of_file(file, u, v, k, l, answer)
}

// The distinct feeds of two gates: their number goes into place 0 of the answer, their signals into the places after it, rising.
#[unsafe(no_mangle)]
pub extern "C" fn pmn_distinct(file: &[u8], u: u64, v: u64, answer: &mut [u64]) -> u8
    ensures value { result ≡ code_of (distinct_places file.now u v answer.old) }
    ensures answer_after { answer.new ≡ stored (distinct_places file.now u v answer.old) answer.old }
{
    fold_feeds::files::distinct_of_file(file, u, v, answer)
}

// The size of the network: gates, cost and levels go into the first three places of the answer.
#[unsafe(no_mangle)]
pub extern "C" fn pmn_report(file: &[u8], answer: &mut [u64]) -> u8
    ensures value { result ≡ code_of (report_places file.now answer.old) }
    ensures answer_after { answer.new ≡ stored (report_places file.now answer.old) answer.old }
{
    pmn_files::report_of_file(file, answer)
}

// What a collapse of the gate with a signal would give: gates, cost and levels go into the first three places of the answer.
#[unsafe(no_mangle)]
pub extern "C" fn pmn_preview(file: &[u8], signal: u64, answer: &mut [u64]) -> u8
    ensures value { result ≡ code_of (preview_places file.now signal answer.old) }
    ensures answer_after { answer.new ≡ stored (preview_places file.now signal answer.old) answer.old }
{
    fold_preview::files::preview_of_file(file, signal, answer)
}

// The file is written anew into `out`, and its length goes into place 0 of the answer.
#[unsafe(no_mangle)]
pub extern "C" fn pmn_write(file: &[u8], out: &mut [u8], answer: &mut [u64]) -> u8
    ensures value { result ≡ code_of (file_out file.now out.old answer.old) }
    ensures out_after { out.new ≡ stored (file_out file.now out.old answer.old) out.old }
    ensures answer_after { answer.new ≡ stored (length_of (file_out file.now out.old answer.old)) answer.old }
{
    pmn_files::write_file(file, out, answer)
}

// The file of the same network in the other version is put into `out`, and its length goes into place 0 of the answer.
#[unsafe(no_mangle)]
pub extern "C" fn pmn_convert(file: &[u8], out: &mut [u8], answer: &mut [u64]) -> u8
    ensures value { result ≡ code_of (conversion_places file.now (length out.old) (length answer.old)) }
    ensures out_after { out.new
        ≡ stored (conversion_places file.now (length out.old) (length answer.old)) out.old }
    ensures answer_after { answer.new
        ≡ stored (length_of (conversion_places file.now (length out.old) (length answer.old))) answer.old }
{
    pmn_converter::files::convert_file(file, out, answer)
}

// The bytes of the gate with a signal are copied into `out`, and their number goes into place 0 of the answer.
#[unsafe(no_mangle)]
pub extern "C" fn pmn_part(file: &[u8], signal: u64, out: &mut [u8], answer: &mut [u64]) -> u8
    ensures value { result ≡ code_of (part_out file.now signal out.old answer.old) }
    ensures out_after { out.new ≡ stored (part_out file.now signal out.old answer.old) out.old }
    ensures answer_after { answer.new
        ≡ stored (length_of (part_out file.now signal out.old answer.old)) answer.old }
{
    pmn_files::part_of_file(file, signal, out, answer)
}

// The file of the cut of an output, with the gates that it needs and no others, is put into `out`, and its length goes into place 0 of the answer.
#[unsafe(no_mangle)]
pub extern "C" fn pmn_cut(file: &[u8], output: u64, out: &mut [u8], answer: &mut [u64]) -> u8
    ensures value { result ≡ code_of (cut_places file.now output (length out.old) (length answer.old)) }
    ensures out_after { out.new
        ≡ stored (cut_places file.now output (length out.old) (length answer.old)) out.old }
    ensures answer_after { answer.new
        ≡ stored (length_of (cut_places file.now output (length out.old) (length answer.old))) answer.old }
{
    cut_files::cut_file(file, output, out, answer)
}

// Line n of the question for two files is put into `out`, and its length goes into place 0 of the answer.
#[unsafe(no_mangle)]
pub extern "C" fn pmn_line(
    first: &[u8],
    second: &[u8],
    n: u64,
    out: &mut [u8],
    answer: &mut [u64],
) -> u8
    ensures value { result ≡ code_of (line_out first.now second.now n out.old answer.old) }
    ensures out_after { out.new
        ≡ stored (line_out first.now second.now n out.old answer.old) out.old }
    ensures answer_after { answer.new
        ≡ stored (length_of (line_out first.now second.now n out.old answer.old)) answer.old }
{
    question_files::line_of_files(first, second, n, out, answer)
}

// Two files are compared with at most so many steps: the verdict goes into place 0 of the answer, a frame on which they are apart into place 1, and
// the steps used into place 2.
#[unsafe(no_mangle)]
pub extern "C" fn pmn_compare(first: &[u8], second: &[u8], budget: u64, answer: &mut [u64]) -> u8
    ensures { CompareLeft (compared_files first.now second.now (length answer.old)) budget
        answer.old answer.new result }
{
    compare_networks::files::compare_of_files(first, second, budget, answer)
}

// The list of calls is run: each call's code and three numbers go into the answers from place 1 on, the file of the network after the list
// into `out`, and its length into place 0 of the answers.
#[unsafe(no_mangle)]
pub extern "C" fn pmn_run(file: &[u8], calls: &[u64], answers: &mut [u64], out: &mut [u8]) -> u8
    ensures value { result ≡ code_of (run_answer file.now calls.now answers.old out.old) }
    ensures answers_after { answers.new
        ≡ stored (ran_numbers (run_answer file.now calls.now answers.old out.old)) answers.old }
    ensures out_after { out.new
        ≡ stored (ran_file (run_answer file.now calls.now answers.old out.old)) out.old }
{
    call_lists::files::run_on_file(file, calls, answers, out)
}

// The entry of a truth table of three feeds: 1, the three weights and T go into the first five places of the answer; or 0, two settings
// that are 1 and two that are 0.
#[unsafe(no_mangle)]
pub extern "C" fn pmn_three_feeds(table: u64, answer: &mut [i64]) -> u8
    ensures value { result ≡ code_of (entry_places table answer.old) }
    ensures answer_after { answer.new ≡ stored (entry_places table answer.old) answer.old }
{
    three_feeds_places::put_entry(table, answer)
}
