// Reading a whole file, writing it anew, the bytes of one of its gates, and its size. Each function takes a PMN file and answers 0 or the
// refusal.
#![tactic(auto)]

pub mod unchecked;

ghost use Rattle.std.specs.Prelude.{◌≡◌};
ghost use Rattle.basics.specs.Refusals.{code_of, stored};
ghost use Rattle.pmn_opening.specs.Files.{read_net, length_of};
ghost use Rattle.pmn_files.specs.Files.{report_places, file_out, part_out};

use pmn_opening::unchecked::places::{put_one, put_three};
use pmn_opening::unchecked::{read_refusal, refusal};
use unchecked::put_file;

// The network of a file is read, and nothing more.
pub fn check_file(file: &[u8]) -> u8
    ensures { result ≡ code_of (read_net file.now) }
{
    let loaded = pmn_reader::read(file);
    loaded.code
}

// Gates, cost and levels of a file's network go into the first three places of the answer. Refusals: as read, 18 for fewer than three
// places.
pub fn report_of_file(file: &[u8], answer: &mut [u64]) -> u8
    ensures value { result ≡ code_of (report_places file.now answer.old) }
    ensures answer_after { answer.new ≡ stored (report_places file.now answer.old) answer.old }
{
    let loaded = pmn_reader::read(file);
    let code = refusal(file, loaded, answer.len(), 3);
    if code != 0 {
        return code;
    }
    let size = network_report::unchecked::size_of(&loaded.network);
    put_three(
        answer,
        size.code,
        size.gates as u64,
        size.cost,
        size.levels as u64,
    )
}

// A file is written anew into `out`, and its length goes into place 0 of the answer. Refusals: as read, 18 where there is no place or the
// file is longer than `out`.
pub fn write_file(file: &[u8], out: &mut [u8], answer: &mut [u64]) -> u8
    ensures value { result ≡ code_of (file_out file.now out.old answer.old) }
    ensures out_after { out.new ≡ stored (file_out file.now out.old answer.old) out.old }
    ensures answer_after { answer.new
        ≡ stored (length_of (file_out file.now out.old answer.old)) answer.old }
{
    let loaded = pmn_reader::read(file);
    let code = refusal(file, loaded, answer.len(), 1);
    if code != 0 {
        return code;
    }
    put_file(loaded.network, out, answer)
}

// The bytes of the gate with a signal are copied into `out`, and their number goes into place 0 of the answer. Refusals: as read, 18 where
// there is no place, 11 no such gate, 18 where the bytes are more than `out` has.
pub fn part_of_file(file: &[u8], signal: u64, out: &mut [u8], answer: &mut [u64]) -> u8
    ensures value { result ≡ code_of (part_out file.now signal out.old answer.old) }
    ensures out_after { out.new ≡ stored (part_out file.now signal out.old answer.old) out.old }
    ensures answer_after { answer.new
        ≡ stored (length_of (part_out file.now signal out.old answer.old)) answer.old }
{
    let code = read_refusal(file, answer.len(), 1);
    if code != 0 {
        return code;
    }
    let part = pmn_reader::gate_part(file, signal as usize);
    let length = part.len();
    if length == 0 {
        return 11;
    }
    if out.len() < length {
        return 18;
    }
    out[..length].copy_from_slice(part);
    put_one(answer, 0, length as u64)
}
