// Converting a whole file, with a place for the length of the new one.
ghost use Rattle.std.specs.Prelude.{◌≡◌, true, ◌≤◌, length};
ghost use Rattle.basics.specs.Refusals.{code_of, stored};
ghost use Rattle.network.specs.Record.{net_of, sound_record};
ghost use Rattle.pmn_opening.specs.Files.{length_of};
ghost use Rattle.pmn_versions.specs.Versions.{convertible};
ghost use Rattle.pmn_converter.specs.Conversion.{conversion, conversion_places};

use network::Network;
use pmn_files::unchecked::put_file;
use pmn_opening::unchecked::refusal;
use pmn_versions::unchecked::{in_other_version, is_convertible};

// The file of a record that can be converted, in the other version, is put into `out`, and its length into place 0 of the answer; or 18
// where the file is longer than `out`. It has a frame of its own.
#[inline(never)]
fn put_other(network: Network, out: &mut [u8], answer: &mut [u64]) -> u8
    requires sound { sound_record network ≡ true }
    requires other { convertible network.board ≡ true }
    requires in_bounds { 1 ≤ length answer.old }
    ensures value { result ≡ code_of (conversion (net_of network) (length out.old)) }
    ensures out_after { out.new ≡ stored (conversion (net_of network) (length out.old)) out.old }
    ensures answer_after { answer.new ≡ stored (length_of (conversion (net_of network) (length out.old))) answer.old }
{
    let other = in_other_version(network);
    put_file(other, out, answer)
}

// The same network in the other version is put into `out`, and its length goes into place 0 of the answer. Refusals: as read, 18 where
// there is no place, 25 for margins that version 1 can't hold, 18 where the new file is longer than `out`.
pub fn convert_file(file: &[u8], out: &mut [u8], answer: &mut [u64]) -> u8
    ensures value { result ≡ code_of (conversion_places file.now (length out.old) (length answer.old)) }
    ensures out_after { out.new
        ≡ stored (conversion_places file.now (length out.old) (length answer.old)) out.old }
    ensures answer_after { answer.new
        ≡ stored (length_of (conversion_places file.now (length out.old) (length answer.old))) answer.old }
{
    let read = pmn_reader::read(file);
    let code = refusal(file, read, answer.len(), 1);
    if code != 0 {
        return code;
    }
    let board = read.network.board;
    if !is_convertible(board) {
        return 25;
    }
    put_other(read.network, out, answer)
}
