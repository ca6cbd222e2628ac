// How the functions end that put out a file: the caller has tested that there is a place for its length.
ghost use Rattle.std.specs.Prelude.{◌≡◌, true, ◌≤◌, length};
ghost use Rattle.basics.specs.Refusals.{code_of, stored};
ghost use Rattle.network.specs.Record.{net_of, sound_record};
ghost use Rattle.pmn_opening.specs.Files.{length_of};
ghost use Rattle.pmn_files.specs.Files.{file_in};

use network::Network;
use pmn_opening::unchecked::places::put_one;
use pmn_writer::unchecked::write_sound;

// The file of a sound record is put into `out`, and its length into place 0 of the answer; or 18 where the file is longer than `out`.
pub fn put_file(network: Network, out: &mut [u8], answer: &mut [u64]) -> u8
    requires network_value { sound_record network ≡ true }
    requires in_bounds { 1 ≤ length answer.old }
    ensures value { result ≡ code_of (file_in (length out.old) (net_of network)) }
    ensures out_after { out.new ≡ stored (file_in (length out.old) (net_of network)) out.old }
    ensures answer_after { answer.new ≡ stored (length_of (file_in (length out.old) (net_of network))) answer.old }
{
    let written = write_sound(&network, out);
    put_one(answer, written.code, written.length as u64)
}
