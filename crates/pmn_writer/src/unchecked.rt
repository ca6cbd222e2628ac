// Writing a sound record's file at the front of the lent bytes, part after part. The bytes after it stay as they were. The public function
// asks for what its caller has tested.
ghost use Rattle.std.specs.Prelude.{◌≡◌, true, ◌++◌, ◌+◌, ◌≤◌, length, drop};
ghost use Rattle.network.specs.Record.{sound_record};
ghost use Rattle.network.specs.Places.{Counted};
ghost use Rattle.pmn_format.specs.Lengths.{header_length};
ghost use Rattle.pmn_writer.specs.Answers.{written, bytes_after};
ghost use Rattle.pmn_writer.specs.Writing.{gates_length};
ghost use Rattle.pmn_writer.specs.WritingLaws.{record_gates};

use crate::Written;
use network::Network;
use network_places::unchecked::gate_at;
use pmn_format::header_length;
use pmn_writing::unchecked::{put_gate, put_header, put_outputs};

// The gates of a record, each from the place where its predecessor ended. The answer is their length.
fn put_gates(out: &mut [u8], network: &Network) -> usize
    requires counted { Counted network.now.fanins network.now.gates }
    requires gates_in_bounds { gates_length network.now.fanins network.now.gates ≤ length out.old }
    ensures value { result ≡ gates_length network.now.fanins network.now.gates }
    ensures out_after { out.new ≡ record_gates network.now ++ drop result out.old }
{
    let mut at: usize = 0;
    for g in 0..network.gates {
        let gate = gate_at(network, g);
        let step = put_gate(&mut out[at..], gate);
        at += step;
    }
    at
}

// How long the file of a record is.
fn file_length(network: &Network) -> usize
    requires counted { Counted network.now.fanins network.now.gates }
    requires outputs_bound { network.now.outputs ≤ 16 }
    ensures { result ≡ header_length network.now.board + gates_length network.now.fanins network.now.gates + network.now.outputs }
{
    let mut total = header_length(network.board.version);
    for fanin in &network.fanins[..network.gates] {
        total += 5 + 5 * usize::from(*fanin);
    }
    total + network.outputs
}

// Writes the file of a sound record at the front of the lent bytes, or refuses where the file is longer than these.
pub fn write_sound(network: &Network, out: &mut [u8]) -> Written
    requires { sound_record network.now ≡ true }
    ensures value { result ≡ written network.now (length out.old) }
    ensures out_after { out.new ≡ bytes_after network.now out.old }
{
    let length = file_length(network);
    if out.len() < length {
        return Written {
            code: 18,
            length: 0,
        };
    }
    let start = put_header(out, network);
    let gates = put_gates(&mut out[start..], network);
    let at = start + gates;
    put_outputs(&mut out[at..], network);
    Written { code: 0, length }
}
