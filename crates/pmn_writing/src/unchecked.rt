// Writing the parts of a file, each at the front of the lent bytes. The bytes after a part stay as they were. Each public function asks for
// what its caller has tested.
ghost use Rattle.std.specs.Prelude.{◌≡◌, [], ◌∷◌, ◌++◌, ◌+◌, ◌*◌, ◌≤◌, ◌<◌, length, drop};
ghost use Rattle.basics.specs.Word.{int_bytes};
ghost use Rattle.network.specs.Record.{gate_in};
ghost use Rattle.pmn_format.specs.Format.{gate_bytes, mark_bytes, counted_header};
ghost use Rattle.pmn_format.specs.Lengths.{header_length};
ghost use Rattle.pmn_writing.specs.Parts.{first_feeds, first_outputs};

use network::{Board, GateRecord, Network};

// A byte and a signed number.
fn put_pair(out: &mut [u8], byte: u8, number: i32)
    requires { 5 ≤ length out.old }
    ensures { out.new ≡ (byte ∷ int_bytes number) ++ drop 5 out.old }
{
    out[0] = byte;
    out[1..5].copy_from_slice(&number.to_le_bytes());
}

// The feeds of a gate.
fn put_feeds(out: &mut [u8], gate: &GateRecord)
    requires { (gate.now.fanin ≤ 16) × (5 * gate.now.fanin ≤ length out.old) }
    ensures { out.new ≡ first_feeds gate.now.signals gate.now.weights gate.now.fanin ++ drop (5 * gate.now.fanin) out.old }
{
    for i in 0..usize::from(gate.fanin) {
        put_pair(&mut out[5 * i..], gate.signals[i], gate.weights[i]);
    }
}

// One gate: its feed count, its threshold and its feeds. The answer is its length.
pub fn put_gate(out: &mut [u8], gate: GateRecord) -> usize
    requires { (gate.fanin ≤ 16) × (5 + 5 * gate.fanin ≤ length out.old) }
    ensures value { result ≡ 5 + 5 * gate.fanin }
    ensures out_after { out.new ≡ gate_bytes (gate_in gate) ++ drop result out.old }
{
    put_pair(out, gate.fanin, gate.threshold);
    put_feeds(&mut out[5..], &gate);
    5 + 5 * usize::from(gate.fanin)
}

// The mark, the version and the margins of a board. The answer is their length.
fn put_board(out: &mut [u8], board: Board) -> usize
    requires { length (mark_bytes board) ≤ length out.old }
    ensures value { result ≡ length (mark_bytes board) }
    ensures out_after { out.new ≡ mark_bytes board ++ drop result out.old }
{
    if board.version == 2 {
        out[..7].copy_from_slice(&[b'P', b'M', b'N', 2, 0, board.on, board.off]);
        return 7;
    }
    out[..5].copy_from_slice(&[b'P', b'M', b'N', 1, 0]);
    5
}

// The header of a network: its board, and its three counts. The answer is its length.
pub fn put_header(out: &mut [u8], network: &Network) -> usize
    requires counts_bound { (network.now.inputs < 256) × (network.now.gates < 256) × (network.now.outputs < 256) }
    requires board_in_bounds { header_length network.now.board ≤ length out.old }
    ensures value { result ≡ header_length network.now.board }
    ensures out_after { out.new ≡ counted_header network.now.board network.now.inputs network.now.gates network.now.outputs ++ drop result out.old }
{
    let at = put_board(out, network.board);
    out[at..at + 3].copy_from_slice(&[
        network.inputs as u8,
        network.gates as u8,
        network.outputs as u8,
    ]);
    at + 3
}

// The outputs of a network.
#[tactic(auto, using(crate::specs::PartLaws::first_outputs_taken))]
pub fn put_outputs(out: &mut [u8], network: &Network)
    requires { (network.now.outputs ≤ 16) × (network.now.outputs ≤ length out.old) }
    ensures { out.new ≡ first_outputs network.now.drivers network.now.outputs ++ drop network.now.outputs out.old }
{
    let outputs = network.outputs;
    out[..outputs].copy_from_slice(&network.drivers[..outputs]);
}
