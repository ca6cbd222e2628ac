// Whether one thing of a network is within the limits of document 01: its counts, its margins, a weight or a threshold, a gate's signal.
#![tactic(auto)]

ghost use Rattle.std.specs.Prelude.{◌≡◌, ◌&&◌, not};
ghost use Rattle.network.specs.Limits.{in_scale, is_zero, board_ok, gate_signal};
ghost use Rattle.network.specs.RecordTests.{counts_ok};

use network::Board;

// Whether the three counts are within the limits.
pub fn counts_sound(inputs: usize, gates: usize, outputs: usize) -> bool
    ensures { result ≡ counts_ok inputs gates outputs }
{
    (1..=40).contains(&inputs) & (1..=128).contains(&gates) & (1..=16).contains(&outputs)
}

// Whether the margins are such as the version can say.
pub fn board_sound(board: Board) -> bool
    ensures { result ≡ board_ok board }
{
    match board.version {
        1 => (board.on == 0) & (board.off == 1),
        2 => 1 <= board.off,
        _ => false,
    }
}

// The scale: the size of the greatest weight or threshold.
const SCALE: u32 = 1000000;

// Whether a weight or a threshold is within the scale.
pub fn in_scale(z: i32) -> bool
    ensures { result ≡ in_scale z }
{
    z.unsigned_abs() <= SCALE
}

// Whether a weight or a threshold is 0.
pub fn is_zero(z: i32) -> bool
    ensures { result ≡ is_zero z }
{
    z == 0
}

// Whether a weight is within the scale and not 0.
pub fn weight_sound(z: i32) -> bool
    ensures { result ≡ in_scale z && not (is_zero z) }
{
    in_scale(z) & (z != 0)
}

// Whether a signal is that of one of so many gates.
pub fn is_gate(inputs: usize, gates: usize, signal: usize) -> bool
    ensures { result ≡ gate_signal inputs gates signal }
{
    inputs <= signal && signal - inputs < gates
}
