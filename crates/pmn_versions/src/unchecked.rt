// A board and a record in the other version.
ghost use Rattle.std.specs.Prelude.{◌≡◌};
ghost use Rattle.pmn_versions.specs.Versions.{convertible, other_version};
ghost use Rattle.pmn_versions.specs.OtherRecord.{other_record};

use network::{Board, Network};

// Whether the other version can hold the margins.
#[tactic(auto, unfolding(crate::specs::Versions::convertible))]
pub fn is_convertible(board: Board) -> bool
    ensures { result ≡ convertible board }
{
    board.version == 1 || (board.on == 0 && board.off == 1)
}

// The board of the other version, with the same margins.
#[tactic(auto, unfolding(crate::specs::Versions::other_version))]
pub fn other_version(board: Board) -> Board
    ensures { result ≡ other_version board }
{
    Board {
        version: if board.version == 1 { 2 } else { 1 },
        on: board.on,
        off: board.off,
    }
}

// The record of the same network in the other version.
#[tactic(auto, unfolding(crate::specs::OtherRecord::other_record))]
pub fn in_other_version(mut network: Network) -> Network
    ensures { result ≡ other_record network }
{
    network.board = other_version(network.board);
    network
}
