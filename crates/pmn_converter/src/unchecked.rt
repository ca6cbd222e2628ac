// Converting a record. The function asks for what its caller has tested.
ghost use Rattle.std.specs.Prelude.{◌≡◌, true, length};
ghost use Rattle.basics.specs.Refusals.{stored};
ghost use Rattle.network.specs.Record.{net_of, sound_record};
ghost use Rattle.pmn_converter.specs.Conversion.{conversion, as_converted};

use crate::Converted;
use network::Network;
use pmn_versions::unchecked::{in_other_version, is_convertible};
use pmn_writer::unchecked::write_sound;

// The file of a sound record's network in the other version, put at the front of the lent bytes.
pub fn convert_sound(network: Network, out: &mut [u8]) -> Converted
    requires { sound_record network ≡ true }
    ensures value { result ≡ as_converted (conversion (net_of network) (length out.old)) }
    ensures out_after { out.new ≡ stored (conversion (net_of network) (length out.old)) out.old }
{
    let board = network.board;
    if !is_convertible(board) {
        return Converted {
            code: 25,
            length: 0,
        };
    }
    let other = in_other_version(network);
    let written = write_sound(&other, out);
    Converted {
        code: written.code,
        length: written.length,
    }
}
