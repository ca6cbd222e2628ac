// The PMN file: writing a record as a file.
#![tactic(auto)]

ghost use Rattle.std.specs.Prelude.{◌≡◌, length};
ghost use Rattle.pmn_writer.specs.Answers.{written, bytes_after};

use network::Network;

// What `write` answers: 0 or the refusal, and the file's length.
#[derive(Clone, Copy)]
pub struct Written {
    pub code: u8,
    pub length: usize,
}

// Writes the file of a record at the front of the lent bytes. The answer is the file's length, or 20 for a broken record, or 18 where
// the file is longer than the lent bytes.
pub fn write(network: Network, out: &mut [u8]) -> Written
    ensures value { result ≡ written network (length out.old) }
    ensures out_after { out.new ≡ bytes_after network out.old }
{
    if network_soundness::is_sound(network) {
        unchecked::write_sound(&network, out)
    } else {
        Written {
            code: 20,
            length: 0,
        }
    }
}

pub mod unchecked;
