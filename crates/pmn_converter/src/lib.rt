// Converting a file into the other version: document 02, No. 8.
#![tactic(auto)]

pub mod files;

ghost use Rattle.std.specs.Prelude.{◌≡◌, length};
ghost use Rattle.basics.specs.Refusals.{stored};
ghost use Rattle.pmn_converter.specs.Conversion.{conversion_of, as_converted};
ghost use Rattle.pmn_converter.specs.Claims.{ThereAndBack};

use pmn_opening::unchecked::refusal;
use unchecked::convert_sound;

// What `convert` answers: 0 or the refusal, and the length of the new file.
#[derive(Clone, Copy)]
pub struct Converted {
    pub code: u8,
    pub length: usize,
}

// The same network in the other version, put at the front of the lent bytes. Refusals: as read, 25 for margins that version 1 can't hold,
// 18 where the new file is longer than the lent bytes.
pub fn convert(file: &[u8], out: &mut [u8]) -> Converted
    ensures value { result ≡ as_converted (conversion_of file.now (length out.old)) }
    ensures out_after { out.new ≡ stored (conversion_of file.now (length out.old)) out.old }
{
    let read = pmn_reader::read(file);
    let code = refusal(file, read, 0, 0);
    if code != 0 {
        return Converted { code, length: 0 };
    }
    convert_sound(read.network, out)
}

// A file that was converted is given back, byte for byte, where it is converted again.
pub fn there_and_back()
    ensures { ThereAndBack }
{}

mod unchecked;
