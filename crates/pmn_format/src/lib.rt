// The PMN file, versions 1 and 2, as a list of bytes: definitions and their laws, in specs/. The code reads single fields, and knows lengths.
#![tactic(auto)]

pub mod unchecked;

ghost use Rattle.std.specs.Prelude.{◌≡◌, cond, eqb};

// Fewer bytes are no PMN file.
pub const SHORTEST_FILE: usize = 8;

// No file is longer: `longest_file`.
pub const LONGEST_FILE: usize = 10906;

// Where the gates begin in a file of a version, which is the length of its header: `header_length`.
pub fn header_length(version: u8) -> usize
    ensures { result ≡ cond (eqb version 2) 10 8 }
{
    if version == 2 {
        return 10;
    }
    8
}
