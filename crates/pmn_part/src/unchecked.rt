// The bytes of one gate in its file, found by the file's own count bytes.
ghost use Rattle.std.specs.Prelude.{◌≡◌};
ghost use Rattle.pmn_format.proofs.PartLaws.{start_by, GateFile};
ghost use Rattle.pmn_part.specs.Parts.{part_by};

use pmn_format::header_length;

// Where gate g starts.
#[tactic(auto, using(pmn_format::proofs::PartLaws::start_by_none, pmn_format::proofs::PartLaws::start_by_more, pmn_format::proofs::PartLaws::start_within))]
fn gate_start(file: &[u8], g: usize) -> usize
    requires { GateFile file.now g }
    ensures { result ≡ start_by file.now g }
{
    let mut at = header_length(file[3]);
    for _ in 0..g {
        at += 5 + 5 * usize::from(file[at]);
    }
    at
}

// The bytes of gate g, as a part of the file.
#[tactic(auto, using(pmn_format::proofs::PartLaws::start_within))]
pub fn gate_bytes(file: &[u8], g: usize) -> &[u8]
    requires { GateFile file.now g }
    ensures { result.now ≡ part_by file.now g }
{
    let at = gate_start(file, g);
    let end = at + (5 + 5 * usize::from(file[at]));
    &file[at..end]
}
