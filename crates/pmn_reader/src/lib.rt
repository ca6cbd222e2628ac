// The PMN file: reading it into a record, and the bytes of one gate.
#![tactic(auto)]

ghost use Rattle.std.specs.Prelude.{◌≡◌};
ghost use Rattle.basics.specs.Refusals.{code_of};
ghost use Rattle.pmn_format.specs.Part.{part_answer, as_part};
ghost use Rattle.pmn_reader.specs.Answers.{loaded};

use network::{Network, blank};
use pmn_part::unchecked::gate_bytes;
use unchecked::{find_gate, read_network};

// What `read` answers: 0 or the refusal, and the network; the blank record on refusal.
#[derive(Clone, Copy)]
pub struct Loaded {
    pub code: u8,
    pub network: Network,
}

// The network of a file, or the first refusal and the blank record.
pub fn read(file: &[u8]) -> Loaded
    ensures { result ≡ loaded file.now }
{
    let mut loaded = Loaded {
        code: 0,
        network: blank(),
    };
    if let Err(refusal) = read_network(file, &mut loaded.network) {
        loaded.code = refusal.number();
    }
    loaded
}

// The number of the refusal that `gate_part` gives for the same file and signal, or 0.
pub fn gate_part_code(file: &[u8], signal: usize) -> u8
    ensures { result ≡ code_of (part_answer file.now signal) }
{
    match find_gate(file, signal) {
        Ok(_) => 0,
        Err(refusal) => refusal.number(),
    }
}

// The bytes of the gate with a signal, as a part of the file; the empty part where the file is refused or no gate has the signal.
pub fn gate_part(file: &[u8], signal: usize) -> &[u8]
    ensures { result.now ≡ as_part (part_answer file.now signal) }
{
    match find_gate(file, signal) {
        Ok(g) => gate_bytes(file, g),
        Err(_) => &file[..0],
    }
}

mod unchecked;
