// Reading a file into a lent record, which is blank: the header, then the gates, the outputs, and the end; and finding one gate of a file. After a
// refusal of `read_network` the record is blank again; after one of a part it holds what was read up to there.
ghost use Rattle.std.specs.Prelude.{◌≡◌, [], ◌≤◌, length, MatchResult, OnErr};
ghost use Rattle.refusals.specs.Numbers.{number_of};
ghost use Rattle.basics.specs.Refusals.{refused};
ghost use Rattle.network.specs.Record.{layout, blank_record};
ghost use Rattle.pmn_format.specs.Format.{parse_file, parse_gates, parse_outputs};
ghost use Rattle.pmn_format.specs.Answered.{as_left, mapped};
ghost use Rattle.pmn_format.specs.Part.{part_answer};
ghost use Rattle.pmn_header.specs.HeadAnswers.{HeaderInside, body_after};
ghost use Rattle.pmn_reader.specs.ReadAnswers.{as_whole, gates_record, PartAt};

use network::{Network, blank};
use network_limits::is_gate;
use network_places::unchecked::store_gate;
use pmn_format::unchecked::next_byte;
use pmn_gate::unchecked::read_gate;
use pmn_header::Head;
use pmn_header::unchecked::read_head;
use refusals::Refusal;

// The gates of a network with this header, as its record, which has no outputs.
fn read_gates<'a>(bytes: &'a [u8], head: Head, network: &mut Network) -> Result<&'a [u8], Refusal>
    requires { HeaderInside head × (network.old ≡ blank_record) }
    ensures { as_left network.new result ≡ mapped (gates_record head.board head.inputs) (parse_gates head.board head.inputs head.gates [] bytes.now) }
{
    network.board = head.board;
    network.inputs = head.inputs;
    network.gates = head.gates;
    let mut rest = bytes;
    for g in 0..head.gates {
        let (gate, after) = read_gate(rest, head.inputs + g, head.board)?;
        store_gate(network, g, gate);
        rest = after;
    }
    Ok(rest)
}

// The outputs of a network with this header, as many as there are places for them: each is the signal of one of the gates.
fn read_outputs<'a>(bytes: &'a [u8], head: Head, drivers: &mut [u8]) -> Result<&'a [u8], Refusal>
    ensures { as_left drivers.new result ≡ parse_outputs head.inputs head.gates (length drivers.old) [] bytes.now }
{
    let mut rest = bytes;
    for driver in drivers {
        let (signal, after) = next_byte(rest)?;
        if !is_gate(head.inputs, head.gates, usize::from(signal)) {
            return Err(Refusal::StrayOutput);
        }
        *driver = signal;
        rest = after;
    }
    Ok(rest)
}

// What follows the header of a file. It has a frame of its own.
#[inline(never)]
fn read_body(bytes: &[u8], head: Head, network: &mut Network) -> Result<(), Refusal>
    requires { HeaderInside head × (network.old ≡ blank_record) }
    ensures { as_whole network.new result ≡ mapped layout (body_after head bytes.now) }
{
    let rest = read_gates(bytes, head, network)?;
    let rest = read_outputs(rest, head, &mut network.drivers[..head.outputs])?;
    if !rest.is_empty() {
        return Err(Refusal::Tail);
    }
    network.outputs = head.outputs;
    Ok(())
}

// The network of a file.
pub fn read_network(file: &[u8], network: &mut Network) -> Result<(), Refusal>
    requires { network.old ≡ blank_record }
    ensures whole { as_whole network.new result ≡ mapped layout (parse_file file.now) }
    ensures blank { OnErr result (network.new ≡ blank_record) }
{
    let (head, rest) = read_head(file)?;
    if let Err(refusal) = read_body(rest, head, network) {
        *network = blank();
        return Err(refusal);
    }
    Ok(())
}

// The gate of a file's network that has a signal: its number among the gates.
pub fn find_gate(file: &[u8], signal: usize) -> Result<usize, Refusal>
    ensures { MatchResult result (λ g. PartAt file.now signal g) (λ e. part_answer file.now signal ≡ refused (number_of e)) }
{
    let mut network = blank();
    read_network(file, &mut network)?;
    if !is_gate(network.inputs, network.gates, signal) {
        return Err(Refusal::NoSuchGate);
    }
    Ok(signal - network.inputs)
}
