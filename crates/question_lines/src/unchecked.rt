// The lines of the question as plain data, each made from the networks' records.
ghost use Rattle.std.specs.Prelude.{◌≡◌, true, ◌+◌, ◌*◌, ◌≤◌, ◌<◌, get_or};
ghost use Rattle.network.specs.Record.{gate_in, net_of, sound_record};
ghost use Rattle.question_theory.specs.Question.{upper, lower, second_variable, over_gate, last_line, question};
ghost use Rattle.question_theory.specs.Text.{no_line};
ghost use Rattle.question_terms.specs.Terms.{RecordOfLine, InLimits};
ghost use Rattle.question_lines.specs.Lines.{gate_line, output_line, Comparable, lines_of};

use network::{GateRecord, Network};
use question_terms::LineRecord;
use question_terms::unchecked::{
    feed_terms, no_terms, sum_of, three_terms, variable_of, with_term,
};

// The upper line of a gate with output y.
fn upper_line(gate: GateRecord, inputs: usize, shift: usize, y: usize) -> LineRecord
    requires { InLimits gate × (shift ≤ 128) }
    ensures { RecordOfLine result (upper y (over_gate (second_variable inputs shift) (gate_in gate))) }
{
    let threshold = gate.threshold;
    let feeds = feed_terms(gate, inputs, shift, true, 1 - threshold);
    with_term(feeds, y, sum_of(gate, true) - threshold + 1)
}

// The lower line of a gate with output y.
fn lower_line(gate: GateRecord, inputs: usize, shift: usize, y: usize) -> LineRecord
    requires { InLimits gate × (shift ≤ 128) }
    ensures { RecordOfLine result (lower y (over_gate (second_variable inputs shift) (gate_in gate))) }
{
    let threshold = gate.threshold;
    let least = sum_of(gate, false);
    let feeds = feed_terms(gate, inputs, shift, false, least);
    with_term(feeds, y, least - threshold)
}

// Line i of those of a network's gates, before which shift others come.
fn gate_line(network: Network, shift: usize, i: usize) -> LineRecord
    requires { (sound_record network ≡ true) × (shift ≤ 128) × (i < 2 * network.gates) }
    ensures { RecordOfLine result (gate_line (net_of network) shift i) }
{
    let inputs = network.inputs;
    let g = i / 2;
    let y = inputs + shift + g;
    let gate = network_places::unchecked::gate_at(&network, g);
    if i % 2 == 0 {
        return upper_line(gate, inputs, shift, y);
    }
    lower_line(gate, inputs, shift, y)
}

// Line i of those of the outputs.
fn output_line(first: Network, second: Network, i: usize) -> LineRecord
    requires { Comparable first second × (i < 2 * first.outputs) }
    ensures { RecordOfLine result (output_line (net_of first) (net_of second) i) }
{
    let j = i / 2;
    let p = usize::from(first.drivers[j]);
    let q = variable_of(first.inputs, first.gates, usize::from(second.drivers[j]));
    let d = first.inputs + first.gates + second.gates + j;
    if i % 2 == 0 {
        return three_terms(p, q, d, 1, 0);
    }
    three_terms(p, q, d, -1, -2)
}

// The last line: each of count variables from d on.
fn last_line(d: usize, count: usize) -> LineRecord
    requires { (count ≤ 16) × (d + count < 1000) }
    ensures { RecordOfLine result (last_line d count) }
{
    let mut line = no_terms(1);
    for j in 0..count {
        line = with_term(line, d + j, 1);
    }
    line
}

// Line i of those after the header.
pub fn question_line(first: Network, second: Network, i: usize) -> LineRecord
    requires { Comparable first second × (i < lines_of (net_of first) (net_of second)) }
    ensures { RecordOfLine result (get_or (question (net_of first) (net_of second)) i no_line) }
{
    let first_end = 2 * first.gates;
    let second_end = first_end + 2 * second.gates;
    let outputs_end = second_end + 2 * first.outputs;
    if i < first_end {
        return gate_line(first, 0, i);
    }
    if i < second_end {
        return gate_line(second, first.gates, i - first_end);
    }
    if i < outputs_end {
        return output_line(first, second, i - second_end);
    }
    last_line(first.inputs + first.gates + second.gates, first.outputs)
}
