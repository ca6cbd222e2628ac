// The terms of a line of the question as plain data, one after the other, and what a gate gives to them.
ghost use Rattle.std.specs.Prelude.{◌≡◌, cond, ◌+◌, ◌≤◌, ◌<◌, nat_abs, neg_ℤ};
ghost use Rattle.network.specs.Record.{gate_in};
ghost use Rattle.network.specs.Limits.{scale};
ghost use Rattle.question_theory.specs.Question.{term, second_variable};
ghost use Rattle.question_terms.specs.Terms.{line_in, RecordOfLine, Extendable, no_terms, extended, feed_terms, one_sided, InLimits, three_terms};

use crate::{LineRecord, Term};
use network::GateRecord;

// A line without terms.
pub fn no_terms(right: i32) -> LineRecord
    ensures { RecordOfLine result (no_terms right) }
{
    let none = Term {
        variable: 0,
        coefficient: 0,
    };
    LineRecord {
        count: 0,
        terms: [none; 17],
        right,
    }
}

// A line with one term more.
pub fn with_term(mut line: LineRecord, variable: usize, coefficient: i32) -> LineRecord
    requires { Extendable line }
    ensures { RecordOfLine result (extended (line_in line) (term variable coefficient)) }
{
    line.terms[line.count] = Term {
        variable,
        coefficient,
    };
    line.count += 1;
    line
}

// The variable of a signal of a network, before whose gates shift others come.
pub fn variable_of(inputs: usize, shift: usize, signal: usize) -> usize
    requires { signal + shift < 1000 }
    ensures { result ≡ second_variable inputs shift signal }
{
    if signal < inputs {
        signal
    } else {
        signal + shift
    }
}

// A weight, or minus the weight.
fn signed(negative: bool, weight: i32) -> i32
    requires { nat_abs weight ≤ scale }
    ensures { result ≡ cond negative (neg_ℤ weight) weight }
{
    if negative { 0 - weight } else { weight }
}

// The feeds of a gate as terms, each with its weight or with minus its weight, and a right side.
pub fn feed_terms(
    gate: GateRecord,
    inputs: usize,
    shift: usize,
    negative: bool,
    right: i32,
) -> LineRecord
    requires { InLimits gate × (shift ≤ 128) }
    ensures { RecordOfLine result (feed_terms negative (second_variable inputs shift) (gate_in gate) right) }
{
    let mut line = no_terms(right);
    for i in 0..usize::from(gate.fanin) {
        let variable = variable_of(inputs, shift, usize::from(gate.signals[i]));
        let coefficient = signed(negative, gate.weights[i]);
        line = with_term(line, variable, coefficient);
    }
    line
}

// The sum of a gate's weights that are 0 or more, where above, or else of those below 0.
pub fn sum_of(gate: GateRecord, above: bool) -> i32
    requires { InLimits gate }
    ensures { result ≡ one_sided above (gate_in gate).feeds }
{
    let mut sum = 0;
    for i in 0..usize::from(gate.fanin) {
        let weight = gate.weights[i];
        if (0 <= weight) == above {
            sum += weight;
        }
    }
    sum
}

// A line of three terms: p and q with one coefficient, and minus d.
pub fn three_terms(p: usize, q: usize, d: usize, coefficient: i32, right: i32) -> LineRecord
    ensures { RecordOfLine result (three_terms p q d coefficient right) }
{
    let one = with_term(no_terms(right), p, coefficient);
    let two = with_term(one, q, coefficient);
    with_term(two, d, -1)
}
