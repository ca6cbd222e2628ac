// The question for two networks, a line at a time, as text for a pseudo-Boolean solver.
#![tactic(auto)]

ghost use Rattle.std.specs.Prelude.{◌≡◌, ◌≤◌, length};
ghost use Rattle.basics.specs.Refusals.{refused, stored};
ghost use Rattle.network.specs.Record.{net_of};
ghost use Rattle.texts.specs.Writes.{TextPut};
ghost use Rattle.question_theory.specs.Text.{question_text};
ghost use Rattle.question_theory.specs.Question.{alike};
ghost use Rattle.question_text.specs.Answers.{line_answer, as_line_written};
ghost use Rattle.question_lines.specs.Lines.{Comparable, LineInRange, lines_of};

use network::Network;

// What `line` answers: 0 or the refusal, and the line's length with its line feed.
#[derive(Clone, Copy)]
pub struct LineWritten {
    pub code: u8,
    pub length: usize,
}

// A refusal: its number, and no length.
fn refusal(code: u8) -> LineWritten
    ensures { result ≡ as_line_written (refused code) }
{
    LineWritten { code, length: 0 }
}

// Whether two networks have equal input and output counts.
#[tactic(auto, unfolding(question_theory::specs::Question::alike, network::specs::Record::net_of))]
fn are_alike(first: Network, second: Network) -> bool
    ensures { result ≡ alike (net_of first) (net_of second) }
{
    first.inputs == second.inputs && first.outputs == second.outputs
}

// How many lines follow the header.
fn line_count(first: Network, second: Network) -> usize
    requires { Comparable first second }
    ensures { result ≡ lines_of (net_of first) (net_of second) }
{
    2 * first.gates + 2 * second.gates + 2 * first.outputs + 1
}

// The text of line n at the front of the lent bytes. The answer is its length.
fn put_question(first: Network, second: Network, n: usize, out: &mut [u8]) -> usize
    requires line_in_range { LineInRange first second n }
    requires in_bounds { 254 ≤ length out.old }
    ensures { TextPut (question_text (net_of first) (net_of second) n) result out.old out.new }
{
    if n == 0 {
        let lines = line_count(first, second);
        let variables = first.inputs + first.gates + second.gates + first.outputs;
        return question_writing::unchecked::put_header(out, variables, lines);
    }
    let line = question_lines::unchecked::question_line(first, second, n - 1);
    question_writing::unchecked::put_line(out, line)
}

// Line n of two networks that can be asked about, or 18 where it is longer than the lent bytes.
fn write_line(first: Network, second: Network, n: usize, out: &mut [u8]) -> LineWritten
    requires { LineInRange first second n }
    ensures value { result ≡ as_line_written (line_answer first second n (length out.old)) }
    ensures out_after { out.new ≡ stored (line_answer first second n (length out.old)) out.old }
{
    let mut text = [0u8; 254];
    let length = put_question(first, second, n, &mut text);
    if out.len() < length {
        return refusal(18);
    }
    texts::unchecked::put_bytes(out, &text[..length]);
    LineWritten { code: 0, length }
}

// Writes line n of the question at the front of the lent bytes. The answer is its length, or the first that applies: 20 for a broken
// record, 19 for unlike networks, 21 where there is no such line, 18 where the line is longer than the lent bytes.
pub fn line(first: Network, second: Network, n: usize, out: &mut [u8]) -> LineWritten
    ensures value { result ≡ as_line_written (line_answer first second n (length out.old)) }
    ensures out_after { out.new ≡ stored (line_answer first second n (length out.old)) out.old }
{
    if !(network_soundness::is_sound(first) & network_soundness::is_sound(second)) {
        return refusal(20);
    }
    if !are_alike(first, second) {
        return refusal(19);
    }
    if line_count(first, second) < n {
        return refusal(21);
    }
    write_line(first, second, n, out)
}
