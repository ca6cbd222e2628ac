// Writing the text of the question in ASCII, each part at the front of the lent bytes. The bytes after a part stay as they were, and
// the answer is the part's length.
ghost use Rattle.std.specs.Prelude.{map, ◌+◌, ◌≤◌, ◌<◌, length};
ghost use Rattle.texts.specs.Writes.{TextPut};
ghost use Rattle.question_theory.specs.Question.{term};
ghost use Rattle.question_theory.specs.Text.{coefficient, right_side, term_text, terms_text, relation_text, line_text, header_text};
ghost use Rattle.question_terms.specs.Terms.{term_in, line_in};
ghost use Rattle.question_writing.specs.Writes.{Printable, PrintableLine};

use basics::magnitude;
use question_terms::{LineRecord, Term};
use texts::unchecked::{put_bytes, put_decimal, put_number};

// A coefficient, with its sign.
fn put_coefficient(out: &mut [u8], z: i32) -> usize
    requires { length (coefficient z) ≤ length out.old }
    ensures { TextPut (coefficient z) result out.old out.new }
{
    let size = magnitude(z) as usize;
    if z < 0 {
        return put_number(out, b"-", size);
    }
    put_number(out, b"+", size)
}

// A right side, with a sign only below 0.
fn put_right(out: &mut [u8], z: i32) -> usize
    requires { length (right_side z) ≤ length out.old }
    ensures { TextPut (right_side z) result out.old out.new }
{
    let size = magnitude(z) as usize;
    if z < 0 {
        return put_number(out, b"-", size);
    }
    put_decimal(out, size)
}

// A coefficient on a variable, with a space after it.
fn put_term(out: &mut [u8], coefficient: i32, variable: usize) -> usize
    requires variable_bound { variable + 1 < 1000 }
    requires coefficient_in_bounds { length (term_text (term variable coefficient)) ≤ length out.old }
    ensures { TextPut (term_text (term variable coefficient)) result out.old out.new }
{
    let at = put_coefficient(out, coefficient);
    let end = at + put_number(&mut out[at..], b" x", variable + 1);
    out[end] = b' ';
    end + 1
}

// Terms, one after the other.
fn put_terms(out: &mut [u8], terms: &[Term]) -> usize
    requires printable { Printable (map term_in terms.now) (length out.old) }
    ensures { TextPut (terms_text (map term_in terms.now)) result out.old out.new }
{
    let mut at = 0;
    for term in terms {
        at += put_term(&mut out[at..], term.coefficient, term.variable);
    }
    at
}

// `>=`, the right side, `;` and a line feed.
fn put_relation(out: &mut [u8], right: i32) -> usize
    requires { length (relation_text right) ≤ length out.old }
    ensures { TextPut (relation_text right) result out.old out.new }
{
    let at = put_bytes(out, b">= ");
    let end = at + put_right(&mut out[at..], right);
    end + put_bytes(&mut out[end..], b" ;\n")
}

// A line: its terms, and its relation to the right side.
pub fn put_line(out: &mut [u8], line: LineRecord) -> usize
    requires printable_line { PrintableLine line }
    requires in_bounds { 254 ≤ length out.old }
    ensures { TextPut (line_text (line_in line)) result out.old out.new }
{
    let at = put_terms(out, &line.terms[..line.count]);
    at + put_relation(&mut out[at..], line.right)
}

// The header, with the number of variables and the number of lines after it.
pub fn put_header(out: &mut [u8], variables: usize, lines: usize) -> usize
    requires { length (header_text variables lines) ≤ length out.old }
    ensures { TextPut (header_text variables lines) result out.old out.new }
{
    let at = put_number(out, b"* #variable= ", variables);
    let end = at + put_number(&mut out[at..], b" #constraint= ", lines);
    out[end] = b'\n';
    end + 1
}
