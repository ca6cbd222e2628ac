// Writing text in ASCII at the front of the lent bytes. The bytes after it stay as they were, and the answer is its length. Each function
// asks for the room that its text takes.
ghost use Rattle.std.specs.Prelude.{◌++◌, ◌+◌, ◌≤◌, length};
ghost use Rattle.texts.specs.Texts.{decimal};
ghost use Rattle.texts.specs.Writes.{TextPut};

// Bytes as they are.
pub fn put_bytes(out: &mut [u8], bytes: &[u8]) -> usize
    requires { length bytes.now ≤ length out.old }
    ensures { TextPut bytes.now result out.old out.new }
{
    out[..bytes.len()].copy_from_slice(bytes);
    bytes.len()
}

// The decimal digits of a number.
pub fn put_decimal(out: &mut [u8], n: usize) -> usize
    requires { length (decimal n) ≤ length out.old }
    ensures { TextPut (decimal n) result out.old out.new }
{
    if n < 10 {
        out[0] = 48 + n as u8;
        return 1;
    }
    let at = put_decimal(out, n / 10);
    out[at] = 48 + (n % 10) as u8;
    at + 1
}

// A word, and the decimal digits of a number after it.
pub fn put_number(out: &mut [u8], word: &[u8], n: usize) -> usize
    requires { length word.now + length (decimal n) ≤ length out.old }
    ensures { TextPut (word.now ++ decimal n) result out.old out.new }
{
    let at = put_bytes(out, word);
    at + put_decimal(&mut out[at..], n)
}
