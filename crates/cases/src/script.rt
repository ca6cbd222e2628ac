// The bytes and the numbers of a script, which is a text of lines. A number is a word after a space.
// A byte of the script; past its end, a new line.
pub(crate) fn byte_at(script: &[u8], at: usize) -> u8 {
    if script.len() <= at {
        return b'\n';
    }
    script[at]
}

// The next place.
pub(crate) fn after(at: usize) -> usize {
    std::num::wrapping_add_usize(at, 1)
}

// The first place from one on that holds a byte, or the end of the script.
pub(crate) fn find(script: &[u8], from: usize, byte: u8) -> usize {
    for at in from..script.len() {
        if script[at] == byte {
            return at;
        }
    }
    from.max(script.len())
}

// Whether a byte is a digit.
pub(crate) fn is_digit(byte: u8) -> bool {
    byte.is_ascii_digit()
}

// A number with one more digit, whose last four bits are its value; a number that is too long goes round. Other bytes change nothing.
fn with_digit(number: usize, byte: u8) -> usize {
    if !is_digit(byte) {
        return number;
    }
    std::num::wrapping_add_usize(10 * (number % 1844674407370955162), usize::from(byte % 16))
}

// A number of the script, and the place after it.
#[derive(Clone, Copy)]
pub(crate) struct Number {
    pub(crate) value: usize,
    pub(crate) end: usize,
}

// The first word after a space from a place on, as a number without sign.
pub(crate) fn number_from(script: &[u8], from: usize) -> Number {
    let mut value: usize = 0;
    let mut at = find(script, from, b' ');
    while at < script.len() {
        at = at + 1;
        let byte = byte_at(script, at);
        if (byte == b' ') | (byte == b'\n') {
            return Number { value, end: at };
        }
        value = with_digit(value, byte);
    }
    Number { value, end: at }
}

// The same with its sign. A number that is too large for a weight's 32 bits goes round.
pub(crate) fn signed_from(script: &[u8], from: usize) -> i32 {
    let space = find(script, from, b' ');
    let size = (number_from(script, space).value % 2147483648) as i32;
    if byte_at(script, after(space)) == b'-' {
        return 0 - size;
    }
    size
}

// The numbers of a line from a place on, up to eight; those that it does not give are the largest that there is.
pub(crate) fn numbers_from(script: &[u8], from: usize) -> [usize; 8] {
    let mut numbers = [18446744073709551615usize; 8];
    let end = find(script, from, b'\n');
    let mut at = find(script, from, b' ');
    for n in numbers.iter_mut() {
        if end <= at {
            return numbers;
        }
        let number = number_from(script, at);
        *n = number.value;
        at = number.end;
    }
    numbers
}
