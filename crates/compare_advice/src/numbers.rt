// Numbers that look random.

// Multipliers that spread a number's bits.
const LOW_SPREAD: u64 = 2654435769;

const HIGH_SPREAD: u64 = 2246822519;

// One more than the greatest number of 32 bits.
const HALF: u64 = 4294967296;

// The next of a row of numbers.
pub(crate) fn next_number(x: u64) -> u64 {
    let y = x ^ (x << 13);
    let z = y ^ (y >> 7);
    z ^ (z << 17)
}

// The low 32 bits.
pub(crate) fn low_half(x: u64) -> u32 {
    (x % HALF) as u32
}

// A mark with 32 bits more in it.
pub(crate) fn mixed(mark: u64, bits: u32) -> u64 {
    let x = mark ^ u64::from(bits);
    (LOW_SPREAD * (x % HALF)) ^ (HIGH_SPREAD * ((x >> 32) % HALF))
}

// Bits of one of eight densities, by two numbers: half of the bits are lit, or fewer, or more.
pub(crate) fn dense(kind: usize, x: u64, y: u64) -> u64 {
    let p = x;
    let q = x >> 32;
    let r = y;
    let s = y >> 32;
    match kind {
        0 | 1 => p,
        2 => p & q,
        3 => p | q,
        4 => p & q & r,
        5 => p | q | r,
        6 => p & q & r & s,
        _ => p | q | r | s,
    }
}
