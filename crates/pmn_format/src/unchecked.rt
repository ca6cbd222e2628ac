// The fields of a file, each read from the front of the bytes that are left: its value, and the bytes after it.
ghost use Rattle.std.specs.Prelude.{◌≡◌};
ghost use Rattle.pmn_format.specs.Answered.{as_read};
ghost use Rattle.pmn_format.specs.Format.{done, byte_then, int_then};

use refusals::Refusal;

// A field of one byte.
#[tactic(auto, unfolding(refusals::specs::Numbers::number_of))]
pub fn next_byte(rest: &[u8]) -> Result<(u8, &[u8]), Refusal>
    ensures { as_read result ≡ byte_then rest.now done }
{
    let (byte, rest) = rest.split_first().ok_or(Refusal::CutShort)?;
    Ok((*byte, rest))
}

// A signed field of four bytes.
#[tactic(auto, unfolding(refusals::specs::Numbers::number_of))]
pub fn next_int(rest: &[u8]) -> Result<(i32, &[u8]), Refusal>
    ensures { as_read result ≡ int_then rest.now done }
{
    let (bytes, rest) = rest.split_first_chunk::<4>().ok_or(Refusal::CutShort)?;
    Ok((i32::from_le_bytes(*bytes), rest))
}
