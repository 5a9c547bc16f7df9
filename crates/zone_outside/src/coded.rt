ghost use Rattle.std.specs.Prelude.{◌≡◌, ◌+◌, ◌*◌, ◌<◌, [], ◌∷◌, length, if◌then◌else◌, MatchOption, Some, None};
ghost use Rattle.std.specs.Char.{digit_value};
ghost use Rattle.zone_outside.specs.Coded.{after, are_hex, decoded};
ghost use Rattle.zone_outside.specs.Decoding.{Decodes};
ghost use Rattle.zone_outside.specs.declared.coded.DecodeFault.TheVariants.{NoMemory};

use std::alloc::{AllocError, AllocFailed, Global};
use thiserror::Error;

/// Why coded text gives no bytes.
#[derive(Clone, Copy, Debug, PartialEq, Eq, Error)]
pub enum DecodeFault {
    /// It isn't coded text.
    #[error("the text is not coded as it should be")]
    Badly,
    /// There was no memory for the bytes.
    #[error("no memory for the bytes")]
    NoMemory,
}

impl From<AllocError> for DecodeFault {
    ghost from_gives = { λ _ e. e ≡ NoMemory };

    fn from(_error: AllocError) -> DecodeFault {
        DecodeFault::NoMemory
    }
}

impl<T: Drop> From<AllocFailed<T>> for DecodeFault {
    ghost from_gives = { λ _ e. e ≡ NoMemory };

    fn from(_error: AllocFailed<T>) -> DecodeFault {
        DecodeFault::NoMemory
    }
}

/// The value of two hexadecimal digits of either case.
fn hex_byte(high: u8, low: u8) -> Option<u8>
    ensures { result ≡ (if are_hex high low then Some (digit_value high * 16 + digit_value low) else None) }
{
    let high = char::from(high).to_digit(16)?;
    let low = char::from(low).to_digit(16)?;
    Some((high * 16 + low) as u8)
}

/// The first byte that coded text spells, and the text after it.
fn first_byte(text: &[u8]) -> Option<(u8, &[u8])>
    requires { 0 < length text.now }
    ensures { MatchOption result (decoded text.now ≡ None) (λ first. (decoded text.now ≡ after (first.0 ∷ []) (decoded first.1.now)) × (length first.1.now < length text.now)) }
{
    if text[0] != b'%' {
        if text[0] < 0x21 || text[0] > 0x7e {
            return None;
        }
        return Some((text[0], &text[1..]));
    }
    if text.len() < 3 {
        return None;
    }
    let byte = hex_byte(text[1], text[2])?;
    Some((byte, &text[3..]))
}

/// The bytes that coded text spells: `%` and two hexadecimal digits of either case stand for one byte,
/// each other byte from 0x21 to 0x7e for itself. `Badly` where it has anything else.
pub fn decode(alloc: Global, text: &[u8]) -> Result<Vec<u8>, DecodeFault>
    ensures { Decodes result text.now }
{
    let mut bytes = Vec::with_capacity(alloc, text.len())?;
    let mut rest = text;
    while !rest.is_empty() {
        let Some((byte, tail)) = first_byte(rest) else {
            return Err(DecodeFault::Badly);
        };
        bytes.push(byte)?;
        rest = tail;
    }
    Ok(bytes)
}
