ghost use Rattle.std.specs.Prelude.{◌≡◌, ◌++◌, OnOk};
ghost use Rattle.decision_text.specs.Hexadecimal.{hex_bytes, hex_word};

use std::alloc::{AllocError, Global};

/// The most bytes whose digits are made without memory of their own.
const SHORT: usize = 32;

/// Adds two lower-case hexadecimal digits for each byte, those of a few bytes by a copy of a fixed length, as `push_digits` does.
pub(crate) fn push_hex_bytes(
    alloc: Global,
    text: &mut Vec<u8>,
    bytes: &[u8],
) -> Result<(), AllocError>
    ensures { OnOk result (text.new.items ≡ text.old.items ++ hex_bytes bytes.now) }
{
    if bytes.len() > SHORT {
        let digits = hex::encode(alloc, bytes)?;
        return text.extend_from_slice(digits.as_bytes());
    }
    let mut digits = [0u8; 2 * SHORT];
    match hex::encode_to_slice(bytes, &mut digits[..2 * bytes.len()]) {
        Ok(()) => {}
        Err(_) => unreachable!(),
    }
    text.extend_from_slice(&digits)?;
    text.truncate(text.len() - 2 * (SHORT - bytes.len()));
    Ok(())
}

/// Adds a word in 16 lower-case hexadecimal digits.
pub(crate) fn push_hex_word(alloc: Global, text: &mut Vec<u8>, value: u64) -> Result<(), AllocError>
    ensures { OnOk result (text.new.items ≡ text.old.items ++ hex_word value) }
{
    push_hex_bytes(alloc, text, &value.to_be_bytes())
}
