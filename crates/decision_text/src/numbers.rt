ghost use Rattle.std.specs.Prelude.{◌≡◌, ◌++◌, OnOk, decimal};
ghost use Rattle.decision_text.specs.Amounts.{thousandths};
ghost use Rattle.decision_text.specs.HistoryText.{with_number};

use itoa::write_digits;
use std::alloc::AllocError;

/// Room for the digits of any number.
const ROOM: usize = 20;

/// Adds the decimal digits of a number.
#[tactic(auto, using(std::proofs::lemmas::Fmt::decimal_digit))]
pub fn push_number(text: &mut Vec<u8>, number: u64) -> Result<(), AllocError>
    ensures { OnOk result (text.new.items ≡ text.old.items ++ decimal number) }
{
    if number < 10 {
        text.push(b'0' + number as u8)?;
        return Ok(());
    }
    push_digits(text, number)
}

/// Adds the digits of a number by a copy of a fixed length, which is a few stores: all of the room is copied, and what is
/// behind the digits is cut off again.
fn push_digits(text: &mut Vec<u8>, number: u64) -> Result<(), AllocError>
    ensures { OnOk result (text.new.items ≡ text.old.items ++ decimal number) }
{
    let mut room = [0u8; 2 * ROOM];
    let start = write_digits(number, &mut room, ROOM);
    text.extend_from_slice(&room[start..start + ROOM])?;
    text.truncate(text.len() - start);
    Ok(())
}

/// Adds a word and a number behind it.
pub(crate) fn push_with<const N: usize>(
    text: &mut Vec<u8>,
    word: &[u8; N],
    number: u64,
) -> Result<(), AllocError>
    ensures { OnOk result (text.new.items ≡ text.old.items ++ with_number word.now number) }
{
    text.extend_from_slice(word)?;
    push_number(text, number)
}

/// Adds a number of thousandths: its whole part, a dot and three digits.
pub fn push_thousandths(text: &mut Vec<u8>, number: u64) -> Result<(), AllocError>
    ensures { OnOk result (text.new.items ≡ text.old.items ++ thousandths number) }
{
    push_number(text, number / 1000)?;
    let digits = [
        b'.',
        b'0' + (number / 100 % 10) as u8,
        b'0' + (number / 10 % 10) as u8,
        b'0' + (number % 10) as u8,
    ];
    text.extend_from_slice(&digits)
}
