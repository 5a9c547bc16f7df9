ghost use Rattle.std.specs.Prelude.{◌≡◌, ◌≤◌, true, false, length, take, IfSome, MatchOption};
ghost use Rattle.std.specs.List.{list_all};
ghost use Rattle.std.specs.Char.{is_ascii_digit};
ghost use Rattle.std.specs.Str.Parse.{digits_value};
ghost use Rattle.zone_outside.specs.Numbers.{is_number};
ghost use Rattle.replay_log.specs.Reading.{CutsNumber, NextNumber, StartsNumber};

use crate::cut::cut_near;
use zone_outside::read_number;

/// A value that has room for one digit more in a `u64`.
const ROOMY: u64 = 1_000_000_000_000_000_000;

/// The value of the digits at the front of a text, and how many they are. It may stop behind the 19th.
fn front_digits(text: &[u8]) -> (u64, usize)
    ensures within { result.1 ≤ length text.now }
    ensures digits { list_all is_ascii_digit (take result.1 text.now) ≡ true }
    ensures value { result.0 ≡ digits_value 10 (take result.1 text.now) }
{
    let mut value = 0u64;
    let mut count = 0usize;
    while value < ROOMY && count < text.len() && text[count].is_ascii_digit() {
        value = value * 10 + u64::from(text[count] - b'0');
        count += 1;
    }
    (value, count)
}

/// Whether digits have no leading zero, but `0` itself.
fn are_spelled(digits: &[u8]) -> bool
    requires { list_all is_ascii_digit digits.now ≡ true }
    ensures { result ≡ is_number digits.now }
{
    match digits {
        [] => false,
        [b'0', _, ..] => false,
        _ => true,
    }
}

/// The number up to `most` before the first separator of a text, and what stands behind that. It looks at each digit once,
/// and may give none where there are more than 19.
fn cut_digits(text: &[u8], separator: u8, most: u64) -> Option<(u64, Option<&[u8]>)>
    requires { is_ascii_digit separator ≡ false }
    ensures { IfSome result (StartsNumber separator most text.now) }
{
    let (value, count) = front_digits(text);
    if value > most || !are_spelled(&text[..count]) {
        return None;
    }
    if count == text.len() {
        return Some((value, None));
    }
    if text[count] == separator {
        return Some((value, Some(&text[count + 1..])));
    }
    None
}

/// The number up to `most` before the first separator of a text, and what stands behind that. None where what stands
/// there is no such number.
pub(crate) fn cut_number(text: &[u8], separator: u8, most: u64) -> Option<(u64, Option<&[u8]>)>
    requires { is_ascii_digit separator ≡ false }
    ensures { CutsNumber separator most text.now result }
{
    if let Some(found) = cut_digits(text, separator, most) {
        return Some(found);
    }
    match cut_near(text, separator) {
        Some((word, behind)) => Some((read_number(word, most)?, Some(behind))),
        None => Some((read_number(text, most)?, None)),
    }
}

/// The number up to `most` that the first of the words that are left of a line spells, and the words behind it.
pub(crate) fn next_number(words: Option<&[u8]>, most: u64) -> Option<(u64, Option<&[u8]>)>
    ensures { NextNumber most words.entry result }
{
    cut_number(words?, b' ', most)
}
