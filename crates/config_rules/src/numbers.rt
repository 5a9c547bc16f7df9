ghost use Rattle.std.specs.Prelude.{◌≡◌, ◌*◌, ◌+◌, ◌-◌, ◌<◌, ◌≤◌, false, is_some, length, take};
ghost use Rattle.std.specs.Option.{option_and_then, option_map_or};
ghost use Rattle.std.specs.List.{list_all};
ghost use Rattle.std.specs.Char.{is_ascii_digit};
ghost use Rattle.config_rules.specs.Numbers.{counting, digits_of, is_digits, is_number_in, last_byte, number_in, rate_of, scaled_number, size_of, size_parts, time_of, time_parts, up_to, zone_size};
ghost use Rattle.config_rules.specs.Rules.{is_large, is_small};
ghost use Rattle.config_rules.specs.Views.{scaled_now};

use zone_outside::read_number;

/// The least bytes of a zone.
pub const MIN_ZONE_BYTES: u64 = 32_768;

/// The most bytes of a zone.
pub const MAX_ZONE_BYTES: u64 = 67_108_864;

/// The most bytes of all zones together.
pub const MAX_ALL_BYTES: u64 = 268_435_456;

/// The longest time, in seconds: a year.
pub const MAX_SECONDS: u64 = 31_536_000;

/// The number that digits spell, of those up to `most`. Leading zeros are accepted.
pub fn digits_of(most: u64, word: &[u8]) -> Option<u64>
    ensures { result ≡ digits_of most word.now }
{
    let mut digits = word;
    'zeros: while let [b'0', rest @ ..] = digits {
        if rest.is_empty() {
            break;
        }
        digits = rest;
    }
    read_number(digits, most)
}

/// The number that digits spell, of those from `low` to `most`.
pub fn number_in(low: u64, most: u64, word: &[u8]) -> Option<u64>
    ensures { result ≡ number_in low most word.now }
{
    match digits_of(most, word) {
        Some(number) => if low <= number { Some(number) } else { None },
        None => None,
    }
}

/// Whether digits spell a number from `low` to `most`.
pub fn is_number_in(low: u64, most: u64, word: &[u8]) -> bool
    ensures { result ≡ is_number_in low most word.now }
{
    number_in(low, most, word).is_some()
}

/// Whether each byte is a decimal digit.
fn all_digits(word: &[u8]) -> bool
    ensures { result ≡ list_all is_ascii_digit word.now }
{
    word.iter().all(|byte| byte.is_ascii_digit())
}

/// Whether there is a digit, and nothing else.
fn is_digits(word: &[u8]) -> bool
    ensures { result ≡ is_digits word.now }
{
    match word {
        [] => false,
        _ => all_digits(word),
    }
}

/// Digits, and what one of what they count is worth.
#[derive(Clone, Copy)]
pub struct Counted<'a> {
    /// The digits.
    pub digits: &'a [u8],
    /// What one is worth.
    pub unit: u64,
}

/// The last byte of a word, 0 where there is none.
fn last_byte(word: &[u8]) -> u8
    ensures { result ≡ last_byte word.now }
{
    if word.is_empty() {
        0
    } else {
        word[word.len() - 1]
    }
}

/// A word without its last byte, which has this worth.
fn counting(unit: u64, word: &[u8]) -> Counted<'_>
    ensures value { scaled_now result ≡ counting unit word.now }
    ensures unit { result.unit ≡ unit }
{
    Counted {
        digits: &word[..word.len().saturating_sub(1)],
        unit,
    }
}

/// The parts of a size in bytes.
fn size_parts(word: &[u8]) -> Counted<'_>
    ensures value { scaled_now result ≡ size_parts word.now }
    ensures unit { 0 < result.unit }
{
    let last = last_byte(word);
    if last == b'k' || last == b'K' {
        counting(1024, word)
    } else if last == b'm' || last == b'M' {
        counting(1_048_576, word)
    } else {
        Counted {
            digits: word,
            unit: 1,
        }
    }
}

/// What scaled digits say, if they are digits and say at most `most`.
fn scaled_up_to(most: u64, parts: &Counted<'_>) -> Option<u64>
    requires { 0 < parts.now.unit }
    ensures { result ≡ option_and_then (up_to most) (scaled_number (scaled_now parts.now)) }
{
    match digits_of(most / parts.unit, parts.digits) {
        Some(number) => Some(number * parts.unit),
        None => None,
    }
}

/// Whether a word is a size.
pub fn is_size(word: &[u8]) -> bool
    ensures { result ≡ is_some (size_of word.now) }
{
    is_digits(size_parts(word).digits)
}

/// The bytes that a size says, where it is one and says at most so many as a zone may have.
pub fn zone_size(word: &[u8]) -> Option<u64>
    ensures { result ≡ zone_size word.now }
{
    scaled_up_to(MAX_ZONE_BYTES, &size_parts(word))
}

/// Whether a word is a size below the least of a zone.
pub fn is_small_size(word: &[u8]) -> bool
    ensures { result ≡ option_map_or is_small (size_of word.now) false }
{
    match zone_size(word) {
        Some(bytes) => bytes < MIN_ZONE_BYTES,
        None => false,
    }
}

/// Whether a word is a size that is too large behind so many bytes.
pub fn is_large_size(earlier: u64, word: &[u8]) -> bool
    ensures { result ≡ option_map_or (is_large earlier) (size_of word.now) false }
{
    match zone_size(word) {
        Some(bytes) => earlier > MAX_ALL_BYTES || bytes > MAX_ALL_BYTES - earlier,
        None => is_size(word),
    }
}

/// The number in front of a rate's unit, which takes three bytes.
fn rate_number(word: &[u8]) -> Option<u64>
    requires { 3 ≤ length word.now }
    ensures { result ≡ number_in 1 1000000 (take (length word.now - 3) word.now) }
{
    number_in(1, 1_000_000, &word[..word.len() - 3])
}

/// A rate in thousandths of a request a second: `Nr/s` or `Nr/m`, with N from 1 to 1,000,000.
pub fn rate_of(word: &[u8]) -> Option<u64>
    ensures { result ≡ rate_of word.now }
{
    if word.ends_with(b"r/s") {
        match rate_number(word) {
            Some(number) => Some(number * 1000),
            None => None,
        }
    } else if word.ends_with(b"r/m") {
        match rate_number(word) {
            Some(number) => Some(number * 1000 / 60),
            None => None,
        }
    } else {
        None
    }
}

/// The parts of a time in seconds.
fn time_parts(word: &[u8]) -> Counted<'_>
    ensures value { scaled_now result ≡ time_parts word.now }
    ensures unit { 0 < result.unit }
{
    match last_byte(word) {
        b's' => counting(1, word),
        b'm' => counting(60, word),
        b'h' => counting(3600, word),
        b'd' => counting(86_400, word),
        _ => Counted {
            digits: word,
            unit: 1,
        },
    }
}

/// The seconds that a time says, of those up to a year.
pub fn time_of(word: &[u8]) -> Option<u64>
    ensures { result ≡ time_of word.now }
{
    scaled_up_to(MAX_SECONDS, &time_parts(word))
}
