ghost use Rattle.std.specs.Prelude.{◌≡◌, true, nat_le, Some, None, if◌then◌else◌};
ghost use Rattle.std.specs.List.{list_all};
ghost use Rattle.std.specs.Char.{is_ascii_digit};
ghost use Rattle.std.specs.Str.Parse.{digits_value};
ghost use Rattle.zone_outside.specs.Numbers.{number_of, is_number};

/// Whether each byte is a decimal digit.
fn all_digits(word: &[u8]) -> bool
    ensures { result ≡ list_all is_ascii_digit word.now }
{
    word.iter().all(|byte| byte.is_ascii_digit())
}

/// Whether these are decimal digits without a leading zero, but `0` itself.
fn is_spelled(word: &[u8]) -> bool
    ensures { result ≡ is_number word.now }
{
    match word {
        [] => false,
        [b'0', _, ..] => false,
        _ => all_digits(word),
    }
}

/// What digits are worth, if that is at most `most`.
fn value_up_to(digits: &[u8], most: u64) -> Option<u64>
    requires { list_all is_ascii_digit digits.now ≡ true }
    ensures { result ≡ (if nat_le (digits_value 10 digits.now) most then Some (digits_value 10 digits.now) else None) }
{
    let mut value = 0u64;
    for byte in digits {
        let digit = u64::from(*byte - b'0');
        if value > most / 10 || digit > most - value * 10 {
            return None;
        }
        value = value * 10 + digit;
    }
    Some(value)
}

/// The number that a word spells in decimal digits without a leading zero, but `0` itself. None where
/// it isn't spelled so, or is above `most`.
pub fn read_number(word: &[u8], most: u64) -> Option<u64>
    ensures { result ≡ number_of most word.now }
{
    if is_spelled(word) {
        value_up_to(word, most)
    } else {
        None
    }
}
