ghost use Rattle.std.specs.Prelude.{◌≡◌, ◌≤◌, length};
ghost use Rattle.zone_key.specs.Word.{key_word, little_endian};

use crate::key::Key;

/// The number of at most eight bytes, the lowest first.
fn number_in(bytes: &[u8]) -> u64
    requires { length bytes.now ≤ 8 }
    ensures { result ≡ little_endian bytes.now }
{
    let mut number = 0;
    for k in (0..bytes.len()).rev() {
        number = number * 256 + u64::from(bytes[k]);
    }
    number
}

/// The bytes 8i to 8i + 7 of a key in one word, the lowest byte first, with 0 for bytes past the end.
pub fn word_of(key: &Key, i: u64) -> u64
    ensures { result ≡ key_word key.now i }
{
    let bytes = key.bytes();
    let words = bytes.len() as u64 / 8;
    if i > words {
        return 0;
    }
    let rest = &bytes[8 * i as usize..];
    if rest.len() > 8 {
        number_in(&rest[..8])
    } else {
        number_in(rest)
    }
}
