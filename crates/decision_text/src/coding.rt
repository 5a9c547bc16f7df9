ghost use Rattle.std.specs.Prelude.{◌≡◌, ◌++◌, ◌<◌, OnOk};
ghost use Rattle.decision_text.specs.Coding.{hex_digit, coded_byte, coded};

use std::alloc::AllocError;

/// The upper-case hexadecimal digit of a number below 16.
fn hex_digit(number: u8) -> u8
    requires { number < 16 }
    ensures { result ≡ hex_digit number }
{
    if number < 10 {
        b'0' + number
    } else {
        55 + number
    }
}

/// Adds a byte of a name.
fn push_byte(text: &mut Vec<u8>, byte: u8) -> Result<(), AllocError>
    ensures { OnOk result (text.new.items ≡ text.old.items ++ coded_byte byte) }
{
    if (0x21..=0x7e).contains(&byte) && byte != b'%' {
        text.push(byte)?;
        return Ok(());
    }
    text.extend_from_slice(&[b'%', hex_digit(byte / 16), hex_digit(byte % 16)])
}

/// Adds a name as it is printed: bytes from 0x21 to 0x7e but `%` stand for themselves, and each other byte is `%`
/// and two upper-case hexadecimal digits.
pub fn push_coded(text: &mut Vec<u8>, name: &[u8]) -> Result<(), AllocError>
    ensures { OnOk result (text.new.items ≡ text.old.items ++ coded name.now) }
{
    for byte in name {
        push_byte(text, *byte)?;
    }
    Ok(())
}
