ghost use Rattle.std.specs.Prelude.{◌≡◌, ◌++◌, ◌==◌, ◌||◌, OnOk};
ghost use Rattle.directive_text.specs.Bytes.{is_blank, is_quote, may_follow, ends_plain, unescaped};

use zone_outside::NoMemory;

/// Whether a byte is white space.
#[tactic(auto, unfolding(crate::specs::Bytes::is_blank))]
pub(crate) fn is_blank(byte: u8) -> bool
    ensures { result ≡ is_blank byte }
{
    matches!(byte, b' ' | b'\t' | b'\r' | b'\n')
}

/// Whether a byte is a double or a single quote.
#[tactic(auto, unfolding(crate::specs::Bytes::is_quote))]
pub(crate) fn is_quote(byte: u8) -> bool
    ensures { result ≡ is_quote byte }
{
    byte == b'"' || byte == b'\''
}

/// Whether a byte may follow a closing quote.
#[tactic(auto, unfolding(crate::specs::Bytes::may_follow))]
pub(crate) fn may_follow(byte: u8) -> bool
    ensures { result ≡ may_follow byte }
{
    is_blank(byte) || matches!(byte, b';' | b'{' | b')')
}

/// Whether a byte ends a plain word, behind a `$` that makes it keep a `{` or not.
#[tactic(auto, unfolding(crate::specs::Bytes::ends_plain))]
pub(crate) fn ends_plain(dollar: bool, byte: u8) -> bool
    ensures { result ≡ ends_plain dollar byte }
{
    is_blank(byte) || byte == b';' || (byte == b'{' && !dollar)
}

/// Puts the value of a backslash and a byte at the end of a word.
#[tactic(auto, unfolding(crate::specs::Bytes::unescaped))]
pub(crate) fn push_unescaped(word: &mut Vec<u8>, byte: u8) -> Result<(), NoMemory>
    ensures { OnOk result (word.new.items ≡ word.old.items ++ unescaped byte) }
{
    let value = match byte {
        b'"' | b'\'' | b'\\' => byte,
        b't' => b'\t',
        b'r' => b'\r',
        b'n' => b'\n',
        _ => {
            word.push(b'\\')?;
            byte
        }
    };
    word.push(value)?;
    Ok(())
}

/// Whether a `{` behind this byte of a plain word belongs to the word.
pub(crate) fn keeps_brace(byte: u8) -> bool
    ensures { result ≡ (byte == 36 || byte == 123) }
{
    byte == b'$' || byte == b'{'
}
