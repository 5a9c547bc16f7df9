ghost use Rattle.std.specs.Prelude.{◌≡◌, ◌==◌, ◌<◌, [], ◌∷◌, length, IfSome, MatchOption};
ghost use Rattle.std.specs.List.{position};
ghost use Rattle.replay_log.specs.Lines.{parts};

use memchr::memchr;

/// What stands before the first such byte of a text and what stands after it. None where it has none. It is quick
/// where that byte is far away.
pub(crate) fn cut(text: &[u8], separator: u8) -> Option<(&[u8], &[u8])>
    ensures { MatchOption result (parts separator text.now ≡ text.now ∷ []) (λ halves. (parts separator text.now ≡ halves.0.now ∷ parts separator halves.1.now) × (length halves.1.now < length text.now)) }
{
    let at = memchr(separator, text)?;
    Some((&text[..at], &text[at + 1..]))
}

/// Where the first such byte of a text stands.
pub(crate) fn place_of(text: &[u8], separator: u8) -> Option<usize>
    ensures value { result ≡ position (λ c. c == separator) text.now }
    ensures within { IfSome result (λ at. at < length text.now) }
{
    text.iter().position(|byte| *byte == separator)
}

/// The same as `cut`. It is quick where that byte is near, as it is behind a word.
pub(crate) fn cut_near(text: &[u8], separator: u8) -> Option<(&[u8], &[u8])>
    ensures { MatchOption result (parts separator text.now ≡ text.now ∷ []) (λ halves. (parts separator text.now ≡ halves.0.now ∷ parts separator halves.1.now) × (length halves.1.now < length text.now)) }
{
    let at = place_of(text, separator)?;
    Some((&text[..at], &text[at + 1..]))
}
