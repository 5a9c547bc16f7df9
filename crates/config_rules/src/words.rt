ghost use Rattle.std.specs.Prelude.{◌≡◌, ◌+◌, ◌<◌, ◌==◌, length, map, is_some, IfSome, IsTrue, ◌≤◌};
ghost use Rattle.std.specs.Option.{option_copied, option_map};
ghost use Rattle.std.specs.List.{find, position, prefix_len};
ghost use Rattle.config_rules.specs.Words.{arguments_of, behind_first, cut, declared_by, declared_in, first_of, has_block, has_called, host_of, inner_of, is_called, is_name_byte, is_same_name, line_of, name_of, parameter, parameter_name, value_of};
ghost use Rattle.config_rules.specs.Views.{declared_now};

use directive_text::Directive;
use zone_outside::Text;

/// The first word, or no bytes where there is none.
pub fn first_of(words: &[Text]) -> &[u8]
    ensures { result.now ≡ first_of words.now }
{
    match words {
        [] => &[],
        [word, ..] => word.bytes(),
    }
}

/// The words behind the first.
pub fn behind_first(words: &[Text]) -> &[Text]
    ensures { result.now ≡ behind_first words.now }
{
    match words {
        [] => &[],
        [_, later @ ..] => later,
    }
}

/// A directive's name: its first word.
pub fn name_of(directive: &Directive) -> &[u8]
    ensures { result.now ≡ name_of directive.now }
{
    first_of(directive.words.as_slice())
}

/// A directive's arguments: the words behind its name.
pub fn arguments_of(directive: &Directive) -> &[Text]
    ensures { result.now ≡ arguments_of directive.now }
{
    behind_first(directive.words.as_slice())
}

/// Whether a directive has a block.
pub fn has_block(directive: &Directive) -> bool
    ensures { result ≡ has_block directive.now }
{
    directive.block.is_some()
}

/// The directives of a directive's block.
pub fn inner_of(directive: &Directive) -> &[Directive]
    ensures { result.now ≡ inner_of directive.now }
{
    match &directive.block {
        Some(block) => block.as_slice(),
        None => &[],
    }
}

/// Whether a directive has this name.
pub fn is_called(name: &[u8], directive: &Directive) -> bool
    ensures { result ≡ is_called name.now directive.now }
{
    name_of(directive) == name
}

/// Whether a block has a directive of this name.
pub fn has_called(name: &[u8], block: &[Directive]) -> bool
    ensures { result ≡ has_called name.now block.now }
{
    block.iter().any(|directive| is_called(name, directive))
}

/// What stands in a word behind this prefix, if it begins so.
pub fn value_of<'a>(prefix: &[u8], word: &'a [u8]) -> Option<&'a [u8]>
    ensures { option_copied result ≡ value_of prefix.now word.now }
{
    if word.starts_with(prefix) {
        Some(&word[prefix.len()..])
    } else {
        None
    }
}

/// The first argument that begins with this prefix.
fn word_with<'a>(prefix: &[u8], words: &'a [Text]) -> Option<&'a Text>
    ensures { option_copied result ≡ find (λ w. is_some (value_of prefix.now w)) words.now }
{
    words
        .iter()
        .find(|word| value_of(prefix, word.bytes()).is_some())
}

/// The value of the first argument that begins with this prefix.
pub fn parameter<'a>(prefix: &[u8], words: &'a [Text]) -> Option<&'a [u8]>
    ensures { option_copied result ≡ parameter prefix.now words.now }
{
    match word_with(prefix, words) {
        Some(word) => value_of(prefix, word.bytes()),
        None => None,
    }
}

/// A zone as a directive declares it.
#[derive(Clone, Copy)]
pub struct Declaration<'a> {
    /// Its name.
    pub name: &'a [u8],
    /// Its size.
    pub size: &'a [u8],
}

/// The place of the first colon.
fn colon_of(word: &[u8]) -> Option<usize>
    ensures value { result ≡ position (λ b. b == 58) word.now }
    ensures within { IfSome result (λ i. i < length word.now) }
{
    word.iter().position(|byte| *byte == b':')
}

/// NAME:SIZE, cut at the first colon.
pub fn cut(word: &[u8]) -> Option<Declaration<'_>>
    ensures { option_map declared_now result ≡ cut word.now }
{
    match colon_of(word) {
        Some(colon) => Some(Declaration {
            name: &word[..colon],
            size: &word[colon + 1..],
        }),
        None => None,
    }
}

/// `zone=NAME:SIZE`
pub fn declared_in(word: &[u8]) -> Option<Declaration<'_>>
    ensures { option_map declared_now result ≡ declared_in word.now }
{
    match value_of(b"zone=", word) {
        Some(value) => cut(value),
        None => None,
    }
}

/// The first argument that declares a zone.
fn declaring_word(words: &[Text]) -> Option<&Text>
    ensures { option_copied result ≡ find (λ w. is_some (declared_in w)) words.now }
{
    words
        .iter()
        .find(|word| declared_in(word.bytes()).is_some())
}

/// The first argument that is `zone=NAME:SIZE`.
pub fn declared_by(words: &[Text]) -> Option<Declaration<'_>>
    ensures { option_map declared_now result ≡ declared_by words.now }
{
    match declaring_word(words) {
        Some(word) => declared_in(word.bytes()),
        None => None,
    }
}

/// Whether two words differ at most in the case of ASCII letters.
pub fn is_same_name(left: &[u8], right: &[u8]) -> bool
    ensures { result ≡ is_same_name left.now right.now }
{
    left.eq_ignore_ascii_case(right)
}

/// How many bytes stand before the first `=`.
fn name_len(word: &[u8]) -> usize
    ensures value { result ≡ prefix_len is_name_byte word.now }
    ensures within { result ≤ length word.now }
{
    word.iter().take_while(|byte| **byte != b'=').count()
}

/// A parameter's name: a word up to its first `=`.
pub fn parameter_name(word: &[u8]) -> &[u8]
    ensures { result.now ≡ parameter_name word.now }
{
    &word[..name_len(word)]
}
