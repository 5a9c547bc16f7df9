ghost use Rattle.std.specs.Prelude.{◌≡◌, ◌<◌, ◌≤◌, length, IfOk};
ghost use Rattle.std.specs.List.{All};
ghost use Rattle.replay_log.specs.Keys.{key_of, at_key, key_line, keys_of};
ghost use Rattle.replay_log.specs.Limits.{IsKeyLine};
ghost use Rattle.replay_log.specs.Reading.{Tells, GivesLines, words_left};
ghost use Rattle.replay_log.specs.Next.{GivesNext};

use crate::fault::{LineFault, LogFault};
use crate::lines::{LineForm, next_line, read_lines};
use crate::numbers::next_number;
use crate::words::{MOST_MOMENT, are_plain, at_end, next_word};
use std::alloc::Global;
use zone_key::Key;
use zone_outside::{DecodeFault, decode};

/// A line of a log of keys.
#[derive(Debug, Drop)]
pub struct KeyLine {
    /// When the key is checked, in ms, below 2^42.
    pub moment: u64,
    /// The decoded key, of one byte or more.
    pub key: Key,
}

/// A log of keys.
#[derive(Drop)]
struct KeyForm;

/// The key that a word spells in coded text.
fn read_key(alloc: Global, word: &[u8]) -> Result<Key, LineFault>
    ensures { Tells (key_of word.now) result }
{
    match decode(alloc, word) {
        Ok(bytes) => {
            if bytes.is_empty() {
                return Err(LineFault::Kind(12));
            }
            Ok(Key::from_vec(bytes))
        }
        Err(DecodeFault::Badly) => Err(LineFault::Kind(12)),
        Err(DecodeFault::NoMemory) => Err(LineFault::NoMemory),
    }
}

/// What the words behind a moment say, whatever they are.
fn read_any_key(alloc: Global, moment: u64, words: Option<&[u8]>) -> Result<KeyLine, LineFault>
    ensures { Tells (at_key moment (words_left words.entry)) result }
{
    let Some((word, words)) = next_word(words) else {
        return Err(LineFault::Kind(12));
    };
    let key = read_key(alloc, word)?;
    at_end(KeyLine { moment, key }, words)
}

/// What the words behind a moment say. Plain bytes up to the line's end are the key as they stand.
fn read_checked(alloc: Global, moment: u64, words: Option<&[u8]>) -> Result<KeyLine, LineFault>
    ensures { Tells (at_key moment (words_left words.entry)) result }
{
    match words {
        Some(rest) if !rest.is_empty() && are_plain(rest) => {
            let key = Key::of(alloc, rest)?;
            Ok(KeyLine { moment, key })
        }
        _ => read_any_key(alloc, moment, words),
    }
}

impl LineForm for KeyForm {
    type Line = KeyLine;

    ghost says = { λ _. key_line };

    fn read(&self, alloc: Global, _number: u32, line: &[u8]) -> Result<KeyLine, LineFault> {
        match next_number(Some(line), MOST_MOMENT) {
            Some((moment, words)) => read_checked(alloc, moment, words),
            None => Err(LineFault::Kind(2)),
        }
    }
}

/// The keys of a log, a line each: `MOMENT KEY`, with one space between them. The key is coded text of one byte or more.
/// It goes over the text once.
///
/// `LogFault::At` comes exactly where a line is faulty: with the number of the first one, from 1, and the kind of
/// its first faulty word from the left. `LogFault::NoMemory` comes where there is no memory for the lines.
pub fn read_keys(alloc: Global, text: &[u8]) -> Result<Vec<KeyLine>, LogFault>
    ensures value { GivesLines (keys_of text.now) result }
    ensures limits { IfOk result (λ lines. All IsKeyLine lines.items) }
    ensures few { IfOk result (λ lines. length lines.items ≤ 131072) }
{
    read_lines(alloc, text, &KeyForm)
}

/// The first key of what is left of a log of keys, whose line has this number in the log, and what is left behind it. So a
/// log can be gone over with one key at a time in memory. The faults are those of `read_keys`.
pub fn next_key(alloc: Global, number: u32, rest: &[u8]) -> Result<(KeyLine, &[u8]), LogFault>
    requires { 0 < length rest.now }
    ensures value { GivesNext key_line number rest.now result }
    ensures limits { IfOk result (λ next. IsKeyLine next.0) }
{
    next_line(alloc, number, rest, &KeyForm)
}
