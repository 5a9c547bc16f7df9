ghost use Rattle.std.specs.Prelude.{◌≡◌, ◌<◌, ◌==◌, ◌&&◌, not, length, IfOk, MatchOption, Err};
ghost use Rattle.std.specs.Ordering.{nat_cmp};
ghost use Rattle.std.specs.List.{list_all};
ghost use Rattle.std.specs.Cmp.Lexicographic.{slice_cmp};
ghost use Rattle.std.specs.BTreeMap.{get_by};
ghost use Rattle.zone_outside.specs.Coded.{decoded, is_plain};
ghost use Rattle.zone_outside.specs.Numbers.{is_empty};
ghost use Rattle.zone_key.specs.Expr.{is_name_byte};
ghost use Rattle.zone_key.specs.Printing.{is_other_name};
ghost use Rattle.replay_log.specs.Words.{address_kind, address_of, at_location, level_of, named_pair, octets_of, pair_of, ended};
ghost use Rattle.replay_log.specs.Reading.{Tells, CutsNumber, CutsWord, words_left};

use crate::cut::{cut_near, place_of};
use crate::fault::LineFault;
use crate::numbers::cut_number;
use std::alloc::Global;
use std::collections::BTreeMap;
use zone_key::Pair;
use zone_outside::{DecodeFault, Text, decode};

/// The last moment that a log may name, in ms.
pub(crate) const MOST_MOMENT: u64 = 4_398_046_511_103;

/// The first of the words that are left of a line, and those behind it.
pub(crate) fn next_word(words: Option<&[u8]>) -> Option<(&[u8], Option<&[u8]>)>
    ensures { CutsWord result words.entry }
{
    let rest = words?;
    match cut_near(rest, b' ') {
        Some((word, behind)) => Some((word, Some(behind))),
        None => Some((rest, None)),
    }
}

/// What a line says that is at its end after these words.
pub(crate) fn at_end<T: Drop>(said: T, words: Option<&[u8]>) -> Result<T, LineFault>
    ensures { Tells (ended said (words_left words.entry)) result }
{
    match next_word(words) {
        Some(_) => Err(LineFault::Kind(10)),
        None => Ok(said),
    }
}

/// Whether each byte of a word stands for itself in coded text.
pub(crate) fn are_plain(word: &[u8]) -> bool
    ensures { result ≡ list_all (λ c. is_plain c && not (c == 37)) word.now }
{
    word.iter()
        .all(|byte| *byte >= 0x21 && *byte <= 0x7e && *byte != b'%')
}

/// The level of the location of a name.
fn level_called(numbers: &BTreeMap<&[u8], u32>, name: &[u8]) -> Result<Option<u32>, LineFault>
    ensures { Tells (at_location (get_by (λ k. slice_cmp nat_cmp name.now k.now) numbers.now)) result }
{
    match numbers.get(name) {
        Some(number) => Ok(Some(*number)),
        None => Err(LineFault::Kind(5)),
    }
}

/// The level that a word names: none for `-`, which is the server, or the number of a location.
pub(crate) fn read_level(
    alloc: Global,
    numbers: &BTreeMap<&[u8], u32>,
    word: &[u8],
) -> Result<Option<u32>, LineFault>
    ensures { Tells (level_of (λ name. get_by (λ k. slice_cmp nat_cmp name k.now) numbers.now) word.now) result }
{
    if word == b"-".as_slice() {
        return Ok(None);
    }
    if word.is_empty() {
        return Err(LineFault::Kind(5));
    }
    if are_plain(word) {
        return level_called(numbers, word);
    }
    match decode(alloc, word) {
        Ok(name) => level_called(numbers, name.as_slice()),
        Err(DecodeFault::Badly) => Err(LineFault::Kind(5)),
        Err(DecodeFault::NoMemory) => Err(LineFault::NoMemory),
    }
}

/// The kind of a word that is no address.
fn address_kind(word: &[u8]) -> u32
    ensures { result ≡ address_kind word.now }
{
    if word.contains(&b':') { 7 } else { 6 }
}

/// The number of an address that a word starts with, and what stands behind its dot.
fn octet(word: &[u8]) -> Option<(u8, Option<&[u8]>)>
    ensures { CutsNumber 46 255 word.now result }
{
    let (number, rest) = cut_number(word, b'.', 255)?;
    Some((number as u8, rest))
}

/// The four numbers of an address.
fn octets(word: &[u8]) -> Option<[u8; 4]>
    ensures { result ≡ octets_of word.now }
{
    let (first, rest) = octet(word)?;
    let (second, rest) = octet(rest?)?;
    let (third, rest) = octet(rest?)?;
    let (fourth, rest) = octet(rest?)?;
    match rest {
        Some(_) => None,
        None => Some([first, second, third, fourth]),
    }
}

/// The address that a word is.
pub(crate) fn read_address(word: &[u8]) -> Result<[u8; 4], LineFault>
    ensures { Tells (address_of word.now) result }
{
    match octets(word) {
        Some(address) => Ok(address),
        None => Err(LineFault::Kind(address_kind(word))),
    }
}

/// A word's name and its coded value, before and behind its first `=`.
pub(crate) fn cut_pair(word: &[u8]) -> Option<(&[u8], &[u8])>
    ensures { MatchOption result (pair_of word.now ≡ Err 8) (λ pair. pair_of word.now ≡ named_pair pair.0.now (decoded pair.1.now)) }
{
    let at = place_of(word, b'=')?;
    Some((&word[..at], &word[at + 1..]))
}

/// Whether each byte is a letter, a digit or `_`.
fn are_name_bytes(name: &[u8]) -> bool
    ensures { result ≡ list_all is_name_byte name.now }
{
    name.iter()
        .all(|byte| byte.is_ascii_alphanumeric() || *byte == b'_')
}

/// Whether these are letters, digits and `_`, at least one.
fn is_name(name: &[u8]) -> bool
    ensures { result ≡ (not (is_empty name.now) && list_all is_name_byte name.now) }
{
    match name {
        [] => false,
        _ => are_name_bytes(name),
    }
}

/// Whether this is the name of a variable, but for the two of the address.
fn is_other_name(name: &[u8]) -> bool
    ensures { result ≡ is_other_name name.now }
{
    if name == b"remote_addr".as_slice() {
        return false;
    }
    if name == b"binary_remote_addr".as_slice() {
        return false;
    }
    is_name(name)
}

/// The variable of a name with its coded value.
pub(crate) fn read_pair(alloc: Global, name: &[u8], coded: &[u8]) -> Result<Pair, LineFault>
    ensures value { Tells (named_pair name.now (decoded coded.now)) result }
    ensures name { IfOk result (λ pair. pair.name ≡ name.now) }
{
    match decode(alloc, coded) {
        Ok(value) => {
            if !is_other_name(name) {
                return Err(LineFault::Kind(8));
            }
            let name = Text::of(alloc, name)?;
            Ok(Pair {
                name,
                value: Text::from_vec(value),
            })
        }
        Err(DecodeFault::Badly) => Err(LineFault::Kind(8)),
        Err(DecodeFault::NoMemory) => Err(LineFault::NoMemory),
    }
}
