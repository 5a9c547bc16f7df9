ghost use Rattle.std.specs.Prelude.{◌≡◌, ℕ, ◌≤◌, ◌<◌, ◌^◌, [], List, length, IfOk};
ghost use Rattle.std.specs.Ordering.{nat_cmp};
ghost use Rattle.std.specs.List.{All};
ghost use Rattle.std.specs.Cmp.Lexicographic.{slice_cmp};
ghost use Rattle.std.specs.BTreeMap.{get_by};
ghost use Rattle.replay_log.specs.Requests.{pairs_of, at_address, at_level, at_event, at_conn, request_line, requests_of};
ghost use Rattle.replay_log.specs.Limits.{IsLineOf};
ghost use Rattle.replay_log.specs.Reading.{Tells, GivesLines, words_left};

use crate::fault::{LineFault, LogFault};
use crate::line::{Event, Line};
use crate::lines::{LineForm, read_lines};
use crate::locations::numbers_of;
use crate::numbers::next_number;
use crate::words::{MOST_MOMENT, at_end, cut_pair, next_word, read_address, read_level, read_pair};
use sqlite_items::Items;
use std::alloc::Global;
use std::collections::BTreeMap;
use zone_config::Config;
use zone_key::{Pair, Vars};

/// The last connection that a log may name.
const MOST_CONN: u64 = 4_294_967_295;

/// The variables that the words behind an address give.
fn read_pairs(alloc: Global, words: Option<&[u8]>) -> Result<Items<Pair>, LineFault>
    ensures { Tells (pairs_of [] (words_left words.entry)) result }
{
    let mut pairs = Items::new(alloc);
    let mut names = BTreeMap::new(alloc);
    let mut left = words;
    'words: while let Some((word, behind)) = next_word(left) {
        let Some((name, coded)) = cut_pair(word) else {
            return Err(LineFault::Kind(8));
        };
        let pair = read_pair(alloc, name, coded)?;
        if names.insert(name, ())?.is_some() {
            return Err(LineFault::Kind(9));
        }
        pairs.push(pair)?;
        left = behind;
    }
    Ok(pairs)
}

/// What the words behind the level of an open say.
fn read_start(alloc: Global, level: Option<u32>, words: Option<&[u8]>) -> Result<Event, LineFault>
    ensures { Tells (at_address level (words_left words.entry)) result }
{
    let Some((word, words)) = next_word(words) else {
        return Err(LineFault::Kind(6));
    };
    let address = read_address(word)?;
    let pairs = read_pairs(alloc, words)?;
    Ok(Event::Start {
        level,
        vars: Vars { address, pairs },
    })
}

/// A log of requests, by the numbers of its locations.
#[derive(Drop)]
struct RequestForm<'a> {
    numbers: BTreeMap<&'a [u8], u32>,
}

/// What the words behind `open` say.
fn read_open(
    alloc: Global,
    numbers: &BTreeMap<&[u8], u32>,
    words: Option<&[u8]>,
) -> Result<Event, LineFault>
    ensures { Tells (at_level (λ name. get_by (λ k. slice_cmp nat_cmp name k.now) numbers.now) (words_left words.entry)) result }
{
    let Some((word, words)) = next_word(words) else {
        return Err(LineFault::Kind(5));
    };
    let level = read_level(alloc, numbers, word)?;
    read_start(alloc, level, words)
}

/// What the words behind a connection say, whatever they are.
fn read_any_event(
    alloc: Global,
    numbers: &BTreeMap<&[u8], u32>,
    words: Option<&[u8]>,
) -> Result<Event, LineFault>
    ensures { Tells (at_event (λ name. get_by (λ k. slice_cmp nat_cmp name k.now) numbers.now) (words_left words.entry)) result }
{
    let Some((word, words)) = next_word(words) else {
        return Err(LineFault::Kind(4));
    };
    match word {
        b"open" => read_open(alloc, numbers, words),
        b"fail" => at_end(Event::Fail, words),
        b"done" => at_end(Event::Done, words),
        _ => Err(LineFault::Kind(4)),
    }
}

/// What the words behind a connection say. A line without a fault goes the short way.
fn read_event(
    alloc: Global,
    numbers: &BTreeMap<&[u8], u32>,
    words: Option<&[u8]>,
) -> Result<Event, LineFault>
    ensures { Tells (at_event (λ name. get_by (λ k. slice_cmp nat_cmp name k.now) numbers.now) (words_left words.entry)) result }
{
    match words {
        Some([b'o', b'p', b'e', b'n', b' ', behind @ ..]) => {
            read_open(alloc, numbers, Some(behind))
        }
        Some(b"fail") => Ok(Event::Fail),
        Some(b"done") => Ok(Event::Done),
        _ => read_any_event(alloc, numbers, words),
    }
}

/// What the words behind a moment say.
fn read_conn(
    alloc: Global,
    numbers: &BTreeMap<&[u8], u32>,
    number: u32,
    moment: u64,
    words: Option<&[u8]>,
) -> Result<Line, LineFault>
    ensures { Tells (at_conn (λ name. get_by (λ k. slice_cmp nat_cmp name k.now) numbers.now) number moment (words_left words.entry)) result }
{
    let Some((conn, words)) = next_number(words, MOST_CONN) else {
        return Err(LineFault::Kind(3));
    };
    let event = read_event(alloc, numbers, words)?;
    Ok(Line {
        number,
        moment,
        conn: conn as u32,
        event,
    })
}

impl LineForm for RequestForm<'_> {
    type Line = Line;

    ghost says = { λ form. request_line (λ name. get_by (λ k. slice_cmp nat_cmp name k.now) form.numbers) };

    fn read(&self, alloc: Global, number: u32, line: &[u8]) -> Result<Line, LineFault> {
        match next_number(Some(line), MOST_MOMENT) {
            Some((moment, words)) => read_conn(alloc, &self.numbers, number, moment, words),
            None => Err(LineFault::Kind(2)),
        }
    }
}

/// The requests of a log, a line each: `MOMENT CONN open LOCATION ADDRESS NAME=VALUE ..`, `MOMENT CONN fail` or
/// `MOMENT CONN done`, with one space between words. A location is named in coded text, and `-` is the server;
/// values are coded too. It goes over the text once; a location is looked up among the others' names, and a
/// variable's name among those of its line, in the logarithm of their number.
///
/// `LogFault::At` comes exactly where a line is faulty: with the number of the first one, from 1, and the kind of
/// its first faulty word from the left. `LogFault::NoMemory` comes where there is no memory for the lines.
pub fn read_log(alloc: Global, text: &[u8], config: &Config) -> Result<Vec<Line>, LogFault>
    requires { length config.now.locations ≤ 64 }
    ensures value { GivesLines (requests_of config.now.locations text.now) result }
    ensures limits { IfOk result (λ lines. All (IsLineOf (length config.now.locations)) lines.items) }
    ensures few { IfOk result (λ lines. length lines.items ≤ 131072) }
{
    let numbers = numbers_of(alloc, config.locations.as_slice())?;
    let form = RequestForm { numbers };
    read_lines(alloc, text, &form)
}
