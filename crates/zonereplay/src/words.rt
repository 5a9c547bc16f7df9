ghost use Rattle.std.specs.Prelude.{◌≡◌, ◌≤◌, ◌<◌, IfSome, MatchOption, Some, None};
ghost use Rattle.req_zone.specs.Amount.{IsRate, greatest_burst};
ghost use Rattle.zonereplay.specs.Words.{rate_of, burst_of, unit_of, size_of, workers_of, one_of, check_of, plain_of, image_of, made_of, replay_job, replay_of};
ghost use Rattle.zonereplay.specs.Words.Command.{one, check, plain, image, made, replay};
ghost use Rattle.zonereplay.specs.Jobs.{asked};

use crate::job::{Job, ReplayJob};
use zone_outside::{Text, read_number};

/// A rate `Nr/s` or `Nr/m` with N from 1 to 1,000,000, in thousandths of a request per second. None for any
/// other word.
pub fn read_rate(word: &[u8]) -> Option<u64>
    ensures value { result ≡ rate_of word.now }
    ensures limits { IfSome result IsRate }
{
    let (digits, unit) = word.split_at(word.len().saturating_sub(3));
    let requests = read_number(digits, 1_000_000).filter(|n| *n >= 1);
    match unit {
        b"r/s" => requests.map(|n| n * 1000),
        b"r/m" => requests.map(|n| n * 1000 / 60),
        _ => None,
    }
}

/// A burst of 0 to 1,000,000 requests, in thousandths of a request. None for any other word.
pub fn read_burst(word: &[u8]) -> Option<u64>
    ensures value { result ≡ burst_of word.now }
    ensures limits { IfSome result (λ burst. burst ≤ greatest_burst) }
{
    let requests = read_number(word, 1_000_000)?;
    Some(requests * 1000)
}

/// How many bytes the last letter of a size stands for, 1 where it is no such letter.
fn unit_bytes(letter: u8) -> u64
    ensures { result ≡ unit_of letter }
{
    match letter {
        b'k' | b'K' => 1024,
        b'm' | b'M' => 1_048_576,
        _ => 1,
    }
}

/// The size of a zone: a number of bytes, or of 1024 or 1,048,576 bytes by a last letter `k`, `K`, `m` or
/// `M`, from 32,768 to 67,108,864 bytes. None for any other word.
pub fn read_size(word: &[u8]) -> Option<u64>
    ensures value { result ≡ size_of word.now }
    ensures limits { IfSome result (λ bytes. (32768 ≤ bytes) × (bytes ≤ 67108864)) }
{
    let (last, front) = word.split_last()?;
    let unit = unit_bytes(*last);
    let number = read_number(if unit == 1 { word } else { front }, 67_108_864)?;
    let bytes = number * unit;
    (32_768..=67_108_864).contains(&bytes).then_some(bytes)
}

/// What the words `one RATE BURST SIZE LOG` ask for: the numbers and the log's name.
pub(crate) fn read_one(words: &[Text]) -> Option<(Job, &Text)>
    ensures { MatchOption result (one_of words.now ≡ None) (λ found. one_of words.now ≡ Some (one (asked found.0) found.1.now)) }
{
    let [command, rate, burst, size, log] = words else {
        return None;
    };
    if command.bytes() != b"one".as_slice() {
        return None;
    }
    let rate = read_rate(rate.bytes())?;
    let burst = read_burst(burst.bytes())?;
    let bytes = read_size(size.bytes())?;
    Some((Job { rate, burst, bytes }, log))
}

/// What the words `check CONFIG` ask for: the configuration's name.
pub(crate) fn read_check(words: &[Text]) -> Option<&Text>
    ensures { MatchOption result (check_of words.now ≡ None) (λ name. check_of words.now ≡ Some (check name.now)) }
{
    let [command, config] = words else {
        return None;
    };
    (command.bytes() == b"check".as_slice()).then_some(config)
}

/// What the words `plain CONFIG LOG` ask for: the names of the configuration and of the log.
pub(crate) fn read_plain(words: &[Text]) -> Option<(&Text, &Text)>
    ensures { MatchOption result (plain_of words.now ≡ None) (λ names. plain_of words.now ≡ Some (plain names.0.now names.1.now)) }
{
    let [command, config, log] = words else {
        return None;
    };
    (command.bytes() == b"plain".as_slice()).then_some((config, log))
}

/// What the words `image CONFIG LOG ZONE` ask for: the names of the configuration, of the log and of the zone.
pub(crate) fn read_image(words: &[Text]) -> Option<(&Text, &Text, &Text)>
    ensures { MatchOption result (image_of words.now ≡ None) (λ names. image_of words.now ≡ Some (image names.0.now names.1.now names.2.now)) }
{
    let [command, config, log, zone] = words else {
        return None;
    };
    (command.bytes() == b"image".as_slice()).then_some((config, log, zone))
}

/// What the words `made SEED LINES` ask for: a seed below 2^64, and how many lines are made of it, at most 131,072.
pub(crate) fn read_made(words: &[Text]) -> Option<(u64, u32)>
    ensures asked { MatchOption result (made_of words.now ≡ None) (λ numbers. made_of words.now ≡ Some (made numbers.0 numbers.1)) }
    ensures limits { IfSome result (λ numbers. numbers.1 ≤ 131072) }
{
    let [command, seed, lines] = words else {
        return None;
    };
    if command.bytes() != b"made".as_slice() {
        return None;
    }
    let seed = read_number(seed.bytes(), u64::MAX)?;
    let lines = read_number(lines.bytes(), 131_072)?;
    Some((seed, lines as u32))
}

/// A number of workers, from 1 to 16. None for any other word.
fn read_workers(word: &[u8]) -> Option<u32>
    ensures value { result ≡ workers_of word.now }
    ensures limits { IfSome result (λ workers. (0 < workers) × (workers ≤ 16)) }
{
    let workers = read_number(word, 16)?;
    (workers >= 1).then_some(workers as u32)
}

/// The job of so many workers, where their number can be read.
fn read_job<'a>(
    config: &'a Text,
    log: &'a Text,
    workers: &Text,
    words: bool,
) -> Option<(&'a Text, &'a Text, ReplayJob)>
    ensures { MatchOption result (replay_job config.now log.now (workers_of workers.now) words ≡ None) (λ found. replay_job config.now log.now (workers_of workers.now) words ≡ Some (replay found.0.now found.1.now found.2.workers found.2.words)) }
{
    let workers = read_workers(workers.bytes())?;
    Some((config, log, ReplayJob { workers, words }))
}

/// What the words `replay CONFIG LOG WORKERS` ask for, or the same with a further word `words`: the names of the configuration
/// and of the log, the workers, and whether the words of each zone are told.
pub(crate) fn read_replay(words: &[Text]) -> Option<(&Text, &Text, ReplayJob)>
    ensures { MatchOption result (replay_of words.now ≡ None) (λ found. replay_of words.now ≡ Some (replay found.0.now found.1.now found.2.workers found.2.words)) }
{
    match words {
        [command, config, log, workers] => {
            if command.bytes() != b"replay".as_slice() {
                return None;
            }
            read_job(config, log, workers, false)
        }
        [command, config, log, workers, more] => {
            if command.bytes() != b"replay".as_slice() || more.bytes() != b"words".as_slice() {
                return None;
            }
            read_job(config, log, workers, true)
        }
        _ => None,
    }
}
