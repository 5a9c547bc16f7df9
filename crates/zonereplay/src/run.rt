ghost use Rattle.std.specs.Prelude.{◌≡◌, ◌⊎◌, map, None};
ghost use Rattle.zonereplay.specs.Words.{command_of};
ghost use Rattle.zonereplay.specs.Plan.{plan_of};
ghost use Rattle.zonereplay.specs.Answers.{Does};

use crate::commands::{
    check_command, image_command, made_command, one_command, plain_command, replay_command,
};
use crate::stop::{Refusal, Stop};
use crate::tell::tell_stop;
use crate::words::{read_check, read_image, read_made, read_one, read_plain, read_replay};
use replay_workers::Gate;
use std::alloc::Global;
use std::sync::Wait;
use std::thread::Threads;
use zone_outside::{Shelf, Sink, Text};
use zone_watch::Watcher;

/// Does what the words ask for, and answers the status with which the program ends:
///
/// - 0: the job is done, and `out` took all its text.
/// - 1: the words are none of the forms that are built. `err` has the usage line.
/// - 2: the configuration has a fault, or no zone of the name that is asked for. `err` has `config LINE text KIND` or `config LINE rule RULE`.
/// - 3: the log has a fault. `err` has `log LINE KIND`.
/// - 4: a named file could not be opened or read. `err` has `read fault`.
/// - 5: a write failed. `err` has `write fault`, if it takes that. After a failed write to `out`, `out`
///   has a proper prefix of the text.
/// - 6: a text that is read is longer than 16,777,216 bytes. `err` has `too long`.
/// - 7: there was no memory. Nothing was written.
///
/// The earliest of these that holds is answered, in the order of the work: the words, the files in their
/// order and what they say, the writing. `replay` alone may wait: for a zone's turn, and where the gate waits, which is told of
/// each call that a worker makes to a zone. The other commands run on one thread, and don't look at `rt` and `gate`.
///
/// `plain` and `replay` show the watchers what was decided of each line, before the first write, and the reports of those that
/// are left end the text. After 0, and after 5 for `out`, just those stay in the list; after 7 they may, or the list is as it
/// was. After every other status, and in every other command, the list is as it was.
pub fn run<R: Threads + Wait + Sync, F: Shelf, O: Sink, E: Sink, G: Gate + Sync>(
    rt: &R,
    alloc: Global,
    words: &[Text],
    files: &mut F,
    out: &mut O,
    err: &mut E,
    gate: &G,
    watchers: &mut Vec<Box<dyn Watcher>>,
) -> u8
    // Each status has its cause, and with sound texts and devices without faults it is 0 or 7.
    ensures does { Does (plan_of words.now)
        (record {
          files = record { contents = F.contents files.old; faults = F.faults files.old };
          out = record { text = O.taken out.old; faults = O.faults out.old };
          err = record { text = E.taken err.old; faults = E.faults err.old };
          watchers = map (λ b. watched b) watchers.old.items;
        })
        (record {
          files = record { contents = F.contents files.new; faults = F.faults files.new };
          out = record { text = O.taken out.new; faults = O.faults out.new };
          err = record { text = E.taken err.new; faults = E.faults err.new };
          watchers = map (λ b. watched b) watchers.new.items;
        })
        result }
    // 1 exactly for words of no form, but where the usage line can't be written.
    ensures form { result ≡ 1 → command_of words.now ≡ None }
    ensures no_form { command_of words.now ≡ None → (result ≡ 1) ⊎ (result ≡ 5) }
{
    if read_one(words).is_some() {
        return one_command(alloc, words, files, out, err, watchers);
    }
    if read_check(words).is_some() {
        return check_command(alloc, words, files, out, err, watchers);
    }
    if read_plain(words).is_some() {
        return plain_command(alloc, words, files, out, err, watchers);
    }
    if read_image(words).is_some() {
        return image_command(alloc, words, files, out, err, watchers);
    }
    if read_made(words).is_some() {
        return made_command(alloc, words, files, out, err, watchers);
    }
    if read_replay(words).is_some() {
        return replay_command(rt, alloc, words, files, out, err, gate, watchers);
    }
    tell_stop(alloc, err, Stop::Refused(Refusal::Usage)).code()
}
