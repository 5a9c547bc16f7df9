ghost use Rattle.std.specs.Prelude.{◌≡◌, ℕ, ◌+◌, ◌<◌, ◌≤◌, List, length, take, IfOk, IfSome, OnOk, OnErr, vec_len, ◌++◌, true, false};
ghost use Rattle.std.specs.Io.KnownBytes.{Appends, Consumes, IsAtEnd};
ghost use Rattle.zone_outside.specs.Answers.{OnFault, OnTooLong, UnlessFault, Loses};
ghost use Rattle.zone_outside.specs.Faults.{HasCause, Rose};

use crate::devices::{Shelf, Sink, Source};
use crate::errors::Failed;
use crate::text::Text;
use std::alloc::{AllocError, Global};
use thiserror::Error;

/// Why a text was not read.
#[derive(Clone, Copy, Debug, PartialEq, Eq, Error)]
pub enum ReadAnswer {
    /// A read failed.
    #[error("the text could not be read")]
    Fault,
    /// The text is longer than the limit.
    #[error("the text is longer than the limit")]
    TooLong,
    /// There was no memory for the text.
    #[error("no memory for the text")]
    NoMemory,
}

/// A write failed. A proper prefix of the piece was taken.
#[derive(Clone, Copy, Debug, PartialEq, Eq, Error)]
#[error("a write failed")]
pub struct WriteFault;

impl From<AllocError> for ReadAnswer {
    ghost use Rattle.std.specs.Prelude.{◌≡◌};
    ghost use Rattle.zone_outside.specs.declared.transfer.ReadAnswer.TheVariants.{NoMemory};

    ghost from_gives = { λ _ answer. answer ≡ NoMemory };

    fn from(_error: AllocError) -> ReadAnswer {
        ReadAnswer::NoMemory
    }
}

// How many bytes one read asks for.
const PIECE: usize = 65536;

/// The text that is left in the source, read to its end, of at most `limit` bytes.
/// `Fault`: a read failed. `TooLong`: no read failed, and `limit` + 1 bytes were taken.
pub fn read_all<R: Source>(alloc: Global, source: &mut R, limit: u64) -> Result<Vec<u8>, ReadAnswer>
    ensures named { R.name source.new ≡ R.name source.old }
    ensures whole { IfOk result (λ text. IfSome (R.left source.old) (λ xs. text.items ≡ xs)) }
    ensures within { IfOk result (λ text. vec_len text ≤ limit) }
    ensures ends { OnOk result (IsAtEnd (R.left source.new)) }
    ensures too_long { OnTooLong result (Loses (R.left source.old) (R.left source.new) (limit + 1)) }
    ensures longer { OnTooLong result (IfSome (R.left source.old) (λ xs. limit < length xs)) }
    ensures fault { OnFault result (Rose (R.faults source.old) (R.faults source.new)) }
    ensures calm { UnlessFault result (R.faults source.new ≡ R.faults source.old) }
    ensures front { (bs : List ℕ) × Consumes (R.left source.old) (R.left source.new) bs }
{
    let mut bytes = zeroed(alloc, PIECE)?;
    let buffer = bytes.as_mut_slice();
    let mut text = Vec::new(alloc);
    loop {
        match read_more(source, limit, buffer, &mut text) {
            Ok(true) => {}
            Ok(false) => return Ok(text),
            Err(answer) => return Err(answer),
        }
    }
}

// This many bytes of 0.
fn zeroed(alloc: Global, length: usize) -> Result<Vec<u8>, AllocError>
    ensures { IfOk result (λ bytes. vec_len bytes ≡ length) }
{
    vec![in alloc; 0u8; length]
}

// Reads one piece and adds it to the text. It answers whether there was one.
fn read_more<R: Source>(
    source: &mut R,
    limit: u64,
    buffer: &mut [u8],
    text: &mut Vec<u8>,
) -> Result<bool, ReadAnswer>
    requires room { 0 < length buffer.old }
    requires within { vec_len text.old ≤ limit }
    ensures named { R.name source.new ≡ R.name source.old }
    ensures fault { OnFault result (Rose (R.faults source.old) (R.faults source.new)) }
    ensures calm { UnlessFault result (R.faults source.new ≡ R.faults source.old) }
    ensures adds { OnOk result ((bs : List ℕ) × (text.new.items ≡ text.old.items ++ bs) × Consumes (R.left source.old) (R.left source.new) bs) }
    ensures within { OnOk result (vec_len text.new ≤ limit) }
    ensures grows { IfOk result (λ more. more ≡ true → vec_len text.old < vec_len text.new) }
    ensures ends { IfOk result (λ more. more ≡ false → IsAtEnd (R.left source.new)) }
    ensures too_long { OnTooLong result ((bs : List ℕ) × Consumes (R.left source.old) (R.left source.new) bs × (length text.old.items + length bs ≡ limit + 1)) }
    ensures front { (bs : List ℕ) × Consumes (R.left source.old) (R.left source.new) bs }
{
    let room = limit - text.len() as u64;
    let most = most_of(room, buffer.len());
    let piece = &mut buffer[..most];
    match source.read(piece) {
        Err(Failed) => Err(ReadAnswer::Fault),
        Ok(n) if n as u64 > room => Err(ReadAnswer::TooLong),
        Ok(n) => {
            text.extend_from_slice(&piece[..n])?;
            Ok(n > 0)
        }
    }
}

// How many bytes to ask for: one more than there is room for, and no more than the buffer has.
fn most_of(room: u64, buffer: usize) -> usize
    requires { 0 < buffer }
    ensures some { 0 < result }
    ensures fits { result ≤ buffer }
    ensures tells { result ≤ room + 1 }
{
    if room < buffer as u64 {
        room as usize + 1
    } else {
        buffer
    }
}

/// Writes the whole piece. It takes no memory.
/// `WriteFault`: a write failed, and a proper prefix of the piece was taken.
pub fn write_all<K: Sink>(sink: &mut K, piece: &[u8]) -> Result<(), WriteFault>
    ensures whole { OnOk result (Appends (K.taken sink.old) (K.taken sink.new) piece.now) }
    ensures part { OnErr result ((n : ℕ) × (n < length piece.now) × Appends (K.taken sink.old) (K.taken sink.new) (take n piece.now)) }
    ensures cause { HasCause (K.faults sink.old) (K.faults sink.new) result }
    ensures calm { OnOk result (K.faults sink.new ≡ K.faults sink.old) }
{
    let mut done = 0;
    while done < piece.len() {
        match sink.write(&piece[done..]) {
            Err(Failed) => return Err(WriteFault),
            Ok(n) => done += n,
        }
    }
    Ok(())
}

/// The text of this name, opened, read to its end and settled: at most `limit` bytes.
/// `Fault`: the open or a read failed. `TooLong`: the text is longer, and no read failed.
pub fn read_named<F: Shelf>(
    alloc: Global,
    files: &mut F,
    name: Text,
    limit: u64,
) -> Result<Vec<u8>, ReadAnswer>
    ensures kept { (n : List ℕ) → F.contents files.new n ≡ F.contents files.old n }
    ensures later { (n : List ℕ) → F.faults files.old n ≤ F.faults files.new n }
    ensures whole { IfOk result (λ text. IfSome (F.contents files.old name) (λ xs. text.items ≡ xs)) }
    ensures within { IfOk result (λ text. vec_len text ≤ limit) }
    ensures longer { OnTooLong result (IfSome (F.contents files.old name) (λ xs. limit < length xs)) }
    ensures fault { OnFault result (Rose (F.faults files.old name) (F.faults files.new name)) }
    ensures calm { UnlessFault result ((n : List ℕ) → F.faults files.new n ≡ F.faults files.old n) }
{
    match files.open(name) {
        Err(Failed) => Err(ReadAnswer::Fault),
        Ok(mut item) => {
            let answer = read_all(alloc, &mut item, limit);
            files.settle(item);
            answer
        }
    }
}
