ghost use Rattle.std.specs.Prelude.{◌≡◌, ℕ, List, None};

use crate::devices::{Shelf, Sink, Source};
use crate::errors::{Failed, count_fault};
use crate::text::Text;
use std::fs;
use std::io::{Print, Read};
use std::rt::Files;

/// The files of the system, by their paths. It tells no content, and keeps one count of faults for
/// all names.
#[derive(Drop)]
pub struct FileShelf<'a, R: Files> {
    system: &'a R,
    faults: u64,
}

impl<'a, R: Files> FileShelf<'a, R> {
    /// The files that this runtime reaches.
    pub fn of(system: &'a R) -> FileShelf<'a, R>
        ensures { (n : List ℕ) → ⟦<FileShelf<'a, R> as Shelf>⟧.faults result n ≡ 0 }
    {
        FileShelf { system, faults: 0 }
    }
}

impl<'a, R: Files> Shelf for FileShelf<'a, R> {
    type Item = FileSource<R::File>;

    ghost contents = { λ _ _. None };

    ghost faults = { λ s _. s.faults };

    // A name that isn't text in UTF-8, or that the system doesn't open, is a failed open.
    fn open(&mut self, name: Text) -> Result<FileSource<R::File>, Failed> {
        let opened = match str::from_utf8(name.bytes()) {
            Ok(path) => fs::open(self.system, path).ok(),
            Err(_) => None,
        };
        match opened {
            Some(file) => Ok(FileSource {
                name,
                file,
                faults: 0,
            }),
            None => {
                count_fault(&mut self.faults);
                Err(Failed)
            }
        }
    }

    fn settle(&mut self, item: FileSource<R::File>) {
        if item.faults > 0 {
            count_fault(&mut self.faults);
        }
    }
}

/// An open file of the system. It doesn't tell what it has left.
#[derive(Drop)]
pub struct FileSource<F> {
    name: Text,
    file: F,
    faults: u64,
}

impl<F: Read> Source for FileSource<F> {
    ghost name = { λ s. s.name };

    ghost left = { λ _. None };

    ghost faults = { λ s. s.faults };

    // Each error of the system is a failed read.
    fn read(&mut self, into: &mut [u8]) -> Result<usize, Failed> {
        match self.file.read(into) {
            Ok(count) => Ok(count),
            Err(_) => {
                count_fault(&mut self.faults);
                Err(Failed)
            }
        }
    }
}

/// Standard output or standard error. It keeps no bytes back, and doesn't tell what it took. A
/// `BufferedSink` over it spares a call of the system for each line.
#[derive(Drop)]
pub struct StdSink<P> {
    to: P,
    faults: u64,
}

impl<P: Print> StdSink<P> {
    /// A sink that writes there: `rt.stdout()` or `rt.stderr()`.
    pub fn of(to: P) -> StdSink<P>
        ensures { ⟦<StdSink<P> as Sink>⟧.faults result ≡ 0 }
    {
        StdSink { to, faults: 0 }
    }
}

impl<P: Print> Sink for StdSink<P> {
    ghost taken = { λ _. None };

    ghost faults = { λ s. s.faults };

    // An error of the system is a failed write, and so is a write that takes nothing of a piece
    // that isn't empty.
    fn write(&mut self, piece: &[u8]) -> Result<usize, Failed> {
        match self.to.write_some(piece) {
            Ok(count) if count > 0 || piece.is_empty() => Ok(count),
            _ => {
                count_fault(&mut self.faults);
                Err(Failed)
            }
        }
    }
}
