ghost use Rattle.std.specs.Prelude.{◌≡◌, ◌≢◌, ℕ, ◌+◌, ◌-◌, ◌^◌, ◌≤◌, min, List, Some, None, ◌⊎◌, Contains, IfOk, IsErr, find, nat_eq, OnOk, OnErr};
ghost use Rattle.std.specs.Cmp.Lexicographic.{pointwise};
ghost use Rattle.std.specs.Option.{option_copied, option_map};
ghost use Rattle.zone_outside.specs.Faults.{Rose};
ghost use Rattle.zone_outside.specs.MemShelves.{file_text, files_of, source_named, text_named};

use crate::devices::Shelf;
use crate::errors::{Failed, count_fault};
use crate::mem_source::{MemSource, MemText};
use crate::text::Text;
use std::marker::Model;

/// A text in memory, with its name.
#[derive(Drop)]
pub struct MemFile<'a> {
    /// The name.
    pub name: &'a [u8],
    /// The text.
    pub text: MemText<'a>,
}

/// A shelf of texts in memory, whose names and texts it borrows. An open fails where its number,
/// counted from 1, is among `failing`, or where no text has the name. It takes no memory.
#[derive(Drop)]
pub struct MemShelf<'a> {
    files: &'a [MemFile<'a>],
    failing: &'a [u64],
    opens: u64,
    faults: u64,
}

impl<'a> Model for MemShelf<'a> {
    ghost use Rattle.zone_outside.specs.MemShelves.{ShelfState, files_of};

    ghost Value = { ShelfState };

    ghost view = { λ s. record {
      files = files_of s.files.now;
      failing = s.failing.now;
      opens = s.opens;
      faults = s.faults;
    } };
}

impl<'a> MemShelf<'a> {
    /// A shelf of these texts. Where two have one name, the first counts.
    pub fn of(files: &'a [MemFile<'a>], failing: &'a [u64]) -> MemShelf<'a>
        ensures { result ≡ record { files = files_of files.now; failing = failing.now; opens = 0; faults = 0 } }
    {
        MemShelf {
            files,
            failing,
            opens: 0,
            faults: 0,
        }
    }
}

impl<'a> Shelf for MemShelf<'a> {
    type Item = MemSource<'a>;

    ghost contents = { λ s n. text_named n s.files };

    ghost faults = { λ s n. s.faults };

    fn open(&mut self, name: Text) -> Result<MemSource<'a>, Failed>
        ensures same { self.new ≡ record self.old { opens = self.new.opens; faults = self.new.faults } }
        ensures kept { (n : List ℕ) → text_named n self.new.files ≡ text_named n self.old.files }
        ensures later { List ℕ → self.old.faults ≤ self.new.faults }
        ensures named { IfOk result (λ item. item.name ≡ name) }
        ensures whole { IfOk result (λ item. Some item.left ≡ text_named name self.old.files) }
        ensures fresh { IfOk result (λ item. item.faults ≡ 0) }
        ensures item { IfOk result (λ item. Some item ≡ source_named name self.old.files) }
        ensures calm { OnOk result (List ℕ → self.new.faults ≡ self.old.faults) }
        ensures failed { OnErr result (Rose self.old.faults self.new.faults) }
        ensures failing { Contains self.old.failing self.new.opens → IsErr result }
        ensures opens { self.new.opens ≡ min (self.old.opens + 1) (2 ^ 64 - 1) }
        ensures found { OnErr result (Contains self.old.failing self.new.opens ⊎ (text_named name self.old.files ≡ None)) }
    {
        self.opens = self.opens.saturating_add(1);
        let fails = self.failing.contains(&self.opens);
        match file_named(self.files, name.bytes()) {
            Some(file) if !fails => Ok(MemSource::of(name, &file.text)),
            _ => {
                count_fault(&mut self.faults);
                Err(Failed)
            }
        }
    }

    fn settle(&mut self, item: MemSource<'a>)
        ensures same { self.new ≡ record self.old { faults = self.new.faults } }
        ensures kept { (n : List ℕ) → text_named n self.new.files ≡ text_named n self.old.files }
        ensures later { List ℕ → self.old.faults ≤ self.new.faults }
        ensures failed { item.entry.faults ≢ 0 → Rose self.old.faults self.new.faults }
        ensures calm { item.entry.faults ≡ 0 → List ℕ → self.new.faults ≡ self.old.faults }
    {
        if item.faults() > 0 {
            count_fault(&mut self.faults);
        }
    }
}

// The first file of this name.
fn file_named<'a>(files: &'a [MemFile<'a>], name: &[u8]) -> Option<&'a MemFile<'a>>
    ensures { option_map (λ file. file.now.text) result ≡ file_text name.now (files_of files.now) }
{
    first_named(files, name)
}

// The first file of this name, as a search tells it.
fn first_named<'a>(files: &'a [MemFile<'a>], name: &[u8]) -> Option<&'a MemFile<'a>>
    ensures { option_copied result ≡ find (λ file. pointwise nat_eq file.name.now name.now) files.now }
{
    files.iter().find(|file| file.name == name)
}
