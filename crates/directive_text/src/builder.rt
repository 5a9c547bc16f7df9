ghost use Rattle.std.specs.Prelude.{◌≡◌, ◌<◌, ◌+◌, ◌-◌, true, false, [], ◌∷◌, ◌++◌, IfOk, OnOk};
ghost use Rattle.directive_text.specs.Marks.{ended, opened, closed, marks_of};
ghost use Rattle.directive_text.specs.Internals.Tokens.{lexeme_marks};
ghost use Rattle.directive_text.specs.Internals.Tokens.{kind_at, blocks_after, is_word};
ghost use Rattle.directive_text.specs.Internals.Progress.{Progress, some_word};
ghost use Rattle.directive_text.specs.Internals.ScanSteps.{lexeme_of};
ghost use Rattle.directive_text.specs.Internals.Lexemes.{Lexeme, word};

use crate::symbol::{PlacedSymbol, Symbol};
use crate::tree::{Directive, Tree};
use sqlite_items::Items;
use std::alloc::Global;
use std::marker::Model;
use std::mem::replace;
use zone_outside::{NoMemory, Text};

/// The most blocks that may be open at once.
pub const MAX_BLOCKS: usize = 16;

/// A directive whose block is open, with the directives before it in the block that holds it.
#[derive(Drop)]
pub(crate) struct Frame {
    before: Vec<Directive>,
    words: Items<Text>,
    line: u64,
}

/// A tree as far as its text is read.
#[derive(Drop)]
pub(crate) struct Builder {
    open: Vec<Frame>,
    done: Vec<Directive>,
    line: u64,
    words: Vec<Text>,
}

impl Model for Builder {
    ghost use Rattle.directive_text.specs.Internals.Progress.{Progress, progress_of};

    ghost Value = { Progress };

    ghost view = { λ b. progress_of b.open.items b.done.items b.line b.words.items };
}

/// Moves items into a list that takes just the room of these.
fn exactly<T: Drop>(alloc: Global, items: &mut Vec<T>) -> Result<Items<T>, NoMemory>
    ensures same { IfOk result (λ moved. moved ≡ items.old.items) }
    ensures rest { OnOk result (items.new.items ≡ []) }
{
    let mut moved = Vec::with_capacity(alloc, items.len())?;
    moved.append(items)?;
    Ok(Items::from_vec(moved))
}

/// Whether there is a word.
fn some_word(words: &[Text]) -> bool
    ensures { result ≡ some_word words.now }
{
    match words {
        [] => false,
        _ => true,
    }
}

/// The kind of the fault that a symbol is where some blocks are open, and words are pending or not.
fn kind_at(blocks: usize, pending: bool, symbol: &Symbol) -> Option<u32>
    ensures { result ≡ kind_at blocks pending (lexeme_of symbol.now) }
{
    match symbol {
        Symbol::Word(_) => None,
        Symbol::Semicolon => if pending { None } else { Some(3) },
        Symbol::Opening => {
            if !pending {
                Some(4)
            } else if blocks < MAX_BLOCKS {
                None
            } else {
                Some(7)
            }
        }
        Symbol::Closing => if pending || blocks == 0 {
            Some(5)
        } else {
            None
        },
        Symbol::Misplaced => Some(6),
        Symbol::End => if pending || 0 < blocks { Some(2) } else { None },
    }
}

impl Builder {
    /// Nothing is read.
    pub(crate) fn new(alloc: Global) -> Builder
        ensures { result ≡ record { marks = []; blocks = 0; pending = false } }
    {
        Builder {
            open: Vec::new(alloc),
            done: Vec::new(alloc),
            line: 0,
            words: Vec::new(alloc),
        }
    }

    /// The kind of the fault that a symbol is here.
    pub(crate) fn kind_of(&self, symbol: &Symbol) -> Option<u32>
        ensures { result ≡ kind_at self.now.blocks self.now.pending (lexeme_of symbol.now) }
    {
        kind_at(self.open.len(), some_word(&self.words), symbol)
    }

    /// A word of this line is read.
    fn word(&mut self, line: u64, value: Text) -> Result<(), NoMemory>
        ensures { OnOk result (self.new
            ≡ record { marks = self.old.marks ++ lexeme_marks self.old.pending line (word value); blocks = self.old.blocks; pending = true }) }
    {
        if !some_word(&self.words) {
            self.line = line;
        }
        self.words.push(value)?;
        Ok(())
    }

    /// `;` is read.
    fn end(&mut self, alloc: Global) -> Result<(), NoMemory>
        requires { self.old.pending ≡ true }
        ensures { OnOk result (self.new
            ≡ record {
              marks = self.old.marks ++ ended ∷ [];
              blocks = self.old.blocks;
              pending = false;
            }) }
    {
        let words = exactly(alloc, &mut self.words)?;
        self.done.push(Directive {
            words,
            line: self.line,
            block: None,
        })?;
        Ok(())
    }

    /// `{` is read.
    fn open(&mut self, alloc: Global) -> Result<(), NoMemory>
        requires { self.old.pending ≡ true }
        ensures { OnOk result (self.new
            ≡ record {
              marks = self.old.marks ++ opened ∷ [];
              blocks = self.old.blocks + 1;
              pending = false;
            }) }
    {
        let before = replace(&mut self.done, Vec::new(alloc));
        let words = exactly(alloc, &mut self.words)?;
        let line = self.line;
        self.open.push(Frame {
            before,
            words,
            line,
        })?;
        Ok(())
    }

    /// `}` is read.
    fn close(&mut self, alloc: Global) -> Result<(), NoMemory>
        requires pending { self.old.pending ≡ false }
        requires blocks { 0 < self.old.blocks }
        ensures { OnOk result (self.new
            ≡ record {
              marks = self.old.marks ++ closed ∷ [];
              blocks = self.old.blocks - 1;
              pending = false;
            }) }
    {
        if let Some(frame) = self.open.pop() {
            let Frame {
                before,
                words,
                line,
            } = frame;
            let mut inner = replace(&mut self.done, before);
            let block = Some(exactly(alloc, &mut inner)?);
            self.done.push(Directive { words, line, block })?;
        }
        Ok(())
    }

    /// A symbol is read that is no fault here.
    pub(crate) fn add(&mut self, alloc: Global, next: PlacedSymbol) -> Result<(), NoMemory>
        requires { kind_at self.old.blocks self.old.pending (lexeme_of next.symbol) ≡ None }
        ensures { OnOk result (self.new
            ≡ record { marks = self.old.marks ++ lexeme_marks self.old.pending next.line (lexeme_of next.symbol); blocks = blocks_after self.old.blocks (lexeme_of next.symbol); pending = is_word (lexeme_of next.symbol) }) }
    {
        let PlacedSymbol { line, symbol } = next;
        match symbol {
            Symbol::Word(value) => self.word(line, value),
            Symbol::Semicolon => self.end(alloc),
            Symbol::Opening => self.open(alloc),
            Symbol::Closing => self.close(alloc),
            Symbol::Misplaced | Symbol::End => Ok(()),
        }
    }

    /// The whole tree.
    pub(crate) fn finish(self) -> Tree
        requires blocks { self.blocks ≡ 0 }
        requires pending { self.pending ≡ false }
        ensures { marks_of result.directives ≡ self.marks }
    {
        let mut directives = self.done;
        directives.shrink_to_fit();
        Tree {
            directives: Items::from_vec(directives),
        }
    }
}
