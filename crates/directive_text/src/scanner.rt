ghost use Rattle.std.specs.Prelude.{◌≡◌, ℕ, ◌+◌, ◌≤◌, ◌<◌, ◌^◌, true, false, [], ◌∷◌, length, drop, slice_index, ◌≢◌, MatchOption, OnOk, IfOk, IfSome};
ghost use Rattle.directive_text.specs.Bytes.{is_blank, is_quote, below, ends_plain};
ghost use Rattle.directive_text.specs.Internals.ScanSteps.{Passes, ahead, begun, is_last, lexeme_of, token_of};
ghost use Rattle.directive_text.specs.Internals.Lexemes.{Lexeme, misplaced, kept, ends, followed, between, comment, plain, plain_pair, quoted, quoted_pair, tokens_of};

use crate::bytes::{ends_plain, is_blank, is_quote, keeps_brace, may_follow, push_unescaped};
use crate::symbol::{PlacedSymbol, Symbol};
use memchr::memchr;
use std::alloc::Global;
use zone_outside::{NoMemory, Text};

/// A place in a text, with its line, counted from 1.
#[derive(Drop)]
pub(crate) struct Scanner<'t> {
    left: &'t [u8],
    line: u64,
    after_quote: bool,
    ghost fits: { line + length left.now < 2 ^ 64 },
}

impl<'t> Scanner<'t> {
    /// The begin of a text.
    pub(crate) fn new(text: &'t [u8]) -> Scanner<'t>
        ensures { ahead result.after_quote result.line result.left.now ≡ tokens_of text.now }
    {
        Scanner {
            left: text,
            line: 1,
            after_quote: false,
        }
    }

    /// The next byte.
    fn peek(&self) -> Option<u8>
        ensures { MatchOption result (self.now.left.now ≡ []) (λ byte. self.now.left.now
            ≡ byte ∷ drop 1 self.now.left.now) }
    {
        self.left.first().copied()
    }

    /// Passes over the next byte.
    #[tactic(auto, unfolding(crate::specs::Bytes::below))]
    fn pass(&mut self, byte: u8)
        requires { self.old.left.now ≡ byte ∷ drop 1 self.old.left.now }
        ensures { Passes self.old.line self.old.left.now byte self.new.line self.new.left.now }
    {
        if byte == b'\n' {
            self.line += 1;
        }
        self.left = &self.left[1..];
    }

    /// Puts the value of the pair behind a backslash at the end of a word.
    fn pair(&mut self, word: &mut Vec<u8>) -> Result<(), NoMemory>
        ensures plain { OnOk result (kept word.old.items (plain_pair self.old.line self.old.left.now)
            ≡ kept word.new.items (plain false self.new.line self.new.left.now)) }
        ensures quoted { (quote : ℕ)
            → OnOk result (kept word.old.items (quoted_pair quote self.old.line self.old.left.now)
            ≡ kept word.new.items (quoted quote self.new.line self.new.left.now)) }
        ensures fewer { length self.new.left.now ≤ length self.old.left.now }
    {
        if let Some(byte) = self.peek() {
            self.pass(byte);
            push_unescaped(word, byte)?;
        }
        Ok(())
    }

    /// Puts a byte of a plain word, or the value of the pair that it begins, at the end of the word, and
    /// tells whether a `{` that follows belongs to the word.
    fn plain_byte(&mut self, word: &mut Vec<u8>, dollar: bool, byte: u8) -> Result<bool, NoMemory>
        requires next { self.old.left.now ≡ byte ∷ drop 1 self.old.left.now }
        requires inside { ends_plain dollar byte ≡ false }
        ensures goes_on { IfOk result
            (λ more. kept word.old.items (plain dollar self.old.line self.old.left.now)
            ≡ kept word.new.items (plain more self.new.line self.new.left.now)) }
        ensures fewer { length self.new.left.now < length self.old.left.now }
    {
        self.pass(byte);
        if byte == b'\\' {
            self.pair(word)?;
            return Ok(false);
        }
        word.push(byte)?;
        Ok(keeps_brace(byte))
    }

    /// Puts the rest of a plain word at the end of what is read of it.
    fn plain_word(&mut self, word: &mut Vec<u8>, mut dollar: bool) -> Result<(), NoMemory>
        ensures whole { OnOk result (kept word.old.items (plain dollar self.old.line self.old.left.now)
            ≡ kept word.new.items (ends (between self.new.line self.new.left.now))) }
        ensures fewer { length self.new.left.now ≤ length self.old.left.now }
    {
        while let Some(byte) = self.peek() {
            if ends_plain(dollar, byte) {
                break;
            }
            dollar = self.plain_byte(word, dollar, byte)?;
        }
        Ok(())
    }

    /// Puts the rest of a quoted word at the end of what is read of it, and passes over its end.
    fn quoted_word(&mut self, word: &mut Vec<u8>, quote: u8) -> Result<(), NoMemory>
        requires { is_quote quote ≡ true }
        ensures whole { OnOk result (kept word.old.items (quoted quote self.old.line self.old.left.now)
            ≡ kept word.new.items (ends (followed self.new.line self.new.left.now (between self.new.line self.new.left.now)))) }
        ensures fewer { length self.new.left.now ≤ length self.old.left.now }
    {
        while let Some(byte) = self.peek() {
            self.pass(byte);
            if byte == quote {
                break;
            }
            if byte == b'\\' {
                self.pair(word)?;
            } else {
                word.push(byte)?;
            }
        }
        Ok(())
    }

    /// Passes over the rest of a line, up to its LF.
    fn skip_comment(&mut self)
        ensures same { comment self.old.line self.old.left.now
            ≡ between self.new.line self.new.left.now }
        ensures fewer { length self.new.left.now ≤ length self.old.left.now }
    {
        let end = line_end(self.left);
        self.left = &self.left[end..];
    }

    /// Passes over white space and comments, and gives the byte behind them.
    fn skip_blank(&mut self) -> Option<u8>
        ensures same { between self.old.line self.old.left.now
            ≡ between self.new.line self.new.left.now }
        ensures next { MatchOption result (self.new.left.now ≡ []) (λ byte. self.new.left.now
            ≡ byte ∷ drop 1 self.new.left.now) }
        ensures begins { IfSome result (λ byte. (is_blank byte ≡ false) × (byte ≢ 35)) }
        ensures fewer { length self.new.left.now ≤ length self.old.left.now }
    {
        loop {
            let next = self.peek();
            let Some(byte) = next else {
                return None;
            };
            if byte == b'#' {
                self.pass(byte);
                self.skip_comment();
            } else if is_blank(byte) {
                self.pass(byte);
            } else {
                return Some(byte);
            }
        }
    }

    /// Whether the next byte may not follow the closing quote before it.
    fn is_misplaced(&self) -> bool
        ensures misplaced { result
            ≡ true → ahead self.now.after_quote self.now.line self.now.left.now
            ≡ record { line = self.now.line; lexeme = misplaced } ∷ [] }
        ensures other { result
            ≡ false → ahead self.now.after_quote self.now.line self.now.left.now
            ≡ between self.now.line self.now.left.now }
    {
        if !self.after_quote {
            return false;
        }
        match self.peek() {
            Some(byte) => !may_follow(byte),
            None => false,
        }
    }

    /// The quoted word that begins here.
    fn quoted_symbol(&mut self, alloc: Global, quote: u8) -> Result<Symbol, NoMemory>
        requires next { self.old.left.now ≡ quote ∷ drop 1 self.old.left.now }
        requires quote { is_quote quote ≡ true }
        ensures first { IfOk result (λ symbol. between self.old.line self.old.left.now
            ≡ record {
              line = self.old.line;
              lexeme = lexeme_of symbol;
            } ∷ ahead true self.new.line self.new.left.now) }
        ensures more { IfOk result (λ symbol. is_last (lexeme_of symbol) ≡ false) }
        ensures fewer { length self.new.left.now < length self.old.left.now }
    {
        self.pass(quote);
        let mut value = Vec::new(alloc);
        self.quoted_word(&mut value, quote)?;
        Ok(Symbol::Word(Text::of(alloc, &value)?))
    }

    /// The plain word that begins here.
    fn plain_symbol(&mut self, alloc: Global, byte: u8) -> Result<Symbol, NoMemory>
        requires next { self.old.left.now ≡ byte ∷ drop 1 self.old.left.now }
        requires inside { ends_plain false byte ≡ false }
        requires begins { (byte ≢ 35) × (byte ≢ 125) × (is_quote byte ≡ false) }
        ensures first { IfOk result (λ symbol. between self.old.line self.old.left.now
            ≡ record {
              line = self.old.line;
              lexeme = lexeme_of symbol;
            } ∷ ahead false self.new.line self.new.left.now) }
        ensures more { IfOk result (λ symbol. is_last (lexeme_of symbol) ≡ false) }
        ensures fewer { length self.new.left.now < length self.old.left.now }
    {
        let mut value = Vec::new(alloc);
        let dollar = self.plain_byte(&mut value, false, byte)?;
        self.plain_word(&mut value, dollar)?;
        Ok(Symbol::Word(Text::of(alloc, &value)?))
    }

    /// The symbol that begins with this byte.
    fn symbol(&mut self, alloc: Global, byte: u8) -> Result<Symbol, NoMemory>
        requires next { self.old.left.now ≡ byte ∷ drop 1 self.old.left.now }
        requires begins { (is_blank byte ≡ false) × (byte ≢ 35) }
        ensures first { IfOk result (λ symbol. between self.old.line self.old.left.now
            ≡ record {
              line = self.old.line;
              lexeme = lexeme_of symbol;
            } ∷ ahead (is_quote byte) self.new.line self.new.left.now) }
        ensures more { IfOk result (λ symbol. is_last (lexeme_of symbol) ≡ false) }
        ensures fewer { length self.new.left.now < length self.old.left.now }
    {
        if is_quote(byte) {
            return self.quoted_symbol(alloc, byte);
        }
        let symbol = match byte {
            b';' => Symbol::Semicolon,
            b'{' => Symbol::Opening,
            b'}' => Symbol::Closing,
            _ => return self.plain_symbol(alloc, byte),
        };
        self.pass(byte);
        Ok(symbol)
    }

    /// The next symbol.
    pub(crate) fn next(&mut self, alloc: Global) -> Result<PlacedSymbol, NoMemory>
        ensures first { IfOk result
            (λ next. ahead self.old.after_quote self.old.line self.old.left.now
            ≡ begun (token_of next) (ahead self.new.after_quote self.new.line self.new.left.now)) }
        ensures fewer { IfOk result (λ next. is_last (lexeme_of next.symbol)
            ≡ false → length self.new.left.now < length self.old.left.now) }
    {
        if self.is_misplaced() {
            return Ok(PlacedSymbol {
                line: self.line,
                symbol: Symbol::Misplaced,
            });
        }
        let next = self.skip_blank();
        let line = self.line;
        let Some(byte) = next else {
            let symbol = Symbol::End;
            return Ok(PlacedSymbol { line, symbol });
        };
        let symbol = self.symbol(alloc, byte)?;
        self.after_quote = is_quote(byte);
        Ok(PlacedSymbol { line, symbol })
    }
}

/// The index of the first LF, or the length where there is none.
fn line_end(text: &[u8]) -> usize
    ensures within { result ≤ length text.now }
    ensures before { (k : ℕ) → k < result → slice_index text.now k ≢ 10 }
    ensures end { result < length text.now → slice_index text.now result ≡ 10 }
{
    match memchr(b'\n', text) {
        Some(end) => end,
        None => text.len(),
    }
}
