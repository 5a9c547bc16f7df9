ghost use Rattle.std.specs.Prelude.{◌≡◌, ◌⊎◌, ℕ, List, MatchResult};
ghost use Rattle.directive_text.specs.Spelling.{Spells};
ghost use Rattle.directive_text.specs.Faults.{HasFault, GivesFault};
ghost use Rattle.directive_text.specs.Internals.ScanSteps.{is_end, lexeme_of};
ghost use Rattle.directive_text.specs.declared.tree.Directive.{Directive};

use crate::builder::Builder;
use crate::fault::TextFault;
use crate::scanner::Scanner;
use crate::symbol::Symbol;
use crate::tree::Tree;
use std::alloc::Global;

/// Reads the directives of a text, as nginx's configuration files spell them.
///
/// `TextFault::At` comes exactly where the text has a fault, with the line and the kind of the first one in
/// the order of bytes. `TextFault::NoMemory` comes where there is no memory for the tree.
pub fn read(alloc: Global, text: &[u8]) -> Result<Tree, TextFault>
    // What is read is spelled so, and a fault is the first one.
    ensures reads { MatchResult result (λ tree. Spells text.now tree.directives)
        (λ fault. GivesFault text.now fault) }
    // What is spelled so is read, unless memory runs out.
    ensures only { (directives : List Directive) → Spells text.now directives
        → MatchResult result (λ tree. tree.directives ≡ directives)
        (λ fault. fault ≡ TextFault.NoMemory) }
    // A fault that the text has is answered, unless memory runs out.
    ensures only_fault { (line kind : ℕ) → HasFault text.now line kind
        → MatchResult result (λ _. ⊥)
        (λ fault. (fault ≡ TextFault.At line kind) ⊎ (fault ≡ TextFault.NoMemory)) }
{
    let mut scanner = Scanner::new(text);
    let mut builder = Builder::new(alloc);
    'tokens: loop {
        let next = scanner.next(alloc)?;
        if let Some(kind) = builder.kind_of(&next.symbol) {
            return Err(TextFault::At {
                line: next.line,
                kind,
            });
        }
        if is_end(&next.symbol) {
            return Ok(builder.finish());
        }
        builder.add(alloc, next)?;
    }
}

/// Whether a symbol is the end of the text.
fn is_end(symbol: &Symbol) -> bool
    ensures { result ≡ is_end (lexeme_of symbol.now) }
{
    matches!(symbol, Symbol::End)
}
