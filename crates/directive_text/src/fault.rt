ghost use Rattle.std.specs.Prelude.{◌≡◌};
ghost use Rattle.directive_text.specs.declared.fault.TextFault.TheVariants.{NoMemory};

use thiserror::Error;
use zone_outside::NoMemory;

/// Why a text is not read.
#[derive(Clone, Copy, Debug, PartialEq, Eq, Error)]
pub enum TextFault {
    /// The text has a fault: its line, counted from 1, and its kind.
    ///
    /// | Kind | Fault |
    /// |---|---|
    /// | 2 | the text ends in a word, a directive or a block; its line is the text's last |
    /// | 3 | `;` without a word |
    /// | 4 | `{` without a word |
    /// | 5 | `}` behind a word of a directive, or without an open block |
    /// | 6 | a byte that may not follow a closing quote |
    /// | 7 | more than 16 open blocks |
    #[error("line {line}: {}", kind_text(*kind))]
    At { line: u64, kind: u32 },
    /// There was no memory for the tree.
    #[error("no memory for the directives")]
    NoMemory,
}

impl From<NoMemory> for TextFault {
    ghost from_gives = { λ _ fault. fault ≡ NoMemory };

    fn from(_error: NoMemory) -> TextFault {
        TextFault::NoMemory
    }
}

/// What a kind of fault is, for people.
fn kind_text(kind: u32) -> &'static str {
    match kind {
        2 => "the text ends in a word, a directive or a block",
        3 => "`;` without a word",
        4 => "`{` without a word",
        5 => "`}` behind a word or without an open block",
        6 => "a byte that may not follow a closing quote",
        7 => "more than 16 open blocks",
        _ => "a fault of no known kind",
    }
}
