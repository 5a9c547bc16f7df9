use std::alloc::{AllocError, AllocFailed};
use thiserror::Error;

/// Why a line says nothing.
#[derive(Clone, Copy, Debug, PartialEq, Eq, Error)]
pub enum LineFault {
    /// Its first faulty word from the left has this kind of fault; a missing word has the kind of its place.
    #[error("a fault of kind {0}")]
    Kind(u32),
    /// There was no memory for it.
    #[error("no memory for the line")]
    NoMemory,
}

impl From<zone_outside::NoMemory> for LineFault {
    ghost use Rattle.std.specs.Prelude.{◌≡◌};
    ghost use Rattle.replay_log.specs.declared.fault.LineFault.TheVariants.{NoMemory};

    ghost from_gives = { λ _ fault. fault ≡ NoMemory };

    fn from(_error: zone_outside::NoMemory) -> LineFault {
        LineFault::NoMemory
    }
}

impl From<AllocError> for LineFault {
    ghost use Rattle.std.specs.Prelude.{◌≡◌};
    ghost use Rattle.replay_log.specs.declared.fault.LineFault.TheVariants.{NoMemory};

    ghost from_gives = { λ _ fault. fault ≡ NoMemory };

    fn from(_error: AllocError) -> LineFault {
        LineFault::NoMemory
    }
}

impl<T: Drop> From<AllocFailed<T>> for LineFault {
    ghost use Rattle.std.specs.Prelude.{◌≡◌};
    ghost use Rattle.replay_log.specs.declared.fault.LineFault.TheVariants.{NoMemory};

    ghost from_gives = { λ _ fault. fault ≡ NoMemory };

    fn from(_error: AllocFailed<T>) -> LineFault {
        LineFault::NoMemory
    }
}

/// Why a log is not read.
#[derive(Clone, Copy, Debug, PartialEq, Eq, Error)]
pub enum LogFault {
    /// Its first faulty line, counted from 1, and the kind of the line's first fault.
    ///
    /// | Kind | Fault |
    /// |---|---|
    /// | 1 | the last line has no line feed; found before its other faults |
    /// | 2 | the moment |
    /// | 3 | the connection |
    /// | 4 | the event's word |
    /// | 5 | the location isn't `-` or one of the directives |
    /// | 6 | an address without a colon |
    /// | 7 | an address with a colon |
    /// | 8 | a variable with its value |
    /// | 9 | a variable that was given before in the line |
    /// | 10 | a word too many |
    /// | 11 | the 131,073rd line; found before its other faults |
    /// | 12 | the key of a log of keys |
    #[error("line {line}: {}", kind_text(*kind))]
    At { line: u64, kind: u32 },
    /// There was no memory for the lines.
    #[error("no memory for the log")]
    NoMemory,
}

impl<T: Drop> From<AllocFailed<T>> for LogFault {
    ghost use Rattle.std.specs.Prelude.{◌≡◌};
    ghost use Rattle.replay_log.specs.declared.fault.LogFault.TheVariants.{NoMemory};

    ghost from_gives = { λ _ fault. fault ≡ NoMemory };

    fn from(_error: AllocFailed<T>) -> LogFault {
        LogFault::NoMemory
    }
}

impl From<AllocError> for LogFault {
    ghost use Rattle.std.specs.Prelude.{◌≡◌};
    ghost use Rattle.replay_log.specs.declared.fault.LogFault.TheVariants.{NoMemory};

    ghost from_gives = { λ _ fault. fault ≡ NoMemory };

    fn from(_error: AllocError) -> LogFault {
        LogFault::NoMemory
    }
}

/// What a kind of fault is, for people.
fn kind_text(kind: u32) -> &'static str {
    match kind {
        1 => "the last line has no line feed",
        2 => "no moment",
        3 => "no connection",
        4 => "no event",
        5 => "no location of the directives",
        6 | 7 => "no address",
        8 => "no variable with its value",
        9 => "a variable twice",
        10 => "a word too many",
        11 => "a line too many",
        12 => "no key",
        _ => "a fault of no known kind",
    }
}
