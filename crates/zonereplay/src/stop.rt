/// What is wrong with the words or with a text.
#[derive(Clone, Copy, Debug, PartialEq, Eq)]
pub enum Refusal {
    /// The words are none of the forms that are built.
    Usage,
    /// A text is longer than the limit.
    TooLong,
    /// The directives can't be read: the line and the kind of the first fault of their text.
    Text { line: u64, kind: u32 },
    /// A directive breaks a rule: the line of the first one that does, and its first rule that is broken.
    Rule { line: u64, rule: u32 },
    /// The log has a fault: its first faulty line, from 1, and the kind.
    Log { line: u64, kind: u32 },
}

/// Why a command stops before it writes.
#[derive(Clone, Copy, Debug, PartialEq, Eq)]
pub enum Stop {
    /// The words or a text are refused.
    Refused(Refusal),
    /// A named file could not be opened, or a read of it failed.
    ReadFault,
    /// There was no memory.
    NoMemory,
}
