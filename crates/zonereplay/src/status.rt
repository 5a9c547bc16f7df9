ghost use Rattle.std.specs.Prelude.{◌≡◌};
ghost use Rattle.zonereplay.specs.Statuses.{code_of};

/// How a command ended.
#[derive(Clone, Copy, Debug, PartialEq, Eq)]
pub enum Status {
    /// The job is done, and standard output took all its text.
    Done = 0,
    /// The words are none of the forms that are built.
    Usage = 1,
    /// The configuration has a fault.
    ConfigFault = 2,
    /// The log has a fault.
    LogFault = 3,
    /// A named file could not be opened or read.
    ReadFault = 4,
    /// A write failed.
    WriteFault = 5,
    /// A text that is read is longer than the limit.
    TooLong = 6,
    /// There was no memory, and nothing was written.
    NoMemory = 7,
}

impl Status {
    /// The number with which the program ends.
    pub fn code(self) -> u8
        ensures { result ≡ code_of self }
    {
        self as u8
    }
}
