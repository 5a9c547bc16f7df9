use zone_outside::Text;

/// What a place of a text says.
#[derive(Debug, Drop)]
pub(crate) enum Symbol {
    /// A word, by its value.
    Word(Text),
    /// `;`
    Semicolon,
    /// `{`
    Opening,
    /// `}`
    Closing,
    /// A byte that may not follow a closing quote.
    Misplaced,
    /// The end of the text.
    End,
}

/// A symbol with the line of its first byte, counted from 1.
#[derive(Debug, Drop)]
pub(crate) struct PlacedSymbol {
    /// The line.
    pub line: u64,
    /// The symbol.
    pub symbol: Symbol,
}
