use sqlite_items::Items;
use zone_outside::Text;

/// A directive of nginx's configuration syntax: words, and then `;` or a block.
#[derive(Debug, Drop)]
pub struct Directive {
    /// Its words, the name first, by their values: without quotes and escapes.
    pub words: Items<Text>,
    /// The line of the first byte of its first word, counted from 1.
    pub line: u64,
    /// The directives of its block, or `None` where `;` ends it.
    pub block: Option<Items<Directive>>,
}

/// The directives of a text, in its order.
#[derive(Debug, Drop)]
pub struct Tree {
    /// The directives that stand in no block.
    pub directives: Items<Directive>,
}
