//! What lies outside the zones: texts as lists of bytes, the numbers and the coded text in them, and the
//! devices that give and take them.
#![tactic(auto)]

mod buffered;
mod coded;
mod devices;
mod errors;
mod mem_shelf;
mod mem_sink;
mod mem_source;
mod numbers;
mod system;
mod text;
mod transfer;

pub use buffered::BufferedSink;
pub use coded::{DecodeFault, decode};
pub use devices::{Shelf, Sink, Source};
pub use errors::{Failed, NoMemory};
pub use mem_shelf::{MemFile, MemShelf};
pub use mem_sink::MemSink;
pub use mem_source::{MemSource, MemText};
pub use numbers::read_number;
pub use system::{FileShelf, FileSource, StdSink};
pub use text::Text;
pub use transfer::{ReadAnswer, WriteFault, read_all, read_named, write_all};

#[cfg(test)]
mod tests;
