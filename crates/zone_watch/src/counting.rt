ghost use Rattle.std.specs.Prelude.{◌≡◌, ◌++◌, OnOk};
ghost use Rattle.zone_watch.specs.Counting.{one_more, with_count};

use itoa::Buffer;
use std::alloc::AllocError;

/// One more. A count at 2^64 - 1 stays.
pub(crate) fn one_more(count: u64) -> u64
    ensures { result ≡ one_more count }
{
    count.saturating_add(1)
}

/// Adds a word and a count behind it.
pub(crate) fn push_count(text: &mut Vec<u8>, word: &[u8], count: u64) -> Result<(), AllocError>
    ensures { OnOk result (text.new.items ≡ text.old.items ++ with_count word.now count) }
{
    text.extend_from_slice(word)?;
    let mut buffer = Buffer::new();
    text.extend_from_slice(buffer.format(count).as_bytes())
}
