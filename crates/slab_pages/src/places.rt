ghost use Rattle.std.specs.Prelude.{◌≡◌, ◌<◌, ◌≤◌};
ghost use Rattle.slab_pages.specs.Places.{head_count, page_limit, word_limit, byte_of, head_word, stat_word, descriptor_word};

/// The header's word `min_size`: the least size of a block, in bytes.
pub(crate) const MIN_SIZE_WORD: u64 = 2;

/// `min_shift`: the binary logarithm of the least size.
pub(crate) const MIN_SHIFT_WORD: u64 = 3;

/// `pages`: the byte offset of the first descriptor.
pub(crate) const PAGES_WORD: u64 = 4;

/// `last`: the byte offset of the end of the last descriptor.
pub(crate) const LAST_WORD: u64 = 5;

/// `free`: the first of the three words of the head of the list of free runs, which is laid out like a descriptor.
pub(crate) const FREE_WORD: u64 = 6;

/// `stats`: the byte offset of the statistics.
pub(crate) const STATS_WORD: u64 = 9;

/// `pfree`: the number of free pages.
pub(crate) const PFREE_WORD: u64 = 10;

/// `start`: the byte offset of the first page.
pub(crate) const START_WORD: u64 = 11;

/// `end`: the byte offset of the end of the zone.
pub(crate) const END_WORD: u64 = 12;

/// `log_ctx`: the byte offset of the block with the zone's name, or 0.
pub const LOG_CTX_WORD: u64 = 20;

/// `data`: the byte offset of the block with the zone's context, or 0.
pub const DATA_WORD: u64 = 23;

/// Byte offset of the head of the list of free runs, as links hold it.
pub(crate) const FREE_HEAD: u64 = 8 * FREE_WORD;

/// The number of words of the header, `ngx_slab_pool_t`.
const HEADER_WORDS: u64 = 25;

/// The number of classes, whose heads and statistics stand between the header and the descriptors.
const CLASSES: u32 = 9;

/// The byte offset of word `w`, as links hold it.
pub fn byte_offset(w: u64) -> u64
    requires { w ≤ word_limit }
    ensures { result ≡ byte_of w }
{
    8 * w
}

/// The first of the three words of the head of a class's list: slab, next and prev.
pub fn head_at(class: u32) -> u64
    requires { class ≤ head_count }
    ensures { result ≡ head_word class }
{
    HEADER_WORDS + 3 * class as u64
}

/// The first of the four words of a class's statistics: total, used, reqs and fails (`ngx_slab_stat_t`).
pub fn stat_at(class: u32) -> u64
    requires { class ≤ head_count }
    ensures { result ≡ stat_word class }
{
    head_at(CLASSES) + 4 * class as u64
}

/// The first of the three words of a page's descriptor: slab, next and prev (`ngx_slab_page_t`).
pub fn descriptor_at(page: u64) -> u64
    requires { page ≤ page_limit }
    ensures { result ≡ descriptor_word page }
{
    stat_at(CLASSES) + 3 * page
}
