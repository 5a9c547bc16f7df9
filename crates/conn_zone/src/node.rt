ghost use Rattle.std.specs.Prelude.{◌≡◌, ◌+◌, ◌*◌, ◌/◌, ◌<◌, ◌≤◌, length};
ghost use Rattle.zone_key.specs.Word.{key_word};
ghost use Rattle.conn_zone.specs.Layout.{count_in as count_of, Recounts, tree_at as tree_of};
ghost use Rattle.conn_zone.specs.Changes.{WritesNode};
ghost use Rattle.conn_zone.specs.Object.{IsKey};

use block_bytes::write_bytes;
use offset_tree::{Form, Tree};
use zone_key::{Key, crc32, word_of};
use zone_region::{Block, Blocks};

/// The bytes of a node before its key: an `ngx_rbtree_node_t` up to its colour, the colour, the length and the count of an
/// `ngx_http_limit_conn_node_t`.
pub const NODE_SIZE: u64 = 36;

/// The word of a node with its colour, the length of its key, its connections and the first four bytes of its key.
pub const COUNT_WORD: u64 = 4;

/// The tree of connection nodes with this context.
pub fn tree_at(context: Block) -> Tree
    ensures { result ≡ tree_of context.at }
{
    Tree {
        context,
        form: Form {
            len_at: 33,
            len_bytes: 1,
            key_at: NODE_SIZE,
        },
    }
}

/// The connections in a node's word 4.
pub fn count_in(word: u64) -> u64
    ensures { result ≡ count_of word }
{
    (word >> 16) % 65536
}

/// The word with so many connections, and else as it is.
pub fn with_count(word: u64, count: u64) -> u64
    requires { count < 65536 }
    ensures { Recounts word result count }
{
    word - count_in(word) * 65536 + count * 65536
}

/// Makes a block the node of this key with one connection. Its links and its colour are set by the tree.
pub fn write_node<B: Blocks>(blocks: &mut B, b: Block, key: &Key)
    requires key { IsKey key.now }
    requires room { 36 + length key.now ≤ 8 * length (B.words blocks.old b.at) }
    ensures node { WritesNode (B.words blocks.old) (B.words blocks.new) b.at key.now }
    ensures rest { B.rest blocks.new ≡ B.rest blocks.old }
{
    write_words(blocks, b, key.bytes(), word_of(key, 0));
}

// The same by the key's bytes, of which `first` has the first eight.
fn write_words<B: Blocks>(blocks: &mut B, b: Block, bytes: &[u8], first: u64)
    requires key { IsKey bytes.now }
    requires first { first ≡ key_word bytes.now 0 }
    requires room { 36 + length bytes.now ≤ 8 * length (B.words blocks.old b.at) }
    ensures node { WritesNode (B.words blocks.old) (B.words blocks.new) b.at bytes.now }
    ensures rest { B.rest blocks.new ≡ B.rest blocks.old }
{
    blocks.set(b, 0, u64::from(crc32(bytes)));
    blocks.set(
        b,
        COUNT_WORD,
        (first << 32) + 65536 + bytes.len() as u64 * 256,
    );
    if bytes.len() > 4 {
        write_bytes(blocks, b, COUNT_WORD + 1, &bytes[4..]);
    }
}
