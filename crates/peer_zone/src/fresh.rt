ghost use Rattle.std.specs.Prelude.{◌≡◌, ◌≢◌, ℕ, ◌+◌, ◌/◌, ◌≤◌, length};
ghost use Rattle.peer_zone.specs.Records.{fresh_record};
ghost use Rattle.peer_zone.specs.Words.{HoldsRecord};
ghost use Rattle.peer_zone.specs.Layout.{HoldsList, HoldsContext, word_of_method};
ghost use Rattle.peer_zone.specs.Placing.{ChangesBlock};

use crate::calls::{Method, Server};
use crate::writing::write_words;
use block_bytes::write_bytes;
use zone_region::{Block, Blocks};

/// The word of a record from which on its address stands.
const ADDRESS: u64 = 13;

/// Makes a block hold the record of a server that has had no request; the next record of its list is at `next`, or there
/// is none where that is 0 (`ngx_http_upstream_rr_peer_t`).
pub(crate) fn write_record<B: Blocks>(blocks: &mut B, b: Block, next: u64, server: &Server)
    requires { 13 + (length server.now.address + 7) / 8 ≤ length (B.words blocks.old b.at) }
    ensures held { HoldsRecord (B.words blocks.new) b.at next (fresh_record server.now) }
    ensures changes { ChangesBlock (B.words blocks.old) (B.words blocks.new) b.at }
    ensures rest { B.rest blocks.new ≡ B.rest blocks.old }
{
    let address = server.address.bytes();
    let words = [
        next,
        server.weight,
        server.weight,
        0,
        0,
        server.max_conns,
        0,
        server.max_fails,
        server.fail_timeout,
        0,
        0,
        u64::from(server.down),
        address.len() as u64,
    ];
    write_words(blocks, b, 0, &words);
    write_bytes(blocks, b, ADDRESS, address);
}

/// Makes a block head a list of so many records, of which the first is at `first` (`ngx_http_upstream_rr_peers_t`).
pub(crate) fn write_list<B: Blocks>(
    blocks: &mut B,
    b: Block,
    first: u64,
    servers: u64,
    single: bool,
)
    requires { 8 ≤ length (B.words blocks.old b.at) }
    ensures held { HoldsList (B.words blocks.new) b.at first servers single }
    ensures changes { ChangesBlock (B.words blocks.old) (B.words blocks.new) b.at }
    ensures rest { B.rest blocks.new ≡ B.rest blocks.old }
{
    let words = [first, servers, u64::from(single), 0, 0, 0, 0, 0];
    write_words(blocks, b, 0, &words);
}

/// A method as a word.
fn method_word(method: Method) -> u64
    ensures { result ≡ word_of_method method }
{
    match method {
        Method::Round => 0,
        Method::Least => 1,
    }
}

/// Makes a block be a zone's context, with the offsets of the blocks that head its lists; 0 stands for no backup list.
pub(crate) fn write_context<B: Blocks>(
    blocks: &mut B,
    b: Block,
    primary: u64,
    backup: u64,
    method: Method,
)
    requires { 8 ≤ length (B.words blocks.old b.at) }
    ensures held { HoldsContext (B.words blocks.new) b.at primary backup method }
    ensures changes { ChangesBlock (B.words blocks.old) (B.words blocks.new) b.at }
    ensures rest { B.rest blocks.new ≡ B.rest blocks.old }
{
    let words = [primary, backup, method_word(method), 0, 0, 0, 0, 0];
    write_words(blocks, b, 0, &words);
}
