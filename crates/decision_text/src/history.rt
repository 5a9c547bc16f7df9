ghost use Rattle.std.specs.Prelude.{◌≡◌, ◌++◌, OnOk, codes, decimal};
ghost use Rattle.decision_text.specs.HistoryText.{zone_head, with_number, entry_line, req_call_words, req_reply_words, conn_call_words, conn_reply_words, peer_call_words, peer_reply_words};

use crate::coding::push_coded;
use crate::hexadecimal::{push_hex_bytes, push_hex_word};
use crate::numbers::{push_number, push_with};
use conn_zone::{ConnCall, ConnReply};
use peer_zone::{PeerCall, PeerReply};
use req_zone::{ReqCall, ReqReply};
use std::alloc::{AllocError, Global};

/// Adds the line with which the history of a zone begins, `zone NAME KIND calls=N`. `kind` has blanks around it.
pub fn push_zone_head(
    text: &mut Vec<u8>,
    name: &[u8],
    kind: &[u8],
    calls: u64,
) -> Result<(), AllocError>
    ensures { OnOk result (text.new.items ≡ text.old.items ++ zone_head name.now kind.now calls) }
{
    text.extend_from_slice(b"zone ")?;
    push_coded(text, name)?;
    text.extend_from_slice(kind)?;
    text.extend_from_slice(b"calls=")?;
    push_number(text, calls)?;
    text.push(b'\n')?;
    Ok(())
}

/// Adds the place of an entry and the worker that made its call.
fn push_place(text: &mut Vec<u8>, place: u64, worker: u32) -> Result<(), AllocError>
    ensures { OnOk result (text.new.items ≡ text.old.items ++ with_number (decimal place ++ codes " ") worker) }
{
    push_number(text, place)?;
    push_with(text, b" ", u64::from(worker))
}

// ---- request zones

/// Adds a blank and what was asked.
fn push_req_call(alloc: Global, text: &mut Vec<u8>, call: &ReqCall) -> Result<(), AllocError>
    ensures { OnOk result (text.new.items ≡ text.old.items ++ (codes " " ++ req_call_words call.now)) }
{
    match call {
        ReqCall::Check {
            key,
            now,
            burst,
            last,
        } => {
            text.extend_from_slice(b" check ")?;
            push_hex_bytes(alloc, text, key.bytes())?;
            push_with(text, b" ", *now)?;
            push_with(text, b" ", *burst)?;
            text.extend_from_slice(if *last { b" 1" } else { b" 0" })
        }
        ReqCall::Account { at, now } => {
            push_with(text, b" account ", *at)?;
            push_with(text, b" ", *now)
        }
        ReqCall::Release { at } => push_with(text, b" release ", *at),
    }
}

fn push_req_reply(text: &mut Vec<u8>, reply: ReqReply) -> Result<(), AllocError>
    ensures { OnOk result (text.new.items ≡ text.old.items ++ req_reply_words reply) }
{
    match reply {
        ReqReply::Pass { excess } => push_with(text, b" ok ", excess),
        ReqReply::Again { excess, at } => {
            push_with(text, b" again ", excess)?;
            push_with(text, b" ", at)
        }
        ReqReply::Busy { excess } => push_with(text, b" busy ", excess),
        ReqReply::NoRoom { evicted } => push_with(text, b" noroom ", evicted),
        ReqReply::Accounted { excess } => push_with(text, b" accounted ", excess),
        ReqReply::Released => text.extend_from_slice(b" released"),
    }
}

/// Adds the line of a request zone's call: its place in the history, from 1, the worker that made it, the call and its
/// answer.
pub fn push_req_entry(
    alloc: Global,
    text: &mut Vec<u8>,
    place: u64,
    worker: u32,
    call: &ReqCall,
    reply: ReqReply,
) -> Result<(), AllocError>
    ensures { OnOk result (text.new.items ≡ text.old.items ++ entry_line place worker (req_call_words call.now) (req_reply_words reply)) }
{
    push_place(text, place, worker)?;
    push_req_call(alloc, text, call)?;
    push_req_reply(text, reply)?;
    text.push(b'\n')?;
    Ok(())
}

// ---- connection zones

/// Adds a blank and what was asked.
fn push_conn_call(alloc: Global, text: &mut Vec<u8>, call: &ConnCall) -> Result<(), AllocError>
    ensures { OnOk result (text.new.items ≡ text.old.items ++ (codes " " ++ conn_call_words call.now)) }
{
    match call {
        ConnCall::Open { key, limit } => {
            text.extend_from_slice(b" open ")?;
            push_hex_bytes(alloc, text, key.bytes())?;
            push_with(text, b" ", *limit)
        }
        ConnCall::Close { at } => push_with(text, b" close ", *at),
    }
}

fn push_conn_reply(text: &mut Vec<u8>, reply: ConnReply) -> Result<(), AllocError>
    ensures { OnOk result (text.new.items ≡ text.old.items ++ conn_reply_words reply) }
{
    match reply {
        ConnReply::Opened { at, count } => {
            push_with(text, b" opened ", at)?;
            push_with(text, b" ", count)
        }
        ConnReply::AtLimit { count } => push_with(text, b" atlimit ", count),
        ConnReply::NoRoom => text.extend_from_slice(b" noroom"),
        ConnReply::Closed { count } => push_with(text, b" closed ", count),
    }
}

/// Adds the line of a connection zone's call: its place in the history, from 1, the worker that made it, the call and its
/// answer.
pub fn push_conn_entry(
    alloc: Global,
    text: &mut Vec<u8>,
    place: u64,
    worker: u32,
    call: &ConnCall,
    reply: ConnReply,
) -> Result<(), AllocError>
    ensures { OnOk result (text.new.items ≡ text.old.items ++ entry_line place worker (conn_call_words call.now) (conn_reply_words reply)) }
{
    push_place(text, place, worker)?;
    push_conn_call(alloc, text, call)?;
    push_conn_reply(text, reply)?;
    text.push(b'\n')?;
    Ok(())
}

// ---- upstream zones

/// Adds a blank and what was asked.
fn push_peer_call(alloc: Global, text: &mut Vec<u8>, call: &PeerCall) -> Result<(), AllocError>
    ensures { OnOk result (text.new.items ≡ text.old.items ++ (codes " " ++ peer_call_words call.now)) }
{
    match call {
        PeerCall::Choose { list, tried, now } => {
            push_with(text, b" choose ", u64::from(*list))?;
            text.push(b' ')?;
            push_hex_word(alloc, text, *tried)?;
            push_with(text, b" ", *now)
        }
        PeerCall::Free {
            list,
            index,
            failed,
            now,
        } => {
            push_with(text, b" free ", u64::from(*list))?;
            push_with(text, b" ", u64::from(*index))?;
            text.extend_from_slice(if *failed { b" failed" } else { b" good" })?;
            push_with(text, b" ", *now)
        }
    }
}

fn push_peer_reply(text: &mut Vec<u8>, reply: PeerReply) -> Result<(), AllocError>
    ensures { OnOk result (text.new.items ≡ text.old.items ++ peer_reply_words reply) }
{
    match reply {
        PeerReply::Peer { index } => push_with(text, b" peer ", u64::from(index)),
        PeerReply::NoPeer => text.extend_from_slice(b" nopeer"),
        PeerReply::Freed => text.extend_from_slice(b" freed"),
    }
}

/// Adds the line of an upstream zone's call: its place in the history, from 1, the worker that made it, the call and its
/// answer.
pub fn push_peer_entry(
    alloc: Global,
    text: &mut Vec<u8>,
    place: u64,
    worker: u32,
    call: &PeerCall,
    reply: PeerReply,
) -> Result<(), AllocError>
    ensures { OnOk result (text.new.items ≡ text.old.items ++ entry_line place worker (peer_call_words call.now) (peer_reply_words reply)) }
{
    push_place(text, place, worker)?;
    push_peer_call(alloc, text, call)?;
    push_peer_reply(text, reply)?;
    text.push(b'\n')?;
    Ok(())
}
