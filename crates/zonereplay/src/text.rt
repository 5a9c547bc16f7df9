ghost use Rattle.std.specs.Prelude.{◌≡◌, ◌++◌, ◌<◌, ◌^◌, OnOk, IfSome};
ghost use Rattle.zonereplay.specs.OneText.{delayed_excess, reply_words, key_line};
ghost use Rattle.req_zone.specs.Amount.{IsRate};

use decision_text::{push_number, push_thousandths};
use req_zone::{Allowed, ReqReply, delay};
use std::alloc::AllocError;

/// Adds what a check by the last limit says.
fn push_reply(text: &mut Vec<u8>, rate: u64, reply: ReqReply) -> Result<(), AllocError>
    requires rate { IsRate rate }
    requires excess { delayed_excess reply < 2 ^ 52 }
    ensures { OnOk result (text.new.items ≡ text.old.items ++ reply_words rate reply) }
{
    match reply {
        ReqReply::Pass { excess } => {
            text.extend_from_slice(b" ok ")?;
            push_thousandths(text, excess)?;
            text.push(b' ')?;
            push_number(text, delay(excess, Allowed::Above { excess: 0 }, rate))
        }
        ReqReply::Busy { excess } => {
            text.extend_from_slice(b" busy ")?;
            push_thousandths(text, excess)
        }
        ReqReply::NoRoom { evicted } => {
            text.extend_from_slice(b" noroom ")?;
            push_number(text, evicted)
        }
        _ => Ok(()),
    }
}

/// Adds the line of the `number`-th key: its number and what its check says, or that there was none.
pub(crate) fn push_line(
    text: &mut Vec<u8>,
    number: u64,
    rate: u64,
    reply: Option<ReqReply>,
) -> Result<(), AllocError>
    requires rate { IsRate rate }
    requires excess { IfSome reply (λ reply. delayed_excess reply < 2 ^ 52) }
    ensures { OnOk result (text.new.items ≡ text.old.items ++ key_line number rate reply) }
{
    push_number(text, number)?;
    match reply {
        Some(reply) => push_reply(text, rate, reply)?,
        None => text.extend_from_slice(b" skip")?,
    }
    text.push(b'\n')?;
    Ok(())
}
