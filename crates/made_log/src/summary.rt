ghost use Rattle.std.specs.Prelude.{◌≡◌, ◌++◌, OnOk, count_by};
ghost use Rattle.decision_text.specs.HistoryText.{with_number};
ghost use Rattle.made_log.specs.Summary.{decisions_line, is_delayed, is_gateway, is_limited, is_pass, zone_line};

use decision_text::{push_coded, push_number};
use request_script::{Decision, Outcome, ReqStatus};
use std::alloc::AllocError;
use zone_object::ZoneView;

/// Whether it is an open that passes.
fn is_pass(decision: &Decision) -> bool
    ensures { result ≡ is_pass decision.now }
{
    matches!(
        decision,
        Decision::Started {
            outcome: Outcome::Pass,
            ..
        }
    )
}

/// Whether it is an open that a limit refuses.
fn is_limited(decision: &Decision) -> bool
    ensures { result ≡ is_limited decision.now }
{
    matches!(
        decision,
        Decision::Started {
            outcome: Outcome::Limited { status: _ },
            ..
        }
    )
}

/// Whether it is an open for which there is no server.
fn is_gateway(decision: &Decision) -> bool
    ensures { result ≡ is_gateway decision.now }
{
    matches!(
        decision,
        Decision::Started {
            outcome: Outcome::Gateway,
            ..
        }
    )
}

/// Whether it is an open that a limit of requests delays.
fn is_delayed(decision: &Decision) -> bool
    ensures { result ≡ is_delayed decision.now }
{
    matches!(
        decision,
        Decision::Started {
            req: ReqStatus::Delayed,
            ..
        }
    )
}

/// How many opens pass.
fn passed(decisions: &[Decision]) -> u64
    ensures { result ≡ count_by is_pass decisions.now }
{
    decisions.iter().filter(|d| is_pass(d)).count() as u64
}

/// How many opens are delayed.
fn delayed(decisions: &[Decision]) -> u64
    ensures { result ≡ count_by is_delayed decisions.now }
{
    decisions.iter().filter(|d| is_delayed(d)).count() as u64
}

/// How many opens a limit refuses.
fn limited(decisions: &[Decision]) -> u64
    ensures { result ≡ count_by is_limited decisions.now }
{
    decisions.iter().filter(|d| is_limited(d)).count() as u64
}

/// How many opens find no server. A failure that ends with 502 isn't counted.
fn gateway(decisions: &[Decision]) -> u64
    ensures { result ≡ count_by is_gateway decisions.now }
{
    decisions.iter().filter(|d| is_gateway(d)).count() as u64
}

/// Adds a word and a number behind it.
fn push_with(text: &mut Vec<u8>, word: &[u8], number: u64) -> Result<(), AllocError>
    ensures { OnOk result (text.new.items ≡ text.old.items ++ with_number word.now number) }
{
    text.extend_from_slice(word)?;
    push_number(text, number)
}

/// Adds `made lines=L pass=A delayed=B limited=C gateway=D`: how many lines there are, how many opens pass, are delayed, are
/// refused by a limit, and find no server.
pub fn push_decisions_line(text: &mut Vec<u8>, decisions: &[Decision]) -> Result<(), AllocError>
    ensures { OnOk result (text.new.items ≡ text.old.items ++ decisions_line decisions.now) }
{
    push_with(text, b"made lines=", decisions.len() as u64)?;
    push_with(text, b" pass=", passed(decisions))?;
    push_with(text, b" delayed=", delayed(decisions))?;
    push_with(text, b" limited=", limited(decisions))?;
    push_with(text, b" gateway=", gateway(decisions))?;
    text.extend_from_slice(b"\n")?;
    Ok(())
}

/// Adds `zone NAME KIND calls=N entries=E free=F` of a zone after so many calls: its entries and its free pages. `kind` has
/// blanks around it.
pub(crate) fn push_zone_line<V: ZoneView>(
    text: &mut Vec<u8>,
    name: &[u8],
    kind: &[u8],
    calls: u64,
    zone: &V,
) -> Result<(), AllocError>
    requires { (s : V.State) × V.lays zone.now s }
    ensures { (s : V.State) → V.lays zone.now s →
        OnOk result (text.new.items ≡ text.old.items ++ zone_line name.now kind.now calls (V.entries_in s) (V.free_in s)) }
{
    text.extend_from_slice(b"zone ")?;
    push_coded(text, name)?;
    text.extend_from_slice(kind)?;
    push_with(text, b"calls=", calls)?;
    push_with(text, b" entries=", zone.entry_count())?;
    push_with(text, b" free=", zone.free_count())?;
    text.extend_from_slice(b"\n")?;
    Ok(())
}
