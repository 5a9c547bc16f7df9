use crate::counting::push_count;
use crate::{RefusedWatch, StatusWatch, Stay, Watcher, push_reports, show_all, show_and_report};
use replay_log::{Event, Line};
use request_script::{ConnStatus, Decision, Excess, Notice, Outcome, PeerAt, ReqStatus};
use std::alloc::Global;
use std::cell::Cell;
use std::test::Fail;
use zone_outside::{NoMemory, Text};

/// A watcher that leaves at its last notice, and reports how many it has seen, unless it has no memory for that.
#[derive(Debug, Drop)]
struct Patient {
    seen: u64,
    last: u64,
    has_memory: bool,
}

impl Watcher for Patient {
    ghost use Rattle.std.specs.Prelude.{◌∷◌, [], map, nat_eq, slice_index_or, if◌then◌else◌, codes};
    ghost use Rattle.zone_watch.specs.Counting.{one_more, with_count};
    ghost use Rattle.zone_watch.specs.declared.stay.Stay.TheVariants.{Keep, Leave};

    ghost watched = { λ w. record {
      rule = record {
        after = λ counts notice. map one_more counts;
        answer = λ counts notice. if nat_eq (one_more (slice_index_or counts 0 0)) w.last then Leave else Keep;
        report = λ counts. with_count (codes "seen ") (slice_index_or counts 0 0);
      };
      counts = w.seen ∷ [];
    } };

    fn see(&mut self, _notice: &Notice) -> Stay {
        self.seen = self.seen.saturating_add(1);
        if self.seen == self.last {
            Stay::Leave
        } else {
            Stay::Keep
        }
    }

    fn report(&self, alloc: Global) -> Result<Text, NoMemory> {
        if !self.has_memory {
            return Err(NoMemory);
        }
        let mut text = Vec::new(alloc);
        push_count(&mut text, b"seen ", self.seen)?;
        Ok(Text::from_vec(text))
    }
}

/// A watcher that also tells a cell how many notices it was shown, which stands when the watcher is dropped.
#[derive(Drop)]
struct Counted<'a> {
    patient: Patient,
    shown: &'a Cell<u64>,
}

impl<'a> Watcher for Counted<'a> {
    ghost watched = { λ w. ⟦<Patient as Watcher>⟧.watched w.patient };

    fn see(&mut self, notice: &Notice) -> Stay {
        self.shown.set(self.shown.get().saturating_add(1));
        self.patient.see(notice)
    }

    fn report(&self, alloc: Global) -> Result<Text, NoMemory> {
        self.patient.report(alloc)
    }
}

/// One that leaves at this notice.
fn leaving_at(last: u64) -> Patient {
    Patient {
        seen: 0,
        last,
        has_memory: true,
    }
}

/// An open that ends so, after what the limits said.
fn open(outcome: Outcome, req: ReqStatus, by: Option<u32>, conn: ConnStatus) -> Decision {
    Decision::Started {
        outcome,
        req,
        delay: 0,
        by,
        excess: Excess::Unset,
        conn,
        peer: None,
    }
}

/// The server that takes a request next.
const NEXT: PeerAt = PeerAt {
    zone: 2,
    list: 0,
    index: 1,
};

/// Adds a notice.
fn push(notices: &mut Vec<Notice>, decision: Decision) -> Result<(), NoMemory> {
    notices.push(Notice { line: 1, decision })?;
    Ok(())
}

/// What main's two watchers report of these notices.
fn reports(alloc: Global, notices: &[Notice]) -> Result<Vec<u8>, NoMemory> {
    let mut list: Vec<Box<dyn Watcher>> = Vec::new(alloc);
    list.push(Box::new(alloc, StatusWatch::new())?)?;
    list.push(Box::new(alloc, RefusedWatch::new())?)?;
    show_all(&mut list, notices);
    let mut text = Vec::new(alloc);
    push_reports(alloc, &mut text, &list)?;
    Ok(text)
}

/// Two opens pass, a server fails and another takes the request, and a request ends.
#[test]
fn tells_a_short_log(rt: HostRuntime) -> Result<(), Fail> {
    let alloc = rt.alloc();
    let mut notices = Vec::new(alloc);
    push(
        &mut notices,
        open(Outcome::Pass, ReqStatus::Passed, None, ConnStatus::Passed),
    )?;
    push(
        &mut notices,
        open(
            Outcome::Pass,
            ReqStatus::Delayed,
            Some(0),
            ConnStatus::Passed,
        ),
    )?;
    push(&mut notices, Decision::NextPeer { peer: NEXT })?;
    push(&mut notices, Decision::Ended)?;
    let text = reports(alloc, &notices)?;
    assert_eq!(rt;
        text.as_slice(),
        b"status pass=2 limited=0 gateway=0 busy=0 next=1 ended=1 idle=0\n".as_slice()
    );
    Ok(())
}

/// Each kind of decision: 502 counts at an open and at a failure, and a refusal in a dry run isn't one.
#[test]
fn tells_each_decision(rt: HostRuntime) -> Result<(), Fail> {
    let alloc = rt.alloc();
    let limited = Outcome::Limited { status: 429 };
    let mut notices = Vec::new(alloc);
    push(
        &mut notices,
        open(limited, ReqStatus::Rejected, Some(15), ConnStatus::Unset),
    )?;
    push(
        &mut notices,
        open(limited, ReqStatus::Rejected, Some(16), ConnStatus::Unset),
    )?;
    push(
        &mut notices,
        open(
            limited,
            ReqStatus::Passed,
            None,
            ConnStatus::Rejected { zone: 1 },
        ),
    )?;
    push(
        &mut notices,
        open(
            limited,
            ReqStatus::Delayed,
            Some(0),
            ConnStatus::Rejected { zone: 1 },
        ),
    )?;
    push(
        &mut notices,
        open(
            limited,
            ReqStatus::Unset,
            None,
            ConnStatus::Rejected { zone: u32::MAX },
        ),
    )?;
    push(
        &mut notices,
        open(
            Outcome::Pass,
            ReqStatus::RejectedDry,
            Some(0),
            ConnStatus::RejectedDry { zone: 1 },
        ),
    )?;
    push(
        &mut notices,
        open(
            Outcome::Gateway,
            ReqStatus::Passed,
            None,
            ConnStatus::Passed,
        ),
    )?;
    push(&mut notices, Decision::FailGateway)?;
    push(&mut notices, Decision::Busy)?;
    push(&mut notices, Decision::IdleFail)?;
    push(&mut notices, Decision::IdleDone)?;
    let text = reports(alloc, &notices)?;
    assert_eq!(rt;
        text.as_slice(),
        b"status pass=1 limited=5 gateway=2 busy=1 next=0 ended=0 idle=2\nrefused 1 2\nrefused 15 1\n".as_slice()
    );
    Ok(())
}

/// Counts at 2^64 - 1 stay.
#[test]
fn keeps_full_counts(rt: HostRuntime) -> Result<(), Fail> {
    let alloc = rt.alloc();
    let mut list: Vec<Box<dyn Watcher>> = Vec::new(alloc);
    list.push(Box::new(alloc, StatusWatch::full_of_limited())?)?;
    list.push(Box::new(alloc, RefusedWatch::full_of_last())?)?;
    let limited = Outcome::Limited { status: 503 };
    let notices = [Notice {
        line: 1,
        decision: open(limited, ReqStatus::Rejected, Some(15), ConnStatus::Unset),
    }];
    show_all(&mut list, &notices);
    let mut text = Vec::new(alloc);
    push_reports(alloc, &mut text, &list)?;
    assert_eq!(rt;
        text.as_slice(),
        b"status pass=0 limited=18446744073709551615 gateway=0 busy=0 next=0 ended=0 idle=0\nrefused 15 18446744073709551615\n".as_slice()
    );
    Ok(())
}

/// The first watcher leaves at its second notice, and has seen two; the second stays and has seen all three.
#[test]
fn shows_up_to_the_leave(rt: HostRuntime) -> Result<(), Fail> {
    let alloc = rt.alloc();
    let first = Cell::new(0);
    let second = Cell::new(0);
    let mut list = Vec::new(alloc);
    list.push(Counted {
        patient: leaving_at(2),
        shown: &first,
    })?;
    list.push(Counted {
        patient: leaving_at(9),
        shown: &second,
    })?;
    let mut notices = Vec::new(alloc);
    for _ in 0..3 {
        push(&mut notices, Decision::Ended)?;
    }
    show_all(&mut list, &notices);
    let mut text = Vec::new(alloc);
    push_reports(alloc, &mut text, &list)?;
    assert_eq!(rt; list.len(), 1);
    assert_eq!(rt; text.as_slice(), b"seen 3".as_slice());
    assert_eq!(rt; first.get(), 2);
    assert_eq!(rt; second.get(), 3);
    Ok(())
}

/// Ten thousand watchers leave at once.
#[test]
fn empties_a_long_list(rt: HostRuntime) -> Result<(), Fail> {
    let alloc = rt.alloc();
    let mut list: Vec<Box<dyn Watcher>> = Vec::new(alloc);
    for _ in 0..10_000 {
        list.push(Box::new(alloc, leaving_at(1))?)?;
    }
    let notices = [Notice {
        line: 1,
        decision: Decision::Ended,
    }];
    show_all(&mut list, &notices);
    assert_eq!(rt; list.len(), 0);
    Ok(())
}

/// Lines on which requests end, of the numbers 1 and 2.
fn two_lines(alloc: Global) -> Result<Vec<Line>, NoMemory> {
    let mut lines = Vec::new(alloc);
    for number in 1..3 {
        lines.push(Line {
            number,
            moment: 0,
            conn: 0,
            event: Event::Done,
        })?;
    }
    Ok(lines)
}

/// The reports of those that are left follow the text.
#[test]
fn reports_behind_a_text(rt: HostRuntime) -> Result<(), Fail> {
    let alloc = rt.alloc();
    let lines = two_lines(alloc)?;
    let mut list: Vec<Box<dyn Watcher>> = Vec::new(alloc);
    list.push(Box::new(alloc, leaving_at(2))?)?;
    list.push(Box::new(alloc, StatusWatch::new())?)?;
    let mut text = Vec::from_slice(alloc, b"decided\n")?;
    let decisions = [Decision::Busy, Decision::Ended];
    show_and_report(alloc, &mut text, &lines, &decisions, &mut list)?;
    assert_eq!(rt; list.len(), 1);
    assert_eq!(rt;
        text.as_slice(),
        b"decided\nstatus pass=0 limited=0 gateway=0 busy=1 next=0 ended=1 idle=0\n".as_slice()
    );
    Ok(())
}

/// A report that finds no memory: the list was shown the notices.
#[test]
fn answers_for_a_report_without_memory(rt: HostRuntime) -> Result<(), Fail> {
    let alloc = rt.alloc();
    let lines = two_lines(alloc)?;
    let poor = Patient {
        seen: 0,
        last: 9,
        has_memory: false,
    };
    let mut list: Vec<Box<dyn Watcher>> = Vec::new(alloc);
    list.push(Box::new(alloc, leaving_at(2))?)?;
    list.push(Box::new(alloc, poor)?)?;
    let mut text = Vec::new(alloc);
    let decisions = [Decision::Busy, Decision::Ended];
    let answer = show_and_report(alloc, &mut text, &lines, &decisions, &mut list);
    assert_eq!(rt; answer, Err(NoMemory));
    assert_eq!(rt; list.len(), 1);
    Ok(())
}
