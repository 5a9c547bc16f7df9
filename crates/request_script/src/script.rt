ghost use Rattle.zone_config.specs.Conditions.{IsConfig};
ghost use Rattle.request_script.specs.Progress.{HasFewServers, HasRates};

use crate::active::Active;
use crate::call::{ZoneCall, ZoneReply};
use crate::decision::Decision;
use crate::progress::{Asked, Left, Opening, Progress};
use crate::reqs::unset;
use crate::steps::{first_step, next_step};
use replay_log::Line;
use sqlite_items::Items;
use std::alloc::Global;
use std::collections::BTreeMap;
use std::mem::replace;
use zone_config::Config;
use zone_key::Vars;
use zone_outside::NoMemory;

/// What a script says next of its line.
#[derive(Debug, Drop)]
pub enum Next {
    /// This call is to be made; the line goes on with its reply.
    Ask { call: ZoneCall },
    /// This is decided of the line.
    Told { decision: Decision },
}

/// What a script is at.
#[derive(Clone, Copy, Debug)]
enum Doing {
    Between,
    Waits { conn: u32 },
    Spent,
}

/// The progress of a script that had no line yet.
fn no_progress(alloc: Global) -> Progress {
    Progress {
        opening: Opening {
            location: None,
            moment: 0,
            vars: Vars {
                address: [0; 4],
                pairs: Items::new(alloc),
            },
        },
        said: unset(),
        holds: Items::new(alloc),
        opened: Items::new(alloc),
        asked: Asked::Done,
        left: Left::Nothing,
    }
}

/// The steps of the requests of a log, or of a share of it: line by line, it says which zone is asked what, takes the
/// reply, and in the end says what is decided of the line. It keeps the active request of each connection.
#[derive(Drop)]
pub struct Script<'a> {
    alloc: Global,
    config: &'a Config,
    active: BTreeMap<u32, Active>,
    doing: Doing,
    progress: Progress,
    ghost rates: { HasRates config.now },
    ghost servers: { HasFewServers config.now },
}

impl<'a> Script<'a> {
    ghost use Rattle.std.specs.Prelude.{ℕ, ◌≡◌, MatchResult, OnOk, OnErr, IsErr};
    ghost use Rattle.request_script.specs.declared.call.ZoneReply.{ZoneReply};
    ghost use Rattle.request_script.specs.Turn.{Turn};
    ghost use Rattle.request_script.specs.Progress.{next_turn};
    ghost use Rattle.request_script.specs.Drive.{nothing_active};
    ghost use Rattle.request_script.specs.Replies.{IsInRange};
    ghost use Rattle.request_script.specs.Script.{Stage, begins, Comes, Leaves, MayAnswer, MayBegin, state_of};
    ghost use Rattle.request_script.specs.Script.Stage.{between, spent, waits};

    /// A script of this configuration, before its first line: no connection has an active request.
    pub fn new(alloc: Global, config: &'a Config) -> Script<'a>
        requires { IsConfig config.now }
        ensures { state_of result ≡ record { config = config.now; table = nothing_active; stage = between } }
    {
        Script {
            alloc,
            config,
            active: BTreeMap::new(alloc),
            doing: Doing::Between,
            progress: no_progress(alloc),
        }
    }

    /// A line begins: the first call that it asks, or the decision. Condition: no line is under way. It fails only for
    /// want of memory; the script is then spent, and both calls then answer so.
    pub fn begin(&mut self, line: &Line) -> Result<Next, NoMemory>
        requires { MayBegin (state_of self.old).stage }
        ensures value { MatchResult result (λ next. Comes (state_of self.old) (state_of self.new) line.now.conn (begins (state_of self.old) line.now) next) (λ _. (state_of self.new).stage ≡ spent) }
        ensures spent { (state_of self.old).stage ≡ spent → IsErr result }
    {
        match self.doing {
            Doing::Between => {
                self.doing = Doing::Spent;
                let active = self.active.get(&line.conn);
                let progress = &mut self.progress;
                let next = first_step(self.alloc, self.config, progress, active, line)?;
                self.goes(line.conn, &next)?;
                Ok(next)
            }
            Doing::Waits { .. } | Doing::Spent => Err(NoMemory),
        }
    }

    /// A reply comes to the call that was asked last: the next call, or the decision. Conditions: a line is under way, and
    /// the reply's numbers are in their ranges. It fails only for want of memory; the script is then spent, and both calls
    /// then answer so.
    pub fn answer(&mut self, reply: ZoneReply) -> Result<Next, NoMemory>
        requires under_way { MayAnswer (state_of self.old).stage }
        requires range { IsInRange reply }
        ensures value { MatchResult result (λ next. (conn : ℕ) (rest : ZoneReply → Turn) → (state_of self.old).stage ≡ waits conn rest → Comes (state_of self.old) (state_of self.new) conn (rest reply) next) (λ _. (state_of self.new).stage ≡ spent) }
        ensures spent { (state_of self.old).stage ≡ spent → IsErr result }
    {
        match self.doing {
            Doing::Waits { conn } => {
                self.doing = Doing::Spent;
                let next = next_step(self.alloc, self.config, &mut self.progress, reply)?;
                self.goes(conn, &next)?;
                Ok(next)
            }
            Doing::Between | Doing::Spent => Err(NoMemory),
        }
    }

    /// The line of this connection has come to a call, or to its decision.
    fn goes(&mut self, conn: u32, next: &Next) -> Result<(), NoMemory>
        ensures value { OnOk result (Comes (state_of self.old) (state_of self.new) conn (next_turn self.old.config.now self.old.progress next.now) next.now) }
        ensures kept { OnErr result (self.new.doing ≡ self.old.doing) }
    {
        match next {
            Next::Ask { .. } => self.doing = Doing::Waits { conn },
            Next::Told { .. } => {
                self.leave(conn)?;
                self.doing = Doing::Between;
            }
        }
        Ok(())
    }

    /// The line of this connection is decided: its active request is put into the table, or none.
    fn leave(&mut self, conn: u32) -> Result<(), NoMemory>
        ensures value { OnOk result (Leaves self.old self.new conn) }
        ensures kept { self.new.doing ≡ self.old.doing }
    {
        match self.progress.left {
            Left::Request { peer } => {
                let none = Items::new(self.alloc);
                let opened = replace(&mut self.progress.opened, none);
                let _ = self.active.insert(conn, Active { opened, peer })?;
            }
            Left::Nothing => {
                let _ = self.active.remove(&conn);
            }
        }
        Ok(())
    }
}
