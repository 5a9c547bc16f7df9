ghost use Rattle.std.specs.Prelude.{◌≡◌, ◌<◌, ◌≤◌, ◌^◌, ◌+◌};
ghost use Rattle.made_log.specs.Draws.{generator_of, drawn, after_draw, after_line};
ghost use Rattle.made_log.specs.MadeLog.{address_of, event_of, made_line};

use rand_core::SeedableRng;
use rand_core::utils::NextWord;
use rand_pcg::Lcg64Xsh32;
use replay_log::{Event, Line};
use sqlite_items::Items;
use std::alloc::Global;
use zone_key::Vars;

/// The most ms between two lines, and one more.
const STEPS: u32 = 50;

/// The connections.
const CONNECTIONS: u32 = 64;

/// The kinds of events.
const KINDS: u32 = 8;

/// The generator of a seed.
pub(crate) fn generator_of(seed: u64) -> Lcg64Xsh32
    ensures { result ≡ generator_of seed }
{
    Lcg64Xsh32::seed_from_u64(seed)
}

/// The generator's next word.
fn draw(generator: &mut Lcg64Xsh32) -> u32
    ensures word { result ≡ drawn generator.old }
    ensures after { generator.new ≡ after_draw generator.old }
{
    generator.next_word()
}

/// The address `10.0.X.Y` of a draw.
fn address_of(draw: u32) -> [u8; 4]
    ensures { result ≡ address_of draw }
{
    [10, 0, (draw / 256 % 4) as u8, (draw % 256) as u8]
}

/// The event of a kind, from the address of a draw where it opens a request.
fn event_of(alloc: Global, kind: u32, draw: u32) -> Event
    ensures { result ≡ event_of kind draw }
{
    match kind {
        0..5 => Event::Start {
            level: Some(0),
            vars: Vars {
                address: address_of(draw),
                pairs: Items::new(alloc),
            },
        },
        5 => Event::Fail,
        _ => Event::Done,
    }
}

/// Draws the line of a number, behind this moment in ms. Each line takes four draws, whatever its event.
pub(crate) fn draw_line(alloc: Global, generator: &mut Lcg64Xsh32, number: u32, before: u64) -> Line
    requires { before < 2 ^ 42 }
    ensures line { result ≡ made_line number before generator.old }
    ensures after { generator.new ≡ after_line generator.old }
{
    let step = draw(generator) % STEPS;
    let conn = draw(generator) % CONNECTIONS;
    let kind = draw(generator) % KINDS;
    let address = draw(generator);
    Line {
        number,
        moment: before + u64::from(step),
        conn,
        event: event_of(alloc, kind, address),
    }
}
