//! What the mirror of a bench gets.
ghost use Rattle.std.specs.Prelude.{◌≡◌};
ghost use Rattle.ledger.specs.Mirrors.{opposite};
ghost use Rattle.lives.specs.Mirrors.{mirror_event};

use crate::event::Event;
use scripts::record::Record;

// The negated count, or the count itself where `i32` has no such number.
fn opposite(count: i32) -> i32
    ensures { result ≡ opposite count }
{
    count.checked_neg().unwrap_or(count)
}

// The event as the mirror gets it.
pub(crate) fn mirrored(event: Event) -> Event
    ensures { result ≡ mirror_event event }
{
    let call = match event.call {
        Record::Step(count) => Record::Step(opposite(count)),
        other => other,
    };
    Event { call, ..event }
}
