// The rules of an event form's numbers.
ghost use Rattle.std.specs.Prelude.{cond, ◌≡◌, ◌≤◌};
ghost use Rattle.programme.specs.Ranges.{outside};
ghost use Rattle.refusal.specs.Refusal.{refusal_number};
ghost use Rattle.events.specs.Rules.{loss_outside, lowest_fault};

use programme::range;
use refusal::Refusal;
use treaty::Loss;

// The longest events text that is examined, in bytes.
pub const EVENTS_BYTES: usize = 65536;

// The last day of a year.
pub const LAST_DAY: u64 = 366;

// The most losses of an event.
pub const LOSSES: usize = 64;

// 1 for a day outside its range, 0 for one within it.
pub fn day_outside(day: u64) -> u64
    ensures { (result ≡ outside 1 366 day) × (result ≤ 1) }
{
    range::outside(1, LAST_DAY, day)
}

// How many numbers of a loss form are outside their range.
pub fn loss_outside(loss: Loss) -> u64
    ensures { (result ≡ loss_outside loss) × (result ≤ 3) }
{
    range::outside(0, range::TREATIES, loss.treaty)
        + range::outside(1, range::AMOUNT, loss.maximum)
        + range::outside(0, range::AMOUNT, loss.amount)
}

// The lowest fault of an event form, if it has one.
fn event_fault(out: u64, count: usize, day: u64, before: u64, lacks: u64) -> Result<(), Refusal>
    ensures { refusal_number result ≡ lowest_fault out count day before lacks }
{
    if 0 < out {
        return Err(Refusal::EventNumberOutOfRange);
    }
    if LOSSES < count {
        return Err(Refusal::TooManyLosses);
    }
    if day < before {
        return Err(Refusal::DayGoesBack);
    }
    if 0 < lacks {
        return Err(Refusal::NoSuchTreaty);
    }
    Ok(())
}

// The lowest fault of a line that begins as an event form, if it has one: 10 where its loss forms are not closed; then
// by how many of its numbers are outside their range, how many losses it has, its day and the day before it, and how
// many of its losses name a treaty that the table lacks.
pub fn fault(
    closed: bool,
    out: u64,
    count: usize,
    day: u64,
    before: u64,
    lacks: u64,
) -> Result<(), Refusal>
    ensures { refusal_number result ≡ cond closed (lowest_fault out count day before lacks) 10 }
{
    if closed {
        return event_fault(out, count, day, before, lacks);
    }
    Err(Refusal::NotAnEventForm)
}
