// The events of a run booked one after another, and the line of each put as it is booked.
ghost use Rattle.std.specs.Prelude.{List, [], ◌∷◌, ◌≡◌};
ghost use Rattle.events.specs.Event.{Event};
ghost use Rattle.year.specs.Statement.{added};
ghost use Rattle.losses.specs.Cede.{losses_from};
ghost use Rattle.losses.specs.Event.{events_numbers};
ghost use Rattle.booking.specs.Book.{CanEnterEvent, EventEntered, RoomForMore, CanBookEvents, EventsBooked};

use crate::basis::Basis;
use events::rule;
use losses::{event, kept};
use standings::tier;
use statement::lines;
use year::{Amounts, Standing};

// After all events: their amounts, added, and the place after their lines.
#[derive(Clone, Copy)]
pub struct Booked {
    pub total: Amounts,
    pub next: usize,
}

// The totals with the amounts of an event more: not `Add`, whose trait asks nothing, while the sums must fit a word.
fn total_with(total: Amounts, event: Amounts) -> Amounts
    requires { RoomForMore total × RoomForMore event }
    ensures { result ≡ added (total ∷ event ∷ []) }
{
    Amounts {
        gross: total.gross + event.gross,
        ceded: total.ceded + event.ceded,
        risk: total.risk + event.risk,
        cat: total.cat + event.cat,
        net: total.net + event.net,
        premium: total.premium + event.premium,
    }
}

// What an event comes to. What the standing holds of the layers is that after it, and what each treaty cedes is added
// to its place of `cessions`.
fn enter(
    basis: &Basis,
    day: u64,
    losses: &[u64],
    standing: &mut Standing,
    cessions: &mut [u64],
) -> Amounts
    requires { CanEnterEvent basis.now losses.now standing.old cessions.old }
    ensures { EventEntered basis.now standing.old
        (record { day = day; losses = losses_from losses.now })
        standing.new cessions.old cessions.new result }
{
    let share = scale::share_on(basis.shares, day);
    let mut left = [0u64; rule::LOSSES];
    let treaties = event::cede_each(basis.register, losses, &mut left, cessions);
    let count = kept::count(losses);
    let risk = tier::bear(
        basis.risk,
        &mut standing.risk,
        &mut standing.risk_timed,
        share,
        &left[..count],
    );
    let by_risk = risk.recovered.cents();
    let subject = treaties.gross - treaties.ceded - by_risk;
    let cat = tier::bear(
        basis.cat,
        &mut standing.cat,
        &mut standing.cat_timed,
        share,
        &[subject],
    );
    let by_cat = cat.recovered.cents();
    let premium = risk.premium.cents() + cat.premium.cents();
    Amounts {
        gross: treaties.gross,
        ceded: treaties.ceded,
        risk: by_risk,
        cat: by_cat,
        net: subject - by_cat,
        premium,
    }
}

// Books the events, three numbers for each loss (T, E, g) after the event's day and the count of its losses, with
// premiums by the day's share. The standing goes on from the one lent, what each treaty cedes in all is left in its
// place of `cessions`, which are 0 before, and the lines are put from the front of `out`. An event without losses moves
// nothing but the day.
pub fn book(
    basis: &Basis,
    events: &[u64],
    standing: &mut Standing,
    cessions: &mut [u64],
    out: &mut [u8],
) -> Booked
    requires { CanBookEvents basis.now events.now standing.old cessions.old }
    ensures { (es : List Event) → events.now ≡ events_numbers es
        → EventsBooked basis.now standing.old es out.old out.new
        standing.new cessions.new result }
{
    let mut total = Amounts::none();
    let mut next: usize = 0;
    let mut at: usize = 0;
    // An event's losses say how many numbers it has, so that no slice of equal parts goes over them.
    while at < events.len() {
        let count = kept::count_at(events, at);
        let begin = kept::losses_from(at);
        let day = kept::day_at(events, at);
        at = kept::losses_end(begin, count);
        if count == 0 {
            next = lines::put_idle(out, next, day);
        } else {
            let amounts = enter(basis, day, &events[begin..at], standing, cessions);
            total = total_with(total, amounts);
            next = lines::put_event(out, next, day, amounts);
        }
        standing.day = day;
    }
    Booked { total, next }
}
