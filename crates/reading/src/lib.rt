// The lines of an events text: each is examined, and its event kept as numbers.
#![tactic(auto)]

ghost use Rattle.std.specs.Prelude.{cond, ◌≡◌, eqb};
ghost use Rattle.events.specs.Event.{forms_of};
ghost use Rattle.events.specs.Read.{read_from};
ghost use Rattle.losses.specs.Treaties.{treaties_from};
ghost use Rattle.reading.specs.Examine.{CanRead, ReadIs};

use events::{form, rule};
use losses::{kept, treaties};
use refusal::{Refusal, Refused};
use text::line;
use treaty::Treaty;

// The place after the events' numbers, how many events are idle, without losses, and how many are not.
#[derive(Clone, Copy)]
pub struct Examined {
    pub end: usize,
    pub idle: usize,
    pub entered: usize,
}

// 1 for an idle event, 0 for one with losses.
fn idle_by(count: usize) -> usize
    ensures { result ≡ cond (eqb count 0) 1 0 }
{
    usize::from(count == 0)
}

// The first line at fault, where `last` is the day before the first line, or the events of all lines: the day of each
// and how many losses it has, then three numbers for each loss (T, E, g).
pub fn read(
    text: &[u8],
    register: &[Treaty],
    last: u64,
    places: &mut [u64],
) -> Result<Examined, Refused>
    requires { CanRead text.now register.now }
    ensures { ReadIs text.now places.old places.new result
        (read_from (treaties_from register.now) 1 last (forms_of text.now)) }
{
    let mut before = last;
    let mut end: usize = 0;
    let mut idle: usize = 0;
    let mut number: u64 = 0;
    let mut at: usize = 0;
    let refusal = 'lines: loop {
        if text.len() <= at {
            return Ok(Examined {
                end,
                idle,
                entered: number as usize - idle,
            });
        }
        let rest = &text[at..];
        number += 1;
        let Some((day, first)) = form::read_head(rest) else {
            break 'lines Refusal::NotAnEventForm;
        };
        let mut place = first;
        let mut count: usize = 0;
        let mut outside = rule::day_outside(day);
        let mut lacks: u64 = 0;
        let mut next = kept::losses_from(end);
        'losses: while line::stands(rest, place, b' ') {
            let Some((loss, after)) = form::read_loss(rest, place) else {
                break 'lines Refusal::NotAnEventForm;
            };
            outside += rule::loss_outside(loss);
            lacks += treaties::lacks(register, loss.treaty) as u64;
            next = kept::keep_loss(places, next, loss);
            count += 1;
            place = after;
        }
        let closed = form::closes(rest, place);
        if let Err(fault) = rule::fault(closed, outside, count, day, before, lacks) {
            break 'lines fault;
        }
        kept::keep_head(places, end, day, count);
        at = at + place + form::ENDING;
        end = next;
        before = day;
        idle += idle_by(count);
    };
    Err(refusal.at(number))
}
