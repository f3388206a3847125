// A run: all lines of an events text are examined, then its events are booked and the statement's lines put as they
// come. Where the statement might not fit into the buffer it is measured first. Standing, events and buffer go side by
// side: a struct of what is lent to write in would make each contract say that its fields still hold the same
// references.
ghost use Rattle.std.specs.Prelude.{List, ◌≡◌, ◌*◌, ◌≤◌, length};
ghost use Rattle.refusal.specs.Refusal.{refusal_number};
ghost use Rattle.answer.specs.Outcome.{buffer_after};
ghost use Rattle.events.specs.Event.{Event};
ghost use Rattle.year.specs.Run.{run_under, run_of};
ghost use Rattle.losses.specs.Event.{events_numbers};
ghost use Rattle.engine.specs.Run.{lent_fault, ran_of, RanAs, StatedAs, RanText, RanEvents};
ghost use Rattle.engine.specs.Run.{CanState, RoomFor, CanRun, PlacesFor, EightEach, Tested};

use answer::Answer;
use booking::basis::Basis;
use booking::book;
use events::rule;
use losses::treaties::NUMBERS;
use losses::{kept, treaties};
use programme::contract::Programme;
use programme::valid;
use refusal::{Refusal, Refused};
use statement::line::Tier;
use statement::{lines, print};
use year::Standing;

// A short events text and a medium one have at most so many bytes.
const SHORT: usize = 1024;

const MEDIUM: usize = 8192;

// A loss form has at least so many bytes, and is kept as three numbers; an event's others take more bytes a number.
const LOSS_BYTES: usize = 13;

// The places for the numbers of a short events text, of a medium one, and of any.
const SHORT_PLACES: usize = kept::LOSS * SHORT / LOSS_BYTES + 1;

const MEDIUM_PLACES: usize = kept::LOSS * MEDIUM / LOSS_BYTES + 1;

const ALL_PLACES: usize = kept::LOSS * rule::EVENTS_BYTES / LOSS_BYTES + 1;

// What a run gives back: its answer, and the standing after it, which is the one lent where it is refused.
#[derive(Clone, Copy)]
pub struct Ran {
    pub answer: Answer,
    pub standing: Standing,
}

// The statement of events from a standing on, put into a buffer as far as that goes: its length. The standing is the
// one after it.
fn state(basis: &Basis, events: &[u64], standing: &mut Standing, out: &mut [u8]) -> usize
    requires { CanState basis.now standing.old events.now }
    ensures { (es : List Event) → events.now ≡ events_numbers es
        → StatedAs basis.now standing.old es out.old out.new standing.new result }
{
    let mut cessions = [0u64; NUMBERS];
    let booked = book::book(basis, events, standing, &mut cessions, out);
    let first = lines::put_treaties(out, booked.next, basis.register, &cessions);
    let second = lines::put_layers(
        out,
        first,
        Tier::Risk,
        basis.risk,
        &standing.risk,
        &standing.risk_timed,
    );
    let third = lines::put_layers(
        out,
        second,
        Tier::Cat,
        basis.cat,
        &standing.cat,
        &standing.cat_timed,
    );
    lines::put_total(out, third, booked.total)
}

// The statement of events: measured on a standing of its own, and written if it fits.
fn write_measured(
    basis: &Basis,
    events: &[u64],
    standing: &mut Standing,
    buffer: &mut [u8],
) -> Result<usize, Refused>
    requires { CanState basis.now standing.old events.now }
    ensures { (es : List Event) → events.now ≡ events_numbers es
        → RanEvents basis.now standing.old es standing.new buffer.old buffer.new result }
{
    let mut after = *standing;
    let needed = state(basis, events, &mut after, &mut buffer[..0]);
    if buffer.len() < needed {
        return Err(Refusal::BufferTooShort.at(needed as u64));
    }
    Ok(state(basis, events, standing, buffer))
}

// The same, where the statement has no more than `room` bytes whatever its numbers are: if these surely fit, it need
// not be measured first.
fn write(
    basis: &Basis,
    events: &[u64],
    room: usize,
    standing: &mut Standing,
    buffer: &mut [u8],
) -> Result<usize, Refused>
    requires { CanState basis.now standing.old events.now × RoomFor basis.now events.now room }
    ensures { (es : List Event) → events.now ≡ events_numbers es
        → RanEvents basis.now standing.old es standing.new buffer.old buffer.new result }
{
    if room <= buffer.len() {
        return Ok(state(basis, events, standing, buffer));
    }
    write_measured(basis, events, standing, buffer)
}

// A run that is past 6, 8, 28 and 9, with places for the events' numbers.
fn through(
    basis: &Basis,
    standing: &mut Standing,
    events: &[u8],
    buffer: &mut [u8],
    kept: &mut [u64],
) -> Result<usize, Refused>
    requires { CanRun basis.now standing.old events.now × PlacesFor events.now kept.old }
    ensures { RanText basis.now standing.old events.now standing.new
        buffer.old buffer.new result }
{
    let found = reading::read(events, basis.register, standing.day, kept)?;
    let rest = NUMBERS + basis.risk.len() + basis.cat.len() + 1;
    let room = lines::LONGEST_IDLE * found.idle + print::LONGEST_LINE * (found.entered + rest);
    write(basis, &kept[..found.end], room, standing, buffer)
}

// The same with so many places, so that a short text does not pay for a long one. It keeps a frame of its own for each
// number of places, so that a short text does not take the stack of a long one either.
#[inline(never)]
fn within<const PLACES: usize>(
    basis: &Basis,
    standing: &mut Standing,
    events: &[u8],
    buffer: &mut [u8],
) -> Result<usize, Refused>
    requires { CanRun basis.now standing.old events.now
        × (3 * length events.now ≤ 13 * PLACES) × (PLACES ≤ 15124) }
    ensures { RanText basis.now standing.old events.now standing.new
        buffer.old buffer.new result }
{
    let mut kept = [0u64; PLACES];
    through(basis, standing, events, buffer, &mut kept)
}

// The same with places by the text's length.
fn placed(
    basis: &Basis,
    standing: &mut Standing,
    events: &[u8],
    buffer: &mut [u8],
) -> Result<usize, Refused>
    requires { CanRun basis.now standing.old events.now }
    ensures { RanText basis.now standing.old events.now standing.new
        buffer.old buffer.new result }
{
    if events.len() <= SHORT {
        return within::<SHORT_PLACES>(basis, standing, events, buffer);
    }
    if events.len() <= MEDIUM {
        return within::<MEDIUM_PLACES>(basis, standing, events, buffer);
    }
    within::<ALL_PLACES>(basis, standing, events, buffer)
}

// What refuses a run before its scale and its text are looked at: 6, then 8.
fn lent_fault(programme: &Programme, standing: &Standing) -> Result<(), Refusal>
    ensures { refusal_number result ≡ lent_fault programme.now standing.now }
{
    if !valid::holds(programme) {
        return Err(Refusal::NotAProgramme);
    }
    if !standings::passes(programme, standing) {
        return Err(Refusal::NotAStanding);
    }
    Ok(())
}

// A run that is past 6, 8 and 28.
fn run_under(
    shares: &[u64],
    programme: &Programme,
    standing: &mut Standing,
    events: &[u8],
    buffer: &mut [u8],
) -> Result<usize, Refused>
    requires { Tested shares.now programme.now standing.old }
    ensures { RanAs (run_under shares.now programme.now standing.old events.now
        (length buffer.old)) standing.old standing.new buffer.old buffer.new result }
{
    if rule::EVENTS_BYTES < events.len() {
        return Err(Refusal::EventsTooLong.at(0));
    }
    let register = treaties::register_of(&programme.treaties);
    let basis = Basis {
        shares,
        register: &register,
        risk: &programme.risk.places[..programme.risk.count],
        cat: &programme.cat.places[..programme.cat.count],
    };
    placed(&basis, standing, events, buffer)
}

// A run with premiums by lent shares, which may hold anything.
fn run_by(
    shares: &[u64],
    programme: &Programme,
    standing: &mut Standing,
    events: &[u8],
    buffer: &mut [u8],
) -> Result<usize, Refused>
    requires { EightEach standing.old }
    ensures { RanAs (run_under shares.now programme.now standing.old events.now
        (length buffer.old)) standing.old standing.new buffer.old buffer.new result }
{
    if let Err(fault) = lent_fault(programme, standing) {
        return Err(fault.at(0));
    }
    if !scale::passes(shares) {
        return Err(Refusal::NotAScale.at(0));
    }
    run_under(shares, programme, standing, events, buffer)
}

// The same with premiums by the built-in time shares, which are known to be a scale and need no test.
fn run_built_in(
    programme: &Programme,
    standing: &mut Standing,
    events: &[u8],
    buffer: &mut [u8],
) -> Result<usize, Refused>
    requires { EightEach standing.old }
    ensures { RanAs (run_of programme.now standing.old events.now (length buffer.old))
        standing.old standing.new buffer.old buffer.new result }
{
    if let Err(fault) = lent_fault(programme, standing) {
        return Err(fault.at(0));
    }
    let shares = scale::built_in();
    run_under(&shares, programme, standing, events, buffer)
}

// Runs an events text under a programme, from a standing on, with premiums by lent shares, which may hold anything.
pub fn run_scaled(
    programme: Programme,
    standing: Standing,
    shares: &[u64],
    events: &[u8],
    buffer: &mut [u8],
) -> Ran
    ensures { (result
        ≡ ran_of
        (run_under shares.now programme standing events.now (length buffer.old))
        standing)
        × (buffer.new
        ≡ buffer_after
        (run_under shares.now programme standing events.now (length buffer.old))
        buffer.old) }
{
    let mut after = standing;
    let written = run_by(shares, &programme, &mut after, events, buffer);
    Ran {
        answer: written.into(),
        standing: after,
    }
}

// The same with premiums by the built-in time shares.
pub fn run(programme: Programme, standing: Standing, events: &[u8], buffer: &mut [u8]) -> Ran
    ensures { (result
        ≡ ran_of (run_of programme standing events.now (length buffer.old)) standing)
        × (buffer.new
        ≡ buffer_after (run_of programme standing events.now (length buffer.old))
        buffer.old) }
{
    let mut after = standing;
    let written = run_built_in(&programme, &mut after, events, buffer);
    Ran {
        answer: written.into(),
        standing: after,
    }
}
