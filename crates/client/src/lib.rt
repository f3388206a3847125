// A client of the public calls alone. It reads and writes the table of H1, opens its year and runs its event, does so
// with a table that charges by amount and time, by the built-in shares and by a scale of its own, and makes calls that
// are turned down. What each answers and leaves is typed out, and follows from the calls' contracts.
#![tactic(auto)]

ghost use Rattle.std.specs.Prelude.{◌≡◌, [], ◌∷◌, ◌++◌, length, replicate};
ghost use Rattle.text.specs.Bytes.{bytes};
ghost use Rattle.answer.specs.Outcome.{buffer_after};
ghost use Rattle.scale.specs.Scale.{time_shares};
ghost use Rattle.scale_text.specs.Days.{scale_text_of};
ghost use Rattle.year.specs.Run.{run_under, run_of};
ghost use Rattle.client.specs.After.{after_of};
ghost use Rattle.client.specs.Sidney.{no_programme, opened, table_text_of, events_text, statement, sidney};
ghost use Rattle.client.specs.Sidney.{unused_place, afterwards, over_the_whole};
ghost use Rattle.client.specs.Timed.{timed_table, timed_events, timed_statement, timed, charged, overcharged};
ghost use Rattle.client.specs.Scaled.{steps, too_few_shares, rising_text, scaled_statement, scaled_standing};

use answer::Answer;
use programme::contract::Programme;
use scale_text::ScaleReading;
use table_text::Reading;
use year::{Opening, Standing};

// What a run answers, and the standing that it leaves: the engine has such a struct, and a client of the public calls
// does not know it.
#[derive(Clone, Copy)]
pub struct After {
    pub answer: Answer,
    pub standing: Standing,
}

// A run that is lent a standing of the client's own.
pub fn run_lent(programme: Programme, standing: Standing, events: &[u8], buffer: &mut [u8]) -> After
    ensures { (result
        ≡ after_of (run_of programme standing events.now (length buffer.old)) standing)
        × (buffer.new
        ≡ buffer_after (run_of programme standing events.now (length buffer.old))
        buffer.old) }
{
    let mut lent = standing;
    let answer = cession::cession_run(programme, &mut lent, events, buffer);
    After {
        answer,
        standing: lent,
    }
}

// The table of H1: no refusal, no line, and its programme place by place.
pub fn read_sidney(table: &[u8]) -> Reading
    requires { table.now ≡ table_text_of }
    ensures { result ≡ record { refusal = 0; line = 0; programme = sidney } }
{
    cession::cession_read(table)
}

// Its year: no refusal, and the standing of a fresh year.
pub fn open_sidney(programme: Programme) -> Opening
    requires { programme ≡ sidney }
    ensures { result ≡ record { refusal = 0; number = 0; standing = opened } }
{
    cession::cession_open(programme)
}

// The table read, a year opened, the event run: the statement stands in the buffer before its last byte.
pub fn run_sidney(table: &[u8], events: &[u8], buffer: &mut [u8]) -> After
    requires { (table.now ≡ table_text_of) × (events.now ≡ events_text) × (buffer.old ≡ replicate 444 35) }
    ensures { (result ≡ record { answer = record { refusal = 0; number = 443 }; standing = afterwards })
        × (buffer.new ≡ statement ++ (35 ∷ [])) }
{
    let reading = read_sidney(table);
    let opening = open_sidney(reading.programme);
    run_lent(reading.programme, opening.standing, events, buffer)
}

// Day 367 after it: 11 at line 1, and standing and buffer as lent.
pub fn run_refused(
    programme: Programme,
    standing: Standing,
    events: &[u8],
    buffer: &mut [u8],
) -> After
    requires { (programme ≡ sidney) × (standing ≡ afterwards) × (events.now ≡ bytes "(event 367)\n") }
    ensures { (result ≡ record { answer = record { refusal = 11; number = 1 }; standing = standing })
        × (buffer.new ≡ buffer.old) }
{
    run_lent(programme, standing, events, buffer)
}

// The table read and written again, into a buffer with three bytes more.
pub fn write_sidney(table: &[u8], buffer: &mut [u8]) -> Answer
    requires { (table.now ≡ table_text_of) × (buffer.old ≡ replicate 241 35) }
    ensures { (result ≡ record { refusal = 0; number = 238 })
        × (buffer.new ≡ table_text_of ++ (35 ∷ 35 ∷ 35 ∷ [])) }
{
    let reading = read_sidney(table);
    cession::cession_write(reading.programme, buffer)
}

// A buffer that is one byte short: 7 and the length needed, and the buffer as lent.
pub fn write_refused(programme: Programme, buffer: &mut [u8]) -> Answer
    requires { (programme ≡ sidney) × (length buffer.old ≡ 237) }
    ensures { (result ≡ record { refusal = 7; number = 238 }) × (buffer.new ≡ buffer.old) }
{
    cession::cession_write(programme, buffer)
}

// A share over the whole in the second line: 3, the line, and the programme without contracts.
pub fn read_refused(table: &[u8]) -> Reading
    requires { table.now ≡ over_the_whole }
    ensures { result ≡ record { refusal = 3; line = 2; programme = no_programme } }
{
    cession::cession_read(table)
}

// A programme with a number other than 0 in an unused place: 6, and the standing of a fresh year.
pub fn open_refused(programme: Programme) -> Opening
    requires { programme ≡ unused_place }
    ensures { result ≡ record { refusal = 6; number = 0; standing = opened } }
{
    cession::cession_open(programme)
}

// A table with (time), read, its year opened and its event run: the premium is that of the days left, in the statement
// and in the standing.
pub fn run_timed(table: &[u8], events: &[u8], buffer: &mut [u8]) -> After
    requires { (table.now ≡ timed_table) × (events.now ≡ timed_events) × (buffer.old ≡ replicate 243 35) }
    ensures { (result ≡ record { answer = record { refusal = 0; number = 242 }; standing = charged })
        × (buffer.new ≡ timed_statement ++ (35 ∷ [])) }
{
    let reading = cession::cession_read(table);
    let opening = cession::cession_open(reading.programme);
    run_lent(reading.programme, opening.standing, events, buffer)
}

// A standing with a timed premium above the layer's amount premium: 8, and standing and buffer as lent.
pub fn run_overcharged(
    programme: Programme,
    standing: Standing,
    events: &[u8],
    buffer: &mut [u8],
) -> After
    requires { (programme ≡ timed) × (standing ≡ overcharged) }
    ensures { (result ≡ record { answer = record { refusal = 8; number = 0 }; standing = standing })
        × (buffer.new ≡ buffer.old) }
{
    run_lent(programme, standing, events, buffer)
}

// A run by a lent scale that is lent a standing of the client's own.
pub fn run_scaled(
    programme: Programme,
    standing: Standing,
    scale: &[u64],
    events: &[u8],
    buffer: &mut [u8],
) -> After
    ensures { (result
        ≡ after_of
        (run_under scale.now programme standing events.now (length buffer.old))
        standing)
        × (buffer.new
        ≡ buffer_after
        (run_under scale.now programme standing events.now (length buffer.old))
        buffer.old) }
{
    let mut lent = standing;
    let answer = cession::cession_run_scaled(programme, &mut lent, scale, events, buffer);
    After {
        answer,
        standing: lent,
    }
}

// A scale in three steps: no refusal, no line, and its shares day by day.
pub fn read_steps(text: &[u8]) -> ScaleReading
    requires { text.now ≡ scale_text_of steps }
    ensures { result ≡ record { refusal = 0; line = 0; scale = record { shares = steps } } }
{
    cession::cession_read_scale(text)
}

// A share that rises on line 2: 30, the line, and every share 0.
pub fn read_rising(text: &[u8]) -> ScaleReading
    requires { text.now ≡ rising_text }
    ensures { result ≡ record { refusal = 30; line = 2; scale = record { shares = replicate 366 0 } } }
{
    cession::cession_read_scale(text)
}

// The table with (time) and the scale in steps read, the year opened and the event run by that scale.
pub fn run_steps(table: &[u8], scale: &[u8], events: &[u8], buffer: &mut [u8]) -> After
    requires { (table.now ≡ timed_table) × (scale.now ≡ scale_text_of steps) × (events.now ≡ timed_events)
        × (buffer.old ≡ replicate 246 35) }
    ensures { (result ≡ record { answer = record { refusal = 0; number = 245 }; standing = scaled_standing })
        × (buffer.new ≡ scaled_statement ++ (35 ∷ [])) }
{
    let reading = cession::cession_read(table);
    let opening = cession::cession_open(reading.programme);
    let found = read_steps(scale);
    let read = found.scale;
    let shares = read.shares;
    run_scaled(reading.programme, opening.standing, &shares, events, buffer)
}

// 365 shares under a table without (time): 28, and standing and buffer as lent.
pub fn run_too_few(
    programme: Programme,
    standing: Standing,
    scale: &[u64],
    events: &[u8],
    buffer: &mut [u8],
) -> After
    requires { (programme ≡ sidney) × (standing ≡ afterwards) × (scale.now ≡ too_few_shares) }
    ensures { (result ≡ record { answer = record { refusal = 28; number = 0 }; standing = standing })
        × (buffer.new ≡ buffer.old) }
{
    run_scaled(programme, standing, scale, events, buffer)
}

// The built-in shares lent as a scale: what the run without one comes to, for every input.
pub fn run_built_in(
    programme: Programme,
    standing: Standing,
    scale: &[u64],
    events: &[u8],
    buffer: &mut [u8],
) -> After
    requires { scale.now ≡ time_shares }
    ensures { (result
        ≡ after_of (run_of programme standing events.now (length buffer.old)) standing)
        × (buffer.new
        ≡ buffer_after (run_of programme standing events.now (length buffer.old))
        buffer.old) }
{
    run_scaled(programme, standing, scale, events, buffer)
}
