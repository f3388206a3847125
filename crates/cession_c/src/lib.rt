// The public calls of `cession` with C's calling convention: each calls the one of its name and says what that says.
#![tactic(auto)]

ghost use Rattle.std.specs.Prelude.{◌≡◌, length};
ghost use Rattle.answer.specs.Outcome.{answer_of, buffer_after};
ghost use Rattle.scale_text.specs.Read.{read_of as readScale};
ghost use Rattle.table_text.specs.Read.{read_of};
ghost use Rattle.table_text.specs.Write.{write_of};
ghost use Rattle.year.specs.Standing.{open_of};
ghost use Rattle.year.specs.Run.{run_under, run_of, standing_after};

use answer::Answer;
use programme::contract::Programme;
use scale_text::ScaleReading;
use table_text::Reading;
use year::{Opening, Standing};

// Reads a table text.
#[unsafe(no_mangle)]
pub extern "C" fn cession_read(text: &[u8]) -> Reading
    ensures { result ≡ read_of text.now }
{
    cession::cession_read(text)
}

// Writes a programme's table text into a buffer.
#[unsafe(no_mangle)]
pub extern "C" fn cession_write(programme: Programme, buffer: &mut [u8]) -> Answer
    ensures { (result ≡ answer_of (write_of programme (length buffer.old)))
        × (buffer.new
        ≡ buffer_after (write_of programme (length buffer.old)) buffer.old) }
{
    cession::cession_write(programme, buffer)
}

// Reads a scale text.
#[unsafe(no_mangle)]
pub extern "C" fn cession_read_scale(text: &[u8]) -> ScaleReading
    ensures { result ≡ readScale text.now }
{
    cession::cession_read_scale(text)
}

// Opens a year.
#[unsafe(no_mangle)]
pub extern "C" fn cession_open(programme: Programme) -> Opening
    ensures { result ≡ open_of programme }
{
    cession::cession_open(programme)
}

// Runs an events text under a programme. The standing is lent, and the new one is left in it.
#[unsafe(no_mangle)]
pub extern "C" fn cession_run(
    programme: Programme,
    standing: &mut Standing,
    events: &[u8],
    buffer: &mut [u8],
) -> Answer
    ensures { (result
        ≡ answer_of (run_of programme standing.old events.now (length buffer.old)))
        × (standing.new
        ≡ standing_after (run_of programme standing.old events.now (length buffer.old))
        standing.old)
        × (buffer.new
        ≡ buffer_after (run_of programme standing.old events.now (length buffer.old))
        buffer.old) }
{
    cession::cession_run(programme, standing, events, buffer)
}

// The same by a lent scale: the shares of the days 1 to 366.
#[unsafe(no_mangle)]
pub extern "C" fn cession_run_scaled(
    programme: Programme,
    standing: &mut Standing,
    scale: &[u64],
    events: &[u8],
    buffer: &mut [u8],
) -> Answer
    ensures { (result
        ≡ answer_of
        (run_under scale.now programme standing.old events.now
        (length buffer.old)))
        × (standing.new
        ≡ standing_after
        (run_under scale.now programme standing.old events.now
        (length buffer.old))
        standing.old)
        × (buffer.new
        ≡ buffer_after
        (run_under scale.now programme standing.old events.now
        (length buffer.old))
        buffer.old) }
{
    cession::cession_run_scaled(programme, standing, scale, events, buffer)
}
