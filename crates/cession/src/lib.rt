// The public calls: reading and writing a table, reading a time scale, opening a year, running events, by the built-in
// shares or by a scale of the client's own. Each answers every input. Each stands on the call below; a run is lent its
// standing. With C's calling convention they are in `cession_c`.
#![tactic(auto)]

ghost use Rattle.std.specs.Prelude.{◌≡◌, length};
ghost use Rattle.answer.specs.Outcome.{answer_of, buffer_after};
ghost use Rattle.scale_text.specs.Read.{read_of as readScale};
ghost use Rattle.table_text.specs.Read.{read_of};
ghost use Rattle.table_text.specs.Write.{write_of};
ghost use Rattle.year.specs.Standing.{open_of};
ghost use Rattle.year.specs.Run.{run_under, run_of, standing_after};

use answer::Answer;
use engine::run;
use programme::contract::Programme;
use scale_text::ScaleReading;
use table_text::Reading;
use year::{Opening, Standing};

// Reads a table text.
pub fn cession_read(text: &[u8]) -> Reading
    ensures { result ≡ read_of text.now }
{
    table::read(text)
}

// Writes a programme's table text into a buffer.
pub fn cession_write(programme: Programme, buffer: &mut [u8]) -> Answer
    ensures { (result ≡ answer_of (write_of programme (length buffer.old)))
        × (buffer.new
        ≡ buffer_after (write_of programme (length buffer.old)) buffer.old) }
{
    table::write(programme, buffer)
}

// Reads a scale text.
pub fn cession_read_scale(text: &[u8]) -> ScaleReading
    ensures { result ≡ readScale text.now }
{
    scale_text::read(text)
}

// Opens a year.
pub fn cession_open(programme: Programme) -> Opening
    ensures { result ≡ open_of programme }
{
    standings::open(programme)
}

// Runs an events text under a programme. The standing is lent, and the new one is left in it.
pub fn cession_run(
    programme: Programme,
    standing: &mut Standing,
    events: &[u8],
    buffer: &mut [u8],
) -> Answer
    ensures { (result
        ≡ answer_of (run_of programme standing.old events.now (length buffer.old)))
        × (standing.new
        ≡ standing_after (run_of programme standing.old events.now (length buffer.old))
        standing.old)
        × (buffer.new
        ≡ buffer_after (run_of programme standing.old events.now (length buffer.old))
        buffer.old) }
{
    let lent = *standing;
    let ran = run::run(programme, lent, events, buffer);
    *standing = ran.standing;
    ran.answer
}

// The same by a lent scale: the shares of the days 1 to 366.
pub fn cession_run_scaled(
    programme: Programme,
    standing: &mut Standing,
    scale: &[u64],
    events: &[u8],
    buffer: &mut [u8],
) -> Answer
    ensures { (result
        ≡ answer_of
        (run_under scale.now programme standing.old events.now
        (length buffer.old)))
        × (standing.new
        ≡ standing_after
        (run_under scale.now programme standing.old events.now
        (length buffer.old))
        standing.old)
        × (buffer.new
        ≡ buffer_after
        (run_under scale.now programme standing.old events.now
        (length buffer.old))
        buffer.old) }
{
    let lent = *standing;
    let ran = run::run_scaled(programme, lent, scale, events, buffer);
    *standing = ran.standing;
    ran.answer
}
