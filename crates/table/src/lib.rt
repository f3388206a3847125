// Reading and writing a treaty table.
#![tactic(auto)]

ghost use Rattle.std.specs.Prelude.{Ok, Err, ◌≡◌, length, MatchResult};
ghost use Rattle.answer.specs.Outcome.{answer_of, answered, buffer_after};
ghost use Rattle.programme.specs.Contract.{no_contracts, programme_of};
ghost use Rattle.table_text.specs.Read.{reading_of, read_of};
ghost use Rattle.table_text.specs.Write.{write_of};

use answer::Answer;
use programme::contract::Programme;
use programme::rule::Before;
use programme::valid;
use refusal::{Refusal, Refused};
use table_text::Reading;
use text::line;

pub mod form;
pub mod print;

// The longest table text that is read, in bytes.
pub const TABLE_BYTES: usize = 8192;

// Puts the contracts of a text's lines into a programme without contracts, or tells the first line at fault; those of
// the lines before it stay there. The programme is lent, since a `Result` that holds one is copied with it. Line by
// line from place to place: a line's end is looked for eight bytes at a time, which the library's `split` does not do.
fn read_lines(text: &[u8], programme: &mut Programme) -> Result<(), Refused>
    requires { programme.old ≡ programme_of no_contracts }
    ensures { MatchResult result (λ _. reading_of (Ok programme.new) ≡ read_of text.now)
        (λ f. reading_of (Err f) ≡ read_of text.now) }
{
    if TABLE_BYTES < text.len() {
        return Err(Refusal::TableTooLong.at(0));
    }
    let mut before = Before::first();
    let mut number: u64 = 0;
    let mut at = 0;
    while at < text.len() {
        let end = line::end(text, at);
        number += 1;
        if end == text.len() {
            return Err(Refusal::NotATableForm.at(number));
        }
        let Some(contract) = form::read(&text[at..end]) else {
            return Err(Refusal::NotATableForm.at(number));
        };
        if let Err(refusal) = before.fault(&contract) {
            return Err(refusal.at(number));
        }
        programme.add(&contract);
        before = before.after(&contract);
        at = end + 1;
    }
    Ok(())
}

// Reads a table text. The answer's programme is filled in its place; a refusal takes the place of the whole answer.
pub fn read(text: &[u8]) -> Reading
    ensures { result ≡ read_of text.now }
{
    let mut reading = Reading {
        refusal: 0,
        line: 0,
        programme: Programme::empty(),
    };
    if let Err(refused) = read_lines(text, &mut reading.programme) {
        reading = Reading::from(Err(refused));
    }
    reading
}

// Writes a valid programme's table text and tells its length.
fn write_text(programme: &Programme, buffer: &mut [u8]) -> Result<usize, Refused>
    ensures { (answered result ≡ answer_of (write_of programme.now (length buffer.old)))
        × (buffer.new
        ≡ buffer_after (write_of programme.now (length buffer.old)) buffer.old) }
{
    if !valid::holds(programme) {
        return Err(Refusal::NotAProgramme.at(0));
    }
    let needed = print::put_table(&mut buffer[..0], programme);
    if buffer.len() < needed {
        return Err(Refusal::BufferTooShort.at(needed as u64));
    }
    print::put_table(buffer, programme);
    Ok(needed)
}

// Writes a programme's table text into a buffer.
pub fn write(programme: Programme, buffer: &mut [u8]) -> Answer
    ensures { (result ≡ answer_of (write_of programme (length buffer.old)))
        × (buffer.new
        ≡ buffer_after (write_of programme (length buffer.old)) buffer.old) }
{
    write_text(&programme, buffer).into()
}
