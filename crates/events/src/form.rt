// An event form in its three parts: its beginning with the day, its loss forms, and the bracket that ends it.
ghost use Rattle.std.specs.Prelude.{◌≡◌, ◌+◌, ◌≤◌, length, drop};
ghost use Rattle.text.specs.Begin.{begins};
ghost use Rattle.text.specs.Bytes.{bytes};
ghost use Rattle.text.specs.Number.{number_at};
ghost use Rattle.events.specs.Form.{head_of, loss_at, amounts_at};

use text::{line, number, word};
use treaty::Loss;

// "(event " and " (loss " as words, the first byte lowest.
const EVENT: u64 = 0x20746e65766528;

const LOSS: u64 = 0x2073736f6c2820;

// Reads the beginning of a line, seven bytes at once, and the day: the day and the place after it, if the line begins
// as an event form does.
pub fn read_head(line: &[u8]) -> Option<(u64, usize)>
    ensures { result ≡ head_of line.now }
{
    if line.len() < 8 {
        return None;
    }
    if word::seven(line, 0) != EVENT {
        return None;
    }
    number::read_short(line, 7)
}

// Reads the number of a treaty: mostly one digit, before a space.
fn read_treaty(line: &[u8], at: usize) -> Option<(u64, usize)>
    requires { at ≤ length line.now }
    ensures { result ≡ number_at line.now at }
{
    if 2 <= line.len() - at {
        let treaty = number::digit(line[at]);
        let after = line[at + 1];
        if treaty < 10 {
            if after == b' ' {
                return Some((treaty, at + 1));
            }
        }
    }
    number::read_short(line, at)
}

// Reads a loss form from its second number on: the maximum and a space, then the amount and the bracket. One call, in
// a loop of two turns, reads both numbers: a function that is called at one place only is compiled into it.
fn read_amounts(line: &[u8], treaty: u64, at: usize) -> Option<(Loss, usize)>
    requires { at ≤ length line.now }
    ensures { result ≡ amounts_at line.now treaty at }
{
    let mut maximum: u64 = 0;
    let mut place = at;
    let mut last = false;
    loop {
        let (value, next) = number::read(line, place)?;
        if last {
            if line::stands(line, next, b')') {
                let loss = Loss {
                    treaty,
                    maximum,
                    amount: value,
                };
                return Some((loss, next + 1));
            }
            return None;
        }
        if line::stands(line, next, b' ') {
            maximum = value;
            place = next + 1;
            last = true;
        } else {
            return None;
        }
    }
}

// Reads a loss form, seven bytes at once, and its three numbers: the loss and the place after its form, if one stands
// there.
pub fn read_loss(line: &[u8], at: usize) -> Option<(Loss, usize)>
    requires { at ≤ length line.now }
    ensures { result ≡ loss_at line.now at }
{
    if line.len() - at < 8 {
        return None;
    }
    if word::seven(line, at) != LOSS {
        return None;
    }
    let (treaty, end) = read_treaty(line, at + 7)?;
    if line::stands(line, end, b' ') {
        return read_amounts(line, treaty, end + 1);
    }
    None
}

// How many bytes end a line: the bracket and the line feed.
pub const ENDING: usize = 2;

// Whether these stand at a place.
pub fn closes(text: &[u8], at: usize) -> bool
    requires { at ≤ length text.now }
    ensures { result ≡ begins (bytes ")\n") (drop at text.now) }
{
    line::stands(text, at, b')') && line::stands(text, at + 1, b'\n')
}
