// A case: a programme opened, and a text run under it. Its line has what opening and running answer, how many bytes of
// the buffer changed, and the standing after the run; the statement follows where the run is accepted.
// The buffer lent is the front of 65,537 bytes, each `#`, a byte that no statement has.
ghost use Rattle.std.specs.Prelude.{◌≤◌, ◌<◌, ◌≡◌, length};

use crate::show;
use crate::show::{number, words};
use answer::Answer;
use engine::run;
use programme::contract::Programme;
use year::Standing;

// How many bytes are not as lent, those past the buffer included.
fn changed(bytes: &[u8]) -> usize {
    let mut count: usize = 0;
    for byte in bytes {
        count += usize::from(*byte != b'#');
    }
    count
}

// Shows as many bytes as a success says that it wrote.
fn statement(rt: &impl Print, answer: Answer, bytes: &[u8]) {
    if answer.refusal == 0 {
        let end = answer.number as usize;
        if end <= bytes.len() {
            words(rt, &bytes[..end]);
        }
    }
}

// Runs a text with the first `room` of the bytes lent, shows what the run answers and leaves, and returns the standing
// after it.
fn ran(
    rt: &impl Print,
    programme: Programme,
    lent: Standing,
    events: &[u8],
    room: usize,
    bytes: &mut [u8],
) -> Standing
    requires { room ≤ length bytes.old }
{
    let ran = run::run(programme, lent, events, &mut bytes[..room]);
    let answer = ran.answer;
    let after = ran.standing;
    words(rt, b" ran");
    number(rt, answer.refusal);
    number(rt, answer.number);
    words(rt, b" changed");
    number(rt, changed(bytes) as u64);
    show::standing(rt, &after);
    words(rt, b"\n");
    statement(rt, answer, bytes);
    after
}

// The bytes of which a buffer is the front.
fn lent_bytes() -> [u8; 65537]
    ensures { 65537 ≡ length result }
{
    [b'#'; 65537]
}

// The first 65,537 bytes of a text that is repeated without end; of an empty one, zeros. No part is longer than the
// text, and the smaller of both says so where the text is cut.
fn repeated(text: &[u8]) -> [u8; 65537]
    ensures { 65537 ≡ length result }
{
    let mut long = [0u8; 65537];
    if text.is_empty() {
        return long;
    }
    for part in long.chunks_mut(text.len()) {
        let size = part.len().min(text.len());
        part[..size].copy_from_slice(&text[..size]);
    }
    long
}

// A programme with a mark in the last place of its cat tier, which no table here uses. Mark 0 is none.
pub fn marked(programme: Programme, mark: u64) -> Programme {
    if mark == 0 {
        return programme;
    }
    let mut changed = programme;
    changed.cat.places[7].attachment = mark;
    changed
}

// A number, or 65,537 where it is larger: no buffer and no text here is longer.
fn size_of(n: u64) -> usize
    ensures { result ≤ 65537 }
{
    n.min(65537) as usize
}

// Runs a text under a programme from a standing, with a buffer of `room` bytes. Where `size` is not 0 the text is
// repeated up to that size.
pub fn case(
    rt: &impl Print,
    programme: Programme,
    lent: Standing,
    room: u64,
    size: u64,
    events: &[u8],
) -> Standing {
    let mut bytes = lent_bytes();
    if size == 0 {
        return ran(rt, programme, lent, events, size_of(room), &mut bytes);
    }
    let text = repeated(events);
    let end = size_of(size);
    ran(rt, programme, lent, &text[..end], size_of(room), &mut bytes)
}
