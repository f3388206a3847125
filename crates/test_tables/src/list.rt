// A list of cases: a head, a bar, a text, and a bar before the next head. No head and no text has a bar. A head is the
// case's name, and the text is read; or a name, a semicolon and what is done:
//   w296 295      the text is read and what it reads to is written into a buffer of each size
//   f120 8192     the text is filled up to a size with one byte, and is read
//   t2 1 0 0 ..   the base with one place changed is written, and the text is what it should be (see `change`)
//   T9            the same with a count changed; after a semicolon a second change may follow, or the sizes
ghost use Rattle.std.specs.Prelude.{◌≤◌, length};

use crate::change::{base, changed};
use crate::length::filled;
use crate::show::{reading, words};
use crate::task;
use crate::write::{answer, back, sizes};
use text::line;

// Does what stands after a case's semicolon.
fn tasked(rt: &impl Print, name: &[u8], tasks: &[u8], text: &[u8]) {
    let end = line::place_of(tasks, 0, b';');
    let first = task::read(&tasks[..end]);
    let second = task::read(&tasks[end..]);
    match (first.letter, second.letter) {
        (b'w', _) => back(rt, name, text, first),
        (b'f', _) => filled(rt, name, text, first),
        (_, b'w') => sizes(rt, name, changed(base(), first), text, second),
        _ => {
            words(rt, name);
            answer(rt, changed(changed(base(), first), second), text, 1700);
        }
    }
}

// A case, by its head.
fn case(rt: &impl Print, head: &[u8], text: &[u8]) {
    let end = line::place_of(head, 0, b';');
    if end == head.len() {
        reading(rt, head, text);
    } else {
        tasked(rt, &head[..end], &head[end + 1..], text);
    }
}

// Shows the cases of a list from a place on, up to its end or to a tilde, and returns the place after it.
pub fn cases(rt: &impl Print, list: &[u8], from: usize) -> usize
    requires { from ≤ length list.now }
    ensures { result ≤ length list.now }
{
    let mut at = from;
    while at < list.len() {
        if list[at] == b'~' {
            return at + 1;
        }
        let middle = line::place_of(list, at, b'|');
        if middle == list.len() {
            return middle;
        }
        let start = middle + 1;
        let end = line::place_of(list, start, b'|');
        case(rt, &list[at..middle], &list[start..end]);
        if end == list.len() {
            return end;
        }
        at = end + 1;
    }
    at
}
