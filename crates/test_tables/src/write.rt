// Writing: refusal and number, then how many bytes at the front are those of the text typed, then where the bytes as
// lent end that follow them. The buffer is the front of 1,700 bytes, each `#`, a byte that no table text has.
ghost use Rattle.std.specs.Prelude.{◌≤◌};

use crate::show::{number, words};
use crate::task::Task;
use programme::contract::Programme;

// How many bytes at the front are those of a text.
fn same(bytes: &[u8; 1700], text: &[u8]) -> usize {
    bytes.iter().zip(text).take_while(|(a, b)| *a == *b).count()
}

// Where the bytes as lent end, from a place on: 1,700 if all from there are so.
fn as_lent(bytes: &[u8; 1700], from: usize) -> usize {
    from + bytes
        .iter()
        .skip(from)
        .take_while(|byte| **byte == b'#')
        .count()
}

// Writes a programme whose text is typed into a buffer of a size, and shows what writing answers.
pub fn answer(rt: &impl Print, programme: Programme, text: &[u8], size: usize)
    requires { size ≤ 1700 }
{
    let mut bytes = [b'#'; 1700];
    let answer = table::write(programme, &mut bytes[..size]);
    words(rt, b":");
    number(rt, answer.refusal);
    number(rt, answer.number);
    let front = same(&bytes, text);
    words(rt, b" same");
    number(rt, front as u64);
    words(rt, b" as lent to");
    number(rt, as_lent(&bytes, front) as u64);
    words(rt, b"\n");
}

// The same with its name and size, where there is a buffer of that size.
fn sized(rt: &impl Print, name: &[u8], programme: Programme, text: &[u8], size: u64) {
    if size <= 1700 {
        words(rt, name);
        words(rt, b" in");
        number(rt, size);
        answer(rt, programme, text, size as usize);
    }
}

// Writes a programme into a buffer of each of a task's sizes.
pub fn sizes(rt: &impl Print, name: &[u8], programme: Programme, text: &[u8], task: Task)
    requires { task.count ≤ 8 }
{
    for size in &task.numbers[..task.count] {
        sized(rt, name, programme, text, *size);
    }
}

// Reads a text and writes what it reads to.
pub fn back(rt: &impl Print, name: &[u8], text: &[u8], task: Task)
    requires { task.count ≤ 8 }
{
    sizes(rt, name, table::read(text).programme, text, task);
}
