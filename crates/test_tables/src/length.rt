// The length of a text: 8,192 bytes are read line by line, 8,193 are refused with 1 and line 0.
ghost use Rattle.std.specs.Prelude.{◌≡◌, ◌≤◌, length};

use crate::show::reading;
use crate::task::Task;

// A table, and after it one byte up to the end of the array.
fn begun(table: &[u8], byte: u8) -> [u8; 8193]
    requires { length table.now ≤ 8193 }
    ensures { 8193 ≡ length result }
{
    let mut text = [byte; 8193];
    text[..table.len()].copy_from_slice(table);
    text
}

// A text that begins with a table and goes on with a task's byte up to its size.
pub fn filled(rt: &impl Print, name: &[u8], table: &[u8], task: Task) {
    let [byte, size, ..] = task.numbers;
    let size = size as usize;
    let Ok(byte) = u8::try_from(byte) else {
        return;
    };
    if 8193 < size || 8193 < table.len() {
        return;
    }
    let text = begun(table, byte);
    reading(rt, name, &text[..size]);
}
