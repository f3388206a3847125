// A text read from a file into a lent buffer, for the programs.
#![tactic(auto)]

ghost use Rattle.std.specs.Prelude.{◌≡◌, ◌≤◌, length, take, MatchResult};

use std::io::Read;

// Reads until the buffer is full, the text ends or a read fails: how many bytes were read, as an error where a read
// failed, so that a text that is cut is not taken for a whole one.
pub fn fill(file: &mut impl Read, buffer: &mut [u8]) -> Result<usize, usize>
    ensures within { MatchResult result (λ n. n ≤ length buffer.new) (λ n. n ≤ length buffer.new) }
    ensures front { MatchResult result (λ n. n ≡ length (take n buffer.new)) (λ n. n ≡ length (take n buffer.new)) }
{
    let mut size: usize = 0;
    while size < buffer.len() {
        let Ok(more) = file.read(&mut buffer[size..]) else {
            return Err(size);
        };
        if more == 0 {
            return Ok(size);
        }
        size += more;
    }
    Ok(size)
}
