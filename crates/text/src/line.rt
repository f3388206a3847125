// Lines, each ended by a line feed, and where a byte stands.
ghost use Rattle.std.specs.Prelude.{◌≡◌, ◌≤◌, length};
ghost use Rattle.text.specs.Begin.{Stands};
ghost use Rattle.text.specs.Lines.{place_of, line_end};

use crate::{feed, word};

// Where a byte stands next, from a place on, or the end of the text, byte by byte.
pub fn place_of(s: &[u8], at: usize, byte: u8) -> usize
    requires { at ≤ length s.now }
    ensures { (result ≡ place_of byte s.now at) × (at ≤ result) × (result ≤ length s.now) }
{
    for i in at..s.len() {
        if s[i] == byte {
            return i;
        }
    }
    s.len()
}

// Where the line that begins at a place ends: at its line feed, or at the end of the text. Eight bytes are looked at
// as one word, the last few by byte.
pub fn end(s: &[u8], at: usize) -> usize
    requires { at ≤ length s.now }
    ensures { (result ≡ line_end s.now at) × (at ≤ result) × (result ≤ length s.now) }
{
    let mut from = at;
    while from + 7 < s.len() {
        match feed::first(word::at(s, from)) {
            Some(k) => return from + k,
            None => from += 8,
        }
    }
    place_of(s, from, b'\n')
}

// Whether a byte stands at a place.
pub fn stands(s: &[u8], at: usize, byte: u8) -> bool
    ensures { Stands s.now at byte result }
{
    if at < s.len() {
        let found = s[at];
        return byte == found;
    }
    false
}
