// Templates: a line form in which each capital letter stands for a number and every other byte for itself.
ghost use Rattle.std.specs.Prelude.{◌≡◌, ◌+◌, ◌*◌, ◌^◌, ◌<◌, ◌≤◌, [], length};
ghost use Rattle.text.specs.Buffer.{Put};
ghost use Rattle.text.specs.Template.{capital, holes, filled, matched_at, numbers_by};

use crate::{buffer, number};

// What a template finds at a place of a text: the place after it, and its numbers with zeros after them.
#[derive(Clone, Copy)]
pub struct Matched {
    pub end: usize,
    pub values: [u64; 8],
}

// Whether a byte of a template is a number's place.
fn is_capital(byte: u8) -> bool
    ensures { result ≡ capital byte }
{
    match byte {
        b'A'..=b'Z' => true,
        _ => false,
    }
}

// Reads a template at a place of a text, if it stands there. Capitals are counted by hand: the next place of an
// iterator over the numbers would have to be answered where there is none, which the contract rules out.
pub fn read_at(template: &[u8], s: &[u8], at: usize) -> Option<Matched>
    requires { (holes template.now ≤ 8) × (at ≤ length s.now) }
    ensures { result ≡ matched_at template.now s.now at }
{
    let mut values = [0u64; 8];
    let mut k: usize = 0;
    let mut j = at;
    for byte in template {
        if is_capital(*byte) {
            let (value, next) = number::read_short(s, j)?;
            values[k] = value;
            k += 1;
            j = next;
        } else {
            if s.len() <= j {
                return None;
            }
            if *byte != s[j] {
                return None;
            }
            j += 1;
        }
    }
    Some(Matched { end: j, values })
}

// Reads a whole line by a template: the numbers, with zeros after them, if the line is the template with numbers in it.
pub fn read_line(template: &[u8], line: &[u8]) -> Option<[u64; 8]>
    requires { holes template.now ≤ 8 }
    ensures { result ≡ numbers_by template.now line.now }
{
    let matched = read_at(template, line, 0)?;
    if matched.end == line.len() {
        return Some(matched.values);
    }
    None
}

// Writes a template with numbers in place of its capitals, counted as in `read_at`.
pub fn put(out: &mut [u8], at: usize, template: &[u8], values: &[u64]) -> usize
    requires { (holes template.now ≤ length values.now) × (at < 2 ^ 61) × (length template.now < 2 ^ 32) }
    ensures { Put out.old at (filled template.now values.now [])
        out.new result × (result ≤ at + 20 * length template.now) }
{
    let mut k = 0;
    let mut j = at;
    for byte in template {
        if is_capital(*byte) {
            let value = values[k];
            k += 1;
            j = number::put(out, j, value);
        } else {
            j = buffer::put(out, j, *byte);
        }
    }
    j
}
