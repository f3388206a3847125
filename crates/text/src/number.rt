// Numbers in base 10, read and written.
ghost use Rattle.std.specs.Prelude.{◌≡◌, ◌+◌, ◌*◌, ◌^◌, ◌<◌, ◌≤◌, length};
ghost use Rattle.text.specs.Buffer.{Put};
ghost use Rattle.text.specs.Number.{digit_of, digits, digits_in, number_at, number_on};

use crate::{buffer, word};

// The value of a digit's byte; 10 for any other byte.
pub fn digit(byte: u8) -> u64
    ensures { result ≡ digit_of byte }
{
    match byte {
        b'0'..=b'9' => (byte - b'0') as u64,
        _ => 10,
    }
}

// The number whose first digits are a value and whose others stand from a place on, byte by byte.
fn read_on(s: &[u8], first: u64, at: usize) -> Option<(u64, usize)>
    requires { (first < 10 ^ 16) × (at ≤ length s.now) }
    ensures { result ≡ number_on s.now first at }
{
    let mut value = first;
    for i in at..s.len() {
        let next = digit(s[i]);
        if 10 <= next {
            return Some((value, i));
        }
        if value == 0 {
            return None;
        }
        if 1000000000000000 <= value {
            return None;
        }
        value = value * 10 + next;
    }
    Some((value, s.len()))
}

// The number of 1 to 16 digits at a place of a text and the place after it, byte by byte: for numbers that mostly have
// few digits, and for the last few bytes of a text.
pub fn read_short(s: &[u8], at: usize) -> Option<(u64, usize)>
    ensures { result ≡ number_at s.now at }
{
    if s.len() <= at {
        return None;
    }
    let value = digit(s[at]);
    if 10 <= value {
        return None;
    }
    read_on(s, value, at + 1)
}

// 1 with as many zeros.
fn ten_to(zeros: usize) -> u64
    requires { (0 < zeros) × (zeros < 8) }
    ensures { (result ≡ 10 ^ zeros) × (result ≤ 10 ^ 8) }
{
    match zeros {
        1 => 10,
        2 => 100,
        3 => 1000,
        4 => 10000,
        5 => 100000,
        6 => 1000000,
        _ => 10000000,
    }
}

// The number whose first eight digits are a value and whose others stand from a place on.
fn read_more(s: &[u8], value: u64, at: usize) -> Option<(u64, usize)>
    requires { (0 < value) × (value < 10 ^ 8) × (at ≤ length s.now) }
    ensures { result ≡ number_on s.now value at }
{
    if s.len() - at < 8 {
        return read_on(s, value, at);
    }
    let next = digit(s[at]);
    if 10 <= next {
        return Some((value, at));
    }
    let digits = word::digits_at(s, at);
    if digits.count == 8 {
        return read_on(s, value * 100000000 + word::eight(digits.word), at + 8);
    }
    let more = word::first(digits.word, digits.count);
    Some((value * ten_to(digits.count) + more, at + digits.count))
}

// The number of 1 to 16 digits at a place of a text, eight bytes at a time.
pub fn read(s: &[u8], at: usize) -> Option<(u64, usize)>
    ensures { result ≡ number_at s.now at }
{
    if s.len() <= at {
        return None;
    }
    if s.len() - at < 8 {
        return read_short(s, at);
    }
    let digits = word::digits_at(s, at);
    if digits.count == 0 {
        return None;
    }
    if digits.word % 256 == 0 {
        if digits.count == 1 {
            return Some((0, at + 1));
        }
        return None;
    }
    if digits.count == 8 {
        return read_more(s, word::eight(digits.word), at + 8);
    }
    Some((word::first(digits.word, digits.count), at + digits.count))
}

// How many digits a number of less than nine digits has.
fn size_short(n: u64) -> usize
    requires { n < 10 ^ 8 }
    ensures { (result ≡ length (digits n)) × (result ≤ 8) }
{
    if n < 10000 {
        if n < 100 {
            if n < 10 {
                return 1;
            }
            return 2;
        }
        if n < 1000 {
            return 3;
        }
        return 4;
    }
    if n < 1000000 {
        if n < 100000 {
            return 5;
        }
        return 6;
    }
    if n < 10000000 {
        return 7;
    }
    8
}

// How many digits a number has: eight by eight. A number of one digit is told first.
pub fn size(n: u64) -> usize
    ensures { (result ≡ length (digits n)) × (result ≤ 20) }
{
    if n < 10 {
        return 1;
    }
    if n < 100000000 {
        return size_short(n);
    }
    let first = n / 100000000;
    if first < 100000000 {
        return 8 + size_short(first);
    }
    16 + size_short(first / 100000000)
}

// How many digits numbers have in all.
pub fn sizes(numbers: &[u64]) -> usize
    requires { length numbers.now < 2 ^ 32 }
    ensures { (result ≡ digits_in numbers.now) × (result ≤ 20 * length numbers.now) }
{
    let mut sum: usize = 0;
    for number in numbers {
        sum += size(*number);
    }
    sum
}

// A number with as many digits as it needs, at most twenty, where there is room for them: from the last on, two at a
// time.
pub fn put_within(out: &mut [u8], at: usize, n: u64) -> usize
    requires { at + 20 ≤ length out.old }
    ensures { Put out.old at (digits n) out.new result × (result ≤ at + 20) }
{
    let end = at + size(n);
    let mut v = n;
    let mut i = end;
    while 100 <= v {
        let pair = v % 100;
        i -= 2;
        out[i] = (48 + pair / 10) as u8;
        out[i + 1] = (48 + pair % 10) as u8;
        v = v / 100;
    }
    if v < 10 {
        out[at] = (48 + v) as u8;
        return end;
    }
    out[at] = (48 + v / 10) as u8;
    out[at + 1] = (48 + v % 10) as u8;
    end
}

// The same as far as there is room: from the last digit on, one at a time.
fn put_cut(out: &mut [u8], at: usize, n: u64) -> usize
    requires { at < 2 ^ 62 }
    ensures { Put out.old at (digits n) out.new result × (result ≤ at + 20) }
{
    let end = at + size(n);
    let mut v = n;
    let mut i = end;
    while 10 <= v {
        i -= 1;
        buffer::put(out, i, (48 + v % 10) as u8);
        v = v / 10;
    }
    buffer::put(out, at, (48 + v) as u8);
    end
}

// A number with as many digits as it needs, at most twenty.
pub fn put(out: &mut [u8], at: usize, n: u64) -> usize
    requires { at < 2 ^ 62 }
    ensures { Put out.old at (digits n) out.new result × (result ≤ at + 20) }
{
    if at + 20 <= out.len() {
        return put_within(out, at, n);
    }
    put_cut(out, at, n)
}
