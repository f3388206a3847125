// Eight bytes of a text as one word, the first lowest, and the digits among them.
ghost use Rattle.std.specs.Prelude.{◌≡◌, ◌+◌, ◌/◌, ◌^◌, ◌<◌, ◌≤◌, length};
ghost use Rattle.text.specs.Word.{byte_of, figures, BytesAt, Lowered, Marked, Leading, Figures, DigitsAt};

// Eight bytes of a text, lowered, and how many digits they begin with.
#[derive(Clone, Copy)]
pub struct Digits {
    pub word: u64,
    pub count: usize,
}

// Eight bytes of a text. This compiles to one load.
pub fn at(s: &[u8], place: usize) -> u64
    requires { place + 8 ≤ length s.now }
    ensures { BytesAt s.now place 8 result }
{
    u64::from_le_bytes([
        s[place],
        s[place + 1],
        s[place + 2],
        s[place + 3],
        s[place + 4],
        s[place + 5],
        s[place + 6],
        s[place + 7],
    ])
}

// Seven bytes of a text that has eight there.
pub fn seven(s: &[u8], place: usize) -> u64
    requires { place + 8 ≤ length s.now }
    ensures { BytesAt s.now place 7 result }
{
    at(s, place) % 72057594037927936
}

// Eight bytes, lowered: the bits of '0' are turned in each, so that a digit's byte is its value and any other byte is
// 10 or more.
fn lowered(s: &[u8], place: usize) -> u64
    requires { place + 8 ≤ length s.now }
    ensures { Lowered s.now place result }
{
    at(s, place) ^ 0x3030303030303030
}

// Marks the bytes of 10 or more, each by the high bit of its byte.
fn marks(t: u64) -> u64
    ensures { Marked t result }
{
    let low = t & 0x7f7f7f7f7f7f7f7f;
    ((low + 0x7676767676767676) | t) & 0x8080808080808080
}

// The place of the byte that has a bit of a word, by the bit's own place.
pub fn byte_with(bit: u32) -> usize
    ensures { result ≡ bit / 8 }
{
    (bit / 8) as usize
}

// How many bytes below 10 a word begins with.
fn leading(t: u64) -> usize
    ensures { Leading t result }
{
    byte_with(marks(t).trailing_zeros())
}

// The digits that a text has at a place, among its next eight bytes.
pub fn digits_at(s: &[u8], place: usize) -> Digits
    requires { place + 8 ≤ length s.now }
    ensures { DigitsAt s.now place result }
{
    let word = lowered(s, place);
    Digits {
        word,
        count: leading(word),
    }
}

// The number whose eight digits are the bytes of a word.
pub fn eight(t: u64) -> u64
    requires { Figures t 8 }
    ensures { (result ≡ figures (byte_of t) 8) × (result < 10 ^ 8) }
{
    let pairs = (t * 10 + t / 256) & 0x00ff00ff00ff00ff;
    let fours = (pairs * 100 + pairs / 65536) & 0x0000ffff0000ffff;
    (fours * 10000 + fours / 4294967296) % 4294967296
}

// The number whose digits are the first bytes of a word.
pub fn first(t: u64, count: usize) -> u64
    requires { (0 < count) × (count ≤ 8) × Figures t count }
    ensures { (result ≡ figures (byte_of t) count) × (result < 10 ^ 8) }
{
    let unused = 64 - 8 * (count as u64);
    eight(t << unused)
}
