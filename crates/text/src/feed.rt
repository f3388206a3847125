// The first line feed among eight bytes.
ghost use Rattle.std.specs.Prelude.{◌≡◌};
ghost use Rattle.text.specs.Feed.{first_feed};

use crate::word;

// Where the first line feed stands among eight bytes, if one of them is one. Looks at all eight bytes of a word at
// once. With the bits of a line feed turned in each byte, a line feed is 0; and where 1 is taken from each byte, a 0
// alone gains its high bit. But a 0 borrows from the byte after it, so that only the first byte with such a mark is
// sure to be a line feed.
pub fn first(w: u64) -> Option<usize>
    ensures { result ≡ first_feed w }
{
    let turned = w ^ 0x0a0a0a0a0a0a0a0a;
    let less = std::num::wrapping_sub_u64(turned, 0x0101010101010101);
    let marks = less & (turned ^ 0xffffffffffffffff) & 0x8080808080808080;
    if marks == 0 {
        return None;
    }
    Some(word::byte_with(marks.trailing_zeros()))
}
