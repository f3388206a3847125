// Where a line ends with C's calling convention, by the word and by the byte, for the benchmark.
#![tactic(auto)]

ghost use Rattle.std.specs.Prelude.{◌≡◌, ◌≤◌, length};
ghost use Rattle.text.specs.Lines.{line_end};

use text::line;

#[unsafe(no_mangle)]
pub extern "C" fn text_line_end(s: &[u8], at: usize) -> usize
    requires { at ≤ length s.now }
    ensures { result ≡ line_end s.now at }
{
    line::end(s, at)
}

#[unsafe(no_mangle)]
pub extern "C" fn text_line_end_by_byte(s: &[u8], at: usize) -> usize
    requires { at ≤ length s.now }
    ensures { result ≡ line_end s.now at }
{
    line::place_of(s, at, b'\n')
}
