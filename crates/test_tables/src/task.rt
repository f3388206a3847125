// What a case is to do: a letter and up to eight numbers with blanks between them.
ghost use Rattle.std.specs.Prelude.{◌≤◌};

// The letter is the one that stands in the list of cases; any other changes nothing, so that it is no enum. The count
// stands beside an array, since the program allocates nothing.
#[derive(Clone, Copy)]
pub struct Task {
    pub letter: u8,
    pub numbers: [u64; 8],
    pub count: usize,
}

// A number with one digit more. Past nineteen digits it is 2^64 - 1.
fn longer(n: u64, digit: u8) -> u64
    requires { digit ≤ 9 }
{
    if n <= 1844674407370955160 {
        return n * 10 + u64::from(digit);
    }
    u64::MAX
}

// Reads a task; semicolons are passed over.
pub fn read(text: &[u8]) -> Task
    ensures { result.count ≤ 8 }
{
    let mut letter: u8 = 0;
    let mut numbers = [0u64; 8];
    let mut last: usize = 0;
    for byte in text {
        match *byte {
            digit @ b'0'..=b'9' => numbers[last] = longer(numbers[last], digit - b'0'),
            b' ' => last = (last + 1).min(7),
            b';' => {}
            other => letter = other,
        }
    }
    Task {
        letter,
        numbers,
        count: last + 1,
    }
}
