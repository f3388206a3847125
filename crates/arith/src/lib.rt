// Product-and-divide: a * b / d to the nearest cent, after the whole product has been formed.
#![tactic(auto)]

ghost use Rattle.std.specs.Prelude.{◌≡◌, ◌+◌, ◌*◌};
ghost use Rattle.arith.specs.Round.{rounded};
ghost use Rattle.arith.specs.Ranges.{Wide, Narrow};
ghost use Rattle.arith.specs.LongDivision.{Rest};

pub mod long_division;
pub mod words;

use long_division::Division;

// The whole of a share or a rate, in basis points.
pub const WHOLE: u64 = 10000;

// A quotient with its rest, to the nearest cent: the quotient where it is nearer than the next cent. A half goes up.
pub fn settle(n: Division, d: u64) -> u64
    requires { Rest d n }
    ensures { result ≡ rounded (n.quotient * d + n.rest) d }
{
    if n.rest < d - n.rest {
        n.quotient
    } else {
        n.quotient + 1
    }
}

// a * b / d where the product may pass 64 bits. Where it does not, the machine divides a word by a word.
pub fn mul_div(a: u64, b: u64, d: u64) -> u64
    requires { Wide a b d }
    ensures { result ≡ rounded (a * b) d }
{
    if words::high_word(a, b) == 0 {
        let n = words::low_word(a, b);
        return settle(
            Division {
                quotient: n / d,
                rest: n % d,
            },
            d,
        );
    }
    settle(long_division::divide_product(a, b, d), d)
}

// a * b / d where the product fits a word: half the divisor is added, so that dropping the rest gives the nearest.
pub fn mul_div_word(a: u64, b: u64, d: u64) -> u64
    requires { Narrow a b d }
    ensures { result ≡ rounded (a * b) d }
{
    (a * b + d / 2) / d
}
