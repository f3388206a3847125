// Product-and-divide with C's calling convention, for the benchmark.
#![tactic(auto)]

ghost use Rattle.std.specs.Prelude.{◌≡◌, ◌*◌};
ghost use Rattle.arith.specs.Round.{rounded};
ghost use Rattle.arith.specs.Ranges.{Wide, Narrow};

#[unsafe(no_mangle)]
pub extern "C" fn arith_mul_div(a: u64, b: u64, d: u64) -> u64
    requires { Wide a b d }
    ensures { result ≡ rounded (a * b) d }
{
    arith::mul_div(a, b, d)
}

#[unsafe(no_mangle)]
pub extern "C" fn arith_mul_div_word(a: u64, b: u64, d: u64) -> u64
    requires { Narrow a b d }
    ensures { result ≡ rounded (a * b) d }
{
    arith::mul_div_word(a, b, d)
}
