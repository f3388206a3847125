// The ranges of a table's numbers.
ghost use Rattle.std.specs.Prelude.{◌≡◌, ◌≤◌};
ghost use Rattle.programme.specs.Ranges.{outside, quota_outside, surplus_outside, treaty_outside};
ghost use Rattle.programme.specs.Ranges.{rates_outside, terms_outside, treaty_not_zero, terms_not_zero};

use layer::terms::{RATES, Terms};
use treaty::Treaty;

// The largest numbers of a table but for shares: treaties, rates in basis points, amounts, lines, yearly deductibles,
// reinstatements, reinstatement premiums, and 1 for (time).
pub const TREATIES: u64 = 8;

const RATE: u64 = 20000;

pub const AMOUNT: u64 = 10000000000000;

const LINES: u64 = 100;

const DEDUCTIBLE: u64 = 1000000000000000;

const REINSTATEMENTS: u64 = 20;

const PREMIUM: u64 = 1000000000000;

const TIME: u64 = 1;

// 1 for a number outside its range, 0 for one within it. A count and no test: the numbers of a place are added up, so
// that no line branches at each of them.
pub fn outside(low: u64, high: u64, n: u64) -> u64
    ensures { (result ≡ outside low high n) × (result ≤ 1) }
{
    u64::from(n < low || high < n)
}

// How many of a quota share's numbers are outside their range.
fn quota_outside(t: &Treaty) -> u64
    ensures { result ≡ quota_outside t.now }
{
    outside(1, TREATIES, t.number)
        + outside(0, arith::WHOLE, t.cede)
        + outside(0, AMOUNT, t.capacity)
        + outside(0, AMOUNT, t.limit)
        + outside(0, 0, t.retention)
        + outside(0, 0, t.lines)
}

// How many of a surplus's numbers are outside their range.
fn surplus_outside(t: &Treaty) -> u64
    ensures { result ≡ surplus_outside t.now }
{
    outside(1, TREATIES, t.number)
        + outside(0, AMOUNT, t.retention)
        + outside(0, LINES, t.lines)
        + outside(0, AMOUNT, t.limit)
        + outside(0, 0, t.cede)
        + outside(0, 0, t.capacity)
}

// How many of a treaty's numbers are outside their range.
pub fn treaty_outside(t: &Treaty) -> u64
    ensures { result ≡ treaty_outside t.now }
{
    match t.kind {
        treaty::QUOTA_SHARE => quota_outside(t),
        treaty::SURPLUS => surplus_outside(t),
        _ => 1,
    }
}

// 1 where a rate in use is outside its range, or another place does not hold 0; else 0. Most places hold 0.
fn rates_outside(rates: &[u64; RATES], used: u64) -> u64
    ensures { (result ≡ rates_outside used rates.now) × (result ≤ 1) }
{
    for (i, rate) in rates.iter().enumerate() {
        if *rate != 0 && (used <= i as u64 || RATE < *rate) {
            return 1;
        }
    }
    0
}

// How many of a layer's numbers are outside their range; its rates count for one.
pub fn terms_outside(l: &Terms) -> u64
    ensures { result ≡ terms_outside l.now }
{
    outside(0, AMOUNT, l.attachment)
        + outside(1, AMOUNT, l.limit)
        + outside(0, DEDUCTIBLE, l.deductible)
        + outside(0, REINSTATEMENTS, l.reinstatements)
        + outside(0, PREMIUM, l.premium)
        + outside(0, arith::WHOLE, l.placed)
        + rates_outside(&l.rates, l.reinstatements)
        + outside(0, TIME, l.time)
}

// How many numbers of a treaty's place are not 0.
pub fn treaty_not_zero(t: &Treaty) -> u64
    ensures { result ≡ treaty_not_zero t.now }
{
    outside(0, 0, t.kind)
        + outside(0, 0, t.number)
        + outside(0, 0, t.cede)
        + outside(0, 0, t.capacity)
        + outside(0, 0, t.retention)
        + outside(0, 0, t.lines)
        + outside(0, 0, t.limit)
}

// How many numbers of a layer's place are not 0; its rates count for one.
pub fn terms_not_zero(l: &Terms) -> u64
    ensures { result ≡ terms_not_zero l.now }
{
    outside(0, 0, l.attachment)
        + outside(0, 0, l.limit)
        + outside(0, 0, l.deductible)
        + outside(0, 0, l.reinstatements)
        + outside(0, 0, l.premium)
        + outside(0, 0, l.placed)
        + rates_outside(&l.rates, 0)
        + outside(0, 0, l.time)
}
