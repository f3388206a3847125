// A line of a table as one of the four forms.
ghost use Rattle.std.specs.Prelude.{◌≡◌, ◌≤◌, length, drop};
ghost use Rattle.text.specs.Template.{holes};
ghost use Rattle.programme.specs.declared.contract.Contract.TheVariants.{Proportional};
ghost use Rattle.table_text.specs.Forms.{kind_of, quota_from, surplus_from, tail_time, layer_terms, form_of};
ghost use Rattle.table.specs.LayerLine.{rates_at};

use layer::terms::{RATES, Terms};
use programme::contract::Contract;
use text::{line, number, template};
use treaty::Treaty;

// The kinds of a line are those of a treaty and these two. Document 01 has a line matched on its kind's number.
const RISK: u64 = 3;

const CAT: u64 = 4;

// The kind of a line: the letter after the bracket tells the four words apart.
fn kind(line: &[u8]) -> u64
    ensures { result ≡ kind_of line.now }
{
    match line {
        [b'(', b'q', ..] => treaty::QUOTA_SHARE,
        [b'(', b's', ..] => treaty::SURPLUS,
        [b'(', b'r', ..] => RISK,
        [b'(', b'c', ..] => CAT,
        _ => 0,
    }
}

// The quota share of a line's numbers.
fn quota(numbers: [u64; 8]) -> Contract
    ensures { result ≡ Proportional (quota_from numbers) }
{
    let [number, cede, capacity, limit, ..] = numbers;
    Contract::Proportional(Treaty {
        kind: treaty::QUOTA_SHARE,
        number,
        cede,
        capacity,
        retention: 0,
        lines: 0,
        limit,
    })
}

// The surplus of a line's numbers.
fn surplus(numbers: [u64; 8]) -> Contract
    ensures { result ≡ Proportional (surplus_from numbers) }
{
    let [number, retention, lines, limit, ..] = numbers;
    Contract::Proportional(Treaty {
        kind: treaty::SURPLUS,
        number,
        cede: 0,
        capacity: 0,
        retention,
        lines,
        limit,
    })
}

// The rates of a layer's line: the place after them, and the first twenty, with zeros after them.
#[derive(Clone, Copy)]
struct RatesRead {
    end: usize,
    values: [u64; RATES],
}

// As many rates as a layer's K, from a place of its line on; past the twentieth they are counted and not kept. The
// line's end ends them, whatever K is.
fn rates(line: &[u8], at: usize, count: u64) -> Option<RatesRead>
    requires { at ≤ length line.now }
    ensures { result ≡ rates_at line.now at count }
{
    let mut values = [0u64; RATES];
    let mut end = at;
    for i in 0..count {
        if !line::stands(line, end, b' ') {
            return None;
        }
        let (rate, next) = number::read_short(line, end + 1)?;
        if i < RATES as u64 {
            values[i as usize] = rate;
        }
        end = next;
    }
    Some(RatesRead { end, values })
}

// What ends a layer's line from a place on: 1 where it has (time), 0 where it has not, as terms hold it.
fn tail_time(line: &[u8], at: usize) -> Option<u64>
    requires { at ≤ length line.now }
    ensures { result ≡ tail_time (drop at line.now) }
{
    let tail = &line[at..];
    if tail == b")".as_slice() {
        return Some(0);
    }
    if tail == b" (time))".as_slice() {
        return Some(1);
    }
    None
}

// Reads a layer's line, by the beginning of its tier: K and the premium, as many rates, the placed share, the tail.
fn layer(begin: &[u8], line: &[u8]) -> Option<Terms>
    requires { holes begin.now ≡ 5 }
    ensures { result ≡ layer_terms begin.now line.now }
{
    let first = template::read_at(begin, line, 0)?;
    let [attachment, limit, deductible, reinstatements, premium, ..] = first.values;
    let back = rates(line, first.end, reinstatements)?;
    let last = template::read_at(b") (placed S)", line, back.end)?;
    let time = tail_time(line, last.end)?;
    let rates = back.values;
    Some(Terms {
        attachment,
        limit,
        deductible,
        reinstatements,
        premium,
        placed: last.values[0],
        rates,
        time,
    })
}

// Reads a line, by its kind.
pub fn read(line: &[u8]) -> Option<Contract>
    ensures { result ≡ form_of line.now }
{
    let k = kind(line);
    match k {
        treaty::QUOTA_SHARE => {
            template::read_line(b"(quota T (cede C) (capacity A) (event L))", line).map(quota)
        }
        treaty::SURPLUS => {
            template::read_line(b"(surplus T (retain R) (lines N) (event L))", line).map(surplus)
        }
        RISK => layer(b"(risk (band A L) (deduct D) (back K P", line).map(Contract::Risk),
        CAT => layer(b"(cat (band A L) (deduct D) (back K P", line).map(Contract::Cat),
        _ => None,
    }
}
