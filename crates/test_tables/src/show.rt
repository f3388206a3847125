// A reading case's line: refusal and line, the three counts, the numbers of every place in use, and `rest`, which
// joins the bits of all numbers in the other places and of all rates that are not used, so that 0 says that each of
// them is 0. A refused text has no place in use, so its `rest` is that of every place.
use layer::terms::{RATES, Terms};
use programme::contract::{Layers, Treaties};
use treaty::Treaty;

// What cannot be written is let go: the program goes on. No clause can tell
// what is printed, so that a crate for these lines would promise nothing: each program has its own.
pub fn words(rt: &impl Print, text: &[u8]) {
    let _ = rt.write_all(text);
}

fn decimal(rt: &impl Print, n: u64) {
    let _ = rt.print(n);
}

pub fn number(rt: &impl Print, n: u64) {
    words(rt, b" ");
    decimal(rt, n);
}

// [kind T cede capacity retain lines event]
fn treaty_place(rt: &impl Print, t: &Treaty) {
    words(rt, b" [");
    decimal(rt, t.kind);
    number(rt, t.number);
    number(rt, t.cede);
    number(rt, t.capacity);
    number(rt, t.retention);
    number(rt, t.lines);
    number(rt, t.limit);
    words(rt, b"]");
}

// Shows the first rates, as many as are used, and returns the bits of the others.
fn rate_places(rt: &impl Print, rates: &[u64; RATES], used: u64) -> u64 {
    let mut rest: u64 = 0;
    for (i, rate) in rates.iter().enumerate() {
        if (i as u64) < used {
            number(rt, *rate);
        } else {
            rest |= *rate;
        }
    }
    rest
}

// [attachment limit deduct K premium rates placed], and a time that is not 0 after its word; returns the bits of the
// rates that are not used.
fn layer_place(rt: &impl Print, l: &Terms) -> u64 {
    words(rt, b" [");
    decimal(rt, l.attachment);
    number(rt, l.limit);
    number(rt, l.deductible);
    number(rt, l.reinstatements);
    number(rt, l.premium);
    let rest = rate_places(rt, &l.rates, l.reinstatements);
    number(rt, l.placed);
    if l.time != 0 {
        words(rt, b" time");
        number(rt, l.time);
    }
    words(rt, b"]");
    rest
}

fn treaty_bits(t: &Treaty) -> u64 {
    t.kind | t.number | t.cede | t.capacity | t.retention | t.lines | t.limit
}

fn layer_bits(rt: &impl Print, l: &Terms) -> u64 {
    let rest = rate_places(rt, &l.rates, 0);
    l.attachment | l.limit | l.deductible | l.reinstatements | l.premium | l.placed | rest | l.time
}

// Shows the treaties in use and returns the bits of the other places.
fn treaty_places(rt: &impl Print, treaties: &Treaties) -> u64 {
    let mut rest: u64 = 0;
    for (i, t) in treaties.places.iter().enumerate() {
        if i < treaties.count {
            treaty_place(rt, t);
        } else {
            rest |= treaty_bits(t);
        }
    }
    rest
}

// The same for one tier.
fn layer_places(rt: &impl Print, layers: &Layers) -> u64 {
    let mut rest: u64 = 0;
    for (i, l) in layers.places.iter().enumerate() {
        rest |= if i < layers.count {
            layer_place(rt, l)
        } else {
            layer_bits(rt, l)
        };
    }
    rest
}

// Reads a text and shows what reading answers.
pub fn reading(rt: &impl Print, name: &[u8], text: &[u8]) {
    let reading = table::read(text);
    let programme = &reading.programme;
    words(rt, name);
    words(rt, b":");
    number(rt, reading.refusal);
    number(rt, reading.line);
    words(rt, b" counts");
    number(rt, programme.treaties.count as u64);
    number(rt, programme.risk.count as u64);
    number(rt, programme.cat.count as u64);
    let first = treaty_places(rt, &programme.treaties);
    let second = layer_places(rt, &programme.risk);
    let third = layer_places(rt, &programme.cat);
    words(rt, b" rest");
    number(rt, first | second | third);
    words(rt, b"\n");
}
