// A programme read from a typed table, with one place, one rate, one time or one count changed: t, r or c and a
// treaty's, a risk layer's or a cat layer's place with its numbers; q or Q and a risk layer's or a cat layer's place, a
// rate's and that rate; m or M and such a place and its time; or T, R or C and a count. Most are such that no table
// text reads to them, and writing refuses them with 6; beside them are the nearest that a text does read to, so that no
// test refuses too much.
use crate::task::Task;
use layer::terms::{RATES, Terms};
use programme::contract::{Layers, Programme, Treaties};
use treaty::Treaty;

// Two treaties, two risk layers and one cat layer; the text is of 412 bytes.
pub fn base() -> Programme {
    table::read(
        b"(quota 1 (cede 3333) (capacity 20000) (event 15000))\n\
        (surplus 4 (retain 10000) (lines 3) (event 0))\n\
        (risk (band 50 60) (deduct 11) (back 2 4000 300 301) (placed 7200))\n\
        (risk (band 110 9) (deduct 0) (back 0 0) (placed 9999))\n\
        (cat (band 7 90) (deduct 12) (back 20 1000000000000 20000 19999 19998 19997 19996 19995 19994 19993 19992 \
        19991 19990 19989 19988 19987 19986 19985 19984 19983 19982 19981) (placed 3333))\n",
    )
    .programme
}

// [kind T cede capacity retain lines event], after the place
fn treaty_of(v: &[u64; 8]) -> Treaty {
    let [_, kind, number, cede, capacity, retention, lines, limit] = *v;
    Treaty {
        kind,
        number,
        cede,
        capacity,
        retention,
        lines,
        limit,
    }
}

// One rate in the first of their places, so many of them.
fn rates_of(count: u64, rate: u64) -> [u64; RATES] {
    let mut rates = [0u64; RATES];
    for (i, place) in rates.iter_mut().enumerate() {
        if (i as u64) < count {
            *place = rate;
        }
    }
    rates
}

// [attachment limit deduct K premium placed rate], after the place; the rate is that of each reinstatement, and the
// time is 0
fn terms_of(v: &[u64; 8]) -> Terms {
    let [
        _,
        attachment,
        limit,
        deductible,
        reinstatements,
        premium,
        placed,
        rate,
    ] = *v;
    Terms {
        attachment,
        limit,
        deductible,
        reinstatements,
        premium,
        placed,
        rates: rates_of(reinstatements, rate),
        time: 0,
    }
}

// The terms in a task's place of a tier become those of its numbers; a place past the last changes nothing.
fn change_place(tier: &mut Layers, v: &[u64; 8]) {
    if let Some(place) = tier.places.get_mut(v[0] as usize) {
        *place = terms_of(v);
    }
}

// One rate in a task's place.
fn change_rate(tier: &mut Layers, v: &[u64; 8]) {
    if let Some(place) = tier.places.get_mut(v[0] as usize) {
        if let Some(rate) = place.rates.get_mut(v[1] as usize) {
            *rate = v[2];
        }
    }
}

// The time in a task's place.
fn change_time(tier: &mut Layers, v: &[u64; 8]) {
    if let Some(place) = tier.places.get_mut(v[0] as usize) {
        place.time = v[1];
    }
}

// The treaty in a task's place.
fn change_treaty(treaties: &mut Treaties, v: &[u64; 8]) {
    if let Some(place) = treaties.places.get_mut(v[0] as usize) {
        *place = treaty_of(v);
    }
}

// A programme changed as a task says; another letter changes nothing.
pub fn changed(programme: Programme, task: Task) -> Programme {
    let mut changed = programme;
    let v = &task.numbers;
    match task.letter {
        b'T' => changed.treaties.count = v[0] as usize,
        b'R' => changed.risk.count = v[0] as usize,
        b'C' => changed.cat.count = v[0] as usize,
        b't' => change_treaty(&mut changed.treaties, v),
        b'r' => change_place(&mut changed.risk, v),
        b'c' => change_place(&mut changed.cat, v),
        b'q' => change_rate(&mut changed.risk, v),
        b'Q' => change_rate(&mut changed.cat, v),
        b'm' => change_time(&mut changed.risk, v),
        b'M' => change_time(&mut changed.cat, v),
        _ => {}
    }
    changed
}
