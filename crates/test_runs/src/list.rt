// The list of cases, each ended by `#`. A case has five fields with a bar between them: its name; a table; the
// standing lent; the buffer's room, the size that the events text is repeated to (0: it is run as it stands) and the
// mark in an unused place (0: none); the events text. No field has a bar or a `#`.
// A standing is its day, then the risk layers' spent amounts in eight places, then the cat layers', then the timed
// premiums of both so; what is left out at the end is 0. An empty field is the standing that opening gives, and `=` is
// the one that the case before left.
ghost use Rattle.std.specs.Prelude.{◌≤◌, length};

use crate::case::{case, marked};
use crate::show::{number, words};
use text::line;
use year::Standing;

// The end of the field that begins at a place.
fn field_end(case: &[u8], from: usize) -> usize
    requires { from ≤ length case.now }
    ensures { (from ≤ result) × (result ≤ length case.now) }
{
    line::place_of(case, from, b'|')
}

// The place after a bar; the end of the case has none after it.
fn after(case: &[u8], bar: usize) -> usize
    requires { bar ≤ length case.now }
    ensures { result ≤ length case.now }
{
    if bar < case.len() {
        return bar + 1;
    }
    bar
}

// The numbers of a field, with one byte between them, and zeros after them.
fn numbers(field: &[u8]) -> [u64; 33] {
    let mut values = [0u64; 33];
    let mut at: usize = 0;
    for place in values.iter_mut() {
        let Some((value, next)) = text::number::read(field, at) else {
            return values;
        };
        *place = value;
        if field.len() <= next {
            return values;
        }
        at = next + 1;
    }
    values
}

// The standing of a field's numbers.
fn typed(field: &[u8]) -> Standing {
    let v = numbers(field);
    Standing {
        risk: [v[1], v[2], v[3], v[4], v[5], v[6], v[7], v[8]],
        cat: [v[9], v[10], v[11], v[12], v[13], v[14], v[15], v[16]],
        day: v[0],
        risk_timed: [v[17], v[18], v[19], v[20], v[21], v[22], v[23], v[24]],
        cat_timed: [v[25], v[26], v[27], v[28], v[29], v[30], v[31], v[32]],
    }
}

// The standing that a field says.
fn lent(field: &[u8], opened: Standing, before: Standing) -> Standing {
    match field {
        [] => opened,
        [b'=', ..] => before,
        _ => typed(field),
    }
}

// Opens a year, runs the case, shows both, and returns the standing after it.
fn tried(
    rt: &impl Print,
    name: &[u8],
    table: &[u8],
    standing: &[u8],
    sizes: &[u8],
    events: &[u8],
    before: Standing,
) -> Standing {
    let v = numbers(sizes);
    let reading = table::read(table);
    let programme = marked(reading.programme, v[2]);
    let opening = standings::open(programme);
    let opened = opening.standing;
    words(rt, name);
    words(rt, b": opened");
    number(rt, opening.refusal);
    number(rt, opening.number);
    case(
        rt,
        programme,
        lent(standing, opened, before),
        v[0],
        v[1],
        events,
    )
}

// Tries a case by its fields.
fn fields(rt: &impl Print, case: &[u8], before: Standing) -> Standing {
    let name_end = field_end(case, 0);
    let table = after(case, name_end);
    let table_end = field_end(case, table);
    let lent = after(case, table_end);
    let lent_end = field_end(case, lent);
    let sizes = after(case, lent_end);
    let sizes_end = field_end(case, sizes);
    let events = after(case, sizes_end);
    tried(
        rt,
        &case[..name_end],
        &case[table..table_end],
        &case[lent..lent_end],
        &case[sizes..sizes_end],
        &case[events..],
        before,
    )
}

// Tries the cases of a list in turn.
pub fn cases(rt: &impl Print, list: &[u8]) {
    let mut standing = standings::fresh();
    let mut at: usize = 0;
    while at < list.len() {
        let end = line::place_of(list, at, b'#');
        if end == list.len() {
            return;
        }
        standing = fields(rt, &list[at..end], standing);
        at = end + 1;
    }
}
