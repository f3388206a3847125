// A programme as a table text. Buffer and place stand side by side, as in `buffer` (text), which says why.
ghost use Rattle.std.specs.Prelude.{[], ◌∷◌, ◌++◌, map, ◌≡◌, true, ◌+◌, ◌^◌, ◌≤◌, ◌<◌, length, take};
ghost use Rattle.text.specs.Buffer.{Put};
ghost use Rattle.text.specs.Lines.{joined};
ghost use Rattle.text.specs.Template.{holes, filled};
ghost use Rattle.lists.specs.Each.{Each};
ghost use Rattle.programme.specs.Ranges.{terms_outside};
ghost use Rattle.programme.specs.Valid.{valid};
ghost use Rattle.table_text.specs.Forms.{rate_text, rates_text, treaty_line, tail_of, terms_line};
ghost use Rattle.table_text.specs.Write.{text_of};

use layer::terms::Terms;
use programme::contract::Programme;
use text::{buffer, template};
use treaty::Treaty;

// A template with its numbers, and the line feed.
fn put_line(out: &mut [u8], at: usize, template: &[u8], values: &[u64]) -> usize
    requires { (at < 2 ^ 60) × (holes template.now ≤ length values.now) × (length template.now < 60) }
    ensures { Put out.old at (filled template.now values.now [] ++ (10 ∷ []))
        out.new result × (result ≤ at + 1200) }
{
    let end = template::put(out, at, template, values);
    buffer::put(out, end, b'\n')
}

// A treaty's line, by its kind.
fn put_treaty(out: &mut [u8], at: usize, t: &Treaty) -> usize
    requires { at < 2 ^ 60 }
    ensures { Put out.old at (treaty_line t.now ++ (10 ∷ [])) out.new result × (result ≤ at + 1200) }
{
    match t.kind {
        treaty::SURPLUS => put_line(
            out,
            at,
            b"(surplus T (retain R) (lines N) (event L))",
            &[t.number, t.retention, t.lines, t.limit],
        ),
        _ => put_line(
            out,
            at,
            b"(quota T (cede C) (capacity A) (event L))",
            &[t.number, t.cede, t.capacity, t.limit],
        ),
    }
}

// The lines of the treaties.
fn put_treaties(out: &mut [u8], at: usize, treaties: &[Treaty]) -> usize
    requires { (at < 2 ^ 32) × (length treaties.now ≤ 8) }
    ensures { Put out.old at (joined (map treaty_line treaties.now)) out.new result
        × (result ≤ at + 9600) }
{
    let mut next = at;
    for t in treaties {
        next = put_treaty(out, next, t);
    }
    next
}

// One rate of a layer's reinstatements.
fn put_rate(out: &mut [u8], at: usize, rate: u64) -> usize
    requires { at < 2 ^ 61 }
    ensures { Put out.old at (filled rate_text (rate ∷ []) []) out.new result × (result ≤ at + 40) }
{
    template::put(out, at, b" Q", &[rate])
}

// All in use.
fn put_rates(out: &mut [u8], at: usize, rates: &[u64]) -> usize
    requires { (at < 2 ^ 60) × (length rates.now ≤ 20) }
    ensures { Put out.old at (filled (rates_text (length rates.now)) rates.now []) out.new result
        × (result ≤ at + 800) }
{
    let mut next = at;
    for rate in rates {
        next = put_rate(out, next, *rate);
    }
    next
}

// The tail of a layer's line, and the line feed.
fn put_tail(out: &mut [u8], at: usize, l: &Terms) -> usize
    requires { at < 2 ^ 61 }
    ensures { Put out.old at (tail_of l.now ++ (10 ∷ [])) out.new result × (result ≤ at + 9) }
{
    if l.is_timed() {
        return buffer::put_all(out, at, b" (time))\n");
    }
    buffer::put_all(out, at, b")\n")
}

// A layer's line, by the beginning of its tier: as many rates as its K.
fn put_terms(out: &mut [u8], at: usize, begin: &[u8], l: &Terms) -> usize
    requires { (at < 2 ^ 59) × (holes begin.now ≡ 5) × (length begin.now < 60) × (l.now.reinstatements ≤ 20) }
    ensures { Put out.old at (terms_line begin.now l.now ++ (10 ∷ [])) out.new result
        × (result ≤ at + 3200) }
{
    let first = template::put(
        out,
        at,
        begin,
        &[
            l.attachment,
            l.limit,
            l.deductible,
            l.reinstatements,
            l.premium,
        ],
    );
    let second = put_rates(out, first, &l.rates[..l.reinstatements as usize]);
    let third = template::put(out, second, b") (placed S)", &[l.placed]);
    put_tail(out, third, l)
}

// The lines of a tier's layers. Apart from `put_treaties`, since each takes its tier's beginning and asks for a layer
// in range.
fn put_layers(out: &mut [u8], at: usize, begin: &[u8], layers: &[Terms]) -> usize
    requires { (at < 2 ^ 32) × (length layers.now ≤ 8) × Each (λ l. terms_outside l ≡ 0) layers.now
        × (holes begin.now ≡ 5) × (length begin.now < 60) }
    ensures { Put out.old at (joined (map (terms_line begin.now) layers.now))
        out.new result × (result ≤ at + 25600) }
{
    let mut next = at;
    for l in layers {
        next = put_terms(out, next, begin, l);
    }
    next
}

// The whole text from the front of a buffer; on an empty part of it this only measures.
pub fn put_table(out: &mut [u8], programme: &Programme) -> usize
    requires { valid programme.now ≡ true }
    ensures { Put out.old 0 (text_of programme.now) out.new result }
{
    let treaties = &programme.treaties.places[..programme.treaties.count];
    let risk = &programme.risk.places[..programme.risk.count];
    let cat = &programme.cat.places[..programme.cat.count];
    let first = put_treaties(out, 0, treaties);
    let second = put_layers(out, first, b"(risk (band A L) (deduct D) (back K P", risk);
    put_layers(out, second, b"(cat (band A L) (deduct D) (back K P", cat)
}
