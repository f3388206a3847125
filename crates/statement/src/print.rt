// The text of a line: a piece of the line and the number after it in turn, or the length alone. Buffer and place stand
// side by side, as in `buffer` (text), which says why. Room for a line stands in contracts, since the place moves.
ghost use Rattle.std.specs.Prelude.{[], ◌∷◌, ◌++◌, ◌≡◌, ◌+◌, ◌^◌, ◌≤◌, ◌<◌, length};
ghost use Rattle.text.specs.Buffer.{Put};
ghost use Rattle.text.specs.Number.{digits};
ghost use Rattle.text.specs.Template.{filled};
ghost use Rattle.year.specs.Statement.{event_template, treaty_template, total_template, amounts_numbers};
ghost use Rattle.statement.specs.LineKinds.{tier_template, beginning_of, figures_numbers, template_of, numbers_of};
ghost use Rattle.statement.specs.LineKinds.{layer_bytes, amounts_tail, last_tail, figures_tail};

use crate::line::{Figures, Line, Tier};
use text::{buffer, number};
use year::Amounts;

// No line has more bytes, whatever its numbers are, its line feed included.
pub const LONGEST_LINE: usize = 200;

// The bytes of each kind of line that stand for themselves, its line feed included.
const EVENT_BYTES: usize = 60;

const TREATY_BYTES: usize = 19;

const RISK_BYTES: usize = 61;

const CAT_BYTES: usize = 60;

const TOTAL_BYTES: usize = 59;

// A piece of a line and the number after it, where there is room for them.
fn put_field(out: &mut [u8], at: usize, piece: &[u8], number: u64) -> usize
    requires { at + length piece.now + 20 ≤ length out.old }
    ensures { Put out.old at (piece.now ++ digits number) out.new result
        × (result ≤ at + length piece.now + 20) }
{
    let next = buffer::put_within(out, at, piece);
    number::put_within(out, next, number)
}

// The last three amounts of an event's line and of the totals', and the line feed.
fn put_last(out: &mut [u8], at: usize, amounts: Amounts) -> usize
    requires { at + 88 ≤ length out.old }
    ensures { Put out.old at
        (filled last_tail (amounts.cat ∷ amounts.net ∷ amounts.premium ∷ []) (10 ∷ []))
        out.new result × (result ≤ at + 88) }
{
    let cat = put_field(out, at, b") (cat ", amounts.cat);
    let net = put_field(out, cat, b") (net ", amounts.net);
    let premium = put_field(out, net, b") (premium ", amounts.premium);
    buffer::put_within(out, premium, b"))\n")
}

// All six, and the line feed.
fn put_amounts(out: &mut [u8], at: usize, amounts: Amounts) -> usize
    requires { at + 173 ≤ length out.old }
    ensures { Put out.old at (filled amounts_tail (amounts_numbers amounts) (10 ∷ []))
        out.new result × (result ≤ at + 173) }
{
    let gross = put_field(out, at, b" (gross ", amounts.gross);
    let ceded = put_field(out, gross, b") (ceded ", amounts.ceded);
    let risk = put_field(out, ceded, b") (risk ", amounts.risk);
    put_last(out, risk, amounts)
}

// The figures that end a layer's line, and the line feed.
fn put_figures(out: &mut [u8], at: usize, figures: Figures) -> usize
    requires { at + 129 ≤ length out.old }
    ensures { Put out.old at (filled figures_tail (figures_numbers figures) (10 ∷ []))
        out.new result × (result ≤ at + 129) }
{
    let deductible = put_field(out, at, b" (deductible ", figures.deductible);
    let cover = put_field(out, deductible, b") (cover ", figures.cover);
    let recovered = put_field(out, cover, b") (recovered ", figures.recovered);
    let premium = put_field(out, recovered, b") (premium ", figures.premium);
    buffer::put_within(out, premium, b"))\n")
}

// The line of an event, with its line feed, where there is room for one: 60 bytes and seven numbers.
pub fn put_event(out: &mut [u8], at: usize, day: u64, amounts: Amounts) -> usize
    requires { at + 200 ≤ length out.old }
    ensures { Put out.old at (filled event_template (day ∷ amounts_numbers amounts) (10 ∷ []))
        out.new result × (result ≤ at + 200) }
{
    let next = put_field(out, at, b"(event ", day);
    put_amounts(out, next, amounts)
}

// That of a treaty.
fn put_treaty(out: &mut [u8], at: usize, treaty: u64, ceded: u64) -> usize
    requires { at + 200 ≤ length out.old }
    ensures { Put out.old at (filled treaty_template (treaty ∷ ceded ∷ []) (10 ∷ []))
        out.new result × (result ≤ at + 200) }
{
    let next = put_field(out, at, b"(treaty ", treaty);
    let last = put_field(out, next, b" (ceded ", ceded);
    buffer::put_within(out, last, b"))\n")
}

// What the line of a layer begins with.
fn beginning(tier: Tier) -> &'static [u8]
    ensures { (result.now ≡ beginning_of tier) × (length result.now ≤ 12) }
{
    match tier {
        Tier::Risk => b"(layer risk ",
        Tier::Cat => b"(layer cat ",
    }
}

// That of a layer.
fn put_layer(out: &mut [u8], at: usize, tier: Tier, place: u64, figures: Figures) -> usize
    requires { at + 200 ≤ length out.old }
    ensures { Put out.old at
        (filled (tier_template tier) (place ∷ figures_numbers figures) (10 ∷ []))
        out.new result × (result ≤ at + 200) }
{
    let next = put_field(out, at, beginning(tier), place);
    put_figures(out, next, figures)
}

// That of the totals.
pub fn put_total(out: &mut [u8], at: usize, total: Amounts) -> usize
    requires { at + 200 ≤ length out.old }
    ensures { Put out.old at (filled total_template (amounts_numbers total) (10 ∷ []))
        out.new result × (result ≤ at + 200) }
{
    let next = buffer::put_within(out, at, b"(total");
    put_amounts(out, next, total)
}

// A line of any kind, with its line feed, where there is room for one. It has at most 200 bytes.
fn put_within(out: &mut [u8], at: usize, line: Line) -> usize
    requires { at + 200 ≤ length out.old }
    ensures { Put out.old at (filled (template_of line) (numbers_of line) (10 ∷ []))
        out.new result × (result ≤ at + 200) }
{
    match line {
        Line::Event(day, amounts) => put_event(out, at, day, amounts),
        Line::Treaty(number, ceded) => put_treaty(out, at, number, ceded),
        Line::Layer(tier, place, figures) => put_layer(out, at, tier, place, figures),
        Line::Total(total) => put_total(out, at, total),
    }
}

// The same as far as there is room.
fn put_cut(out: &mut [u8], at: usize, line: Line) -> usize
    requires { at < 2 ^ 41 }
    ensures { Put out.old at (filled (template_of line) (numbers_of line) (10 ∷ []))
        out.new result × (result ≤ at + 200) }
{
    let mut text = [0u8; LONGEST_LINE];
    let end = put_within(&mut text, 0, line);
    buffer::put_all(out, at, &text[..end])
}

// The bytes of a layer's line that stand for themselves.
fn layer_bytes(tier: Tier) -> usize
    ensures { (result ≡ layer_bytes tier) × (result ≤ 61) }
{
    match tier {
        Tier::Risk => RISK_BYTES,
        Tier::Cat => CAT_BYTES,
    }
}

// How many bytes a line has, its line feed included: those that stand for themselves, and the digits.
fn size(line: Line) -> usize
    ensures { (result ≡ length (filled (template_of line) (numbers_of line) (10 ∷ [])))
        × (result ≤ 200) }
{
    match line {
        Line::Event(day, a) => {
            EVENT_BYTES + number::sizes(&[day, a.gross, a.ceded, a.risk, a.cat, a.net, a.premium])
        }
        Line::Treaty(number, ceded) => TREATY_BYTES + number::sizes(&[number, ceded]),
        Line::Layer(tier, place, f) => {
            layer_bytes(tier)
                + number::sizes(&[place, f.deductible, f.cover, f.recovered, f.premium])
        }
        Line::Total(a) => {
            TOTAL_BYTES + number::sizes(&[a.gross, a.ceded, a.risk, a.cat, a.net, a.premium])
        }
    }
}

// A line with its line feed. Where there is no buffer it is only measured.
pub fn put_line(out: &mut [u8], at: usize, line: Line) -> usize
    requires { at < 2 ^ 41 }
    ensures { Put out.old at (filled (template_of line) (numbers_of line) (10 ∷ []))
        out.new result × (result ≤ at + 200) }
{
    if at + LONGEST_LINE <= out.len() {
        return put_within(out, at, line);
    }
    if out.len() == 0 {
        return at + size(line);
    }
    put_cut(out, at, line)
}
