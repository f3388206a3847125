// The lines of a statement by what they show, each put with its line feed.
ghost use Rattle.std.specs.Prelude.{[], ◌∷◌, map, ◌≡◌, ◌+◌, ◌*◌, ◌^◌, ◌≤◌, ◌<◌, length};
ghost use Rattle.lists.specs.Each.{Each};
ghost use Rattle.text.specs.Buffer.{Put};
ghost use Rattle.text.specs.Lines.{joined};
ghost use Rattle.text.specs.Template.{filled};
ghost use Rattle.layer.specs.Ranges.{Sound};
ghost use Rattle.year.specs.Standing.{layers_with};
ghost use Rattle.year.specs.Statement.{event_template, total_template, event_numbers, amounts_numbers, line_text};
ghost use Rattle.year.specs.Statement.{added, layer_line_of, layer_numbers, treaty_shown, layers_shown};
ghost use Rattle.losses.specs.Treaties.{treaties_from};
ghost use Rattle.statement.specs.TreatyLines.{ceded_line};
ghost use Rattle.statement.specs.LineKinds.{tier_template};

use crate::line::{Figures, Line, Tier};
use crate::print;
use layer::record::Layer;
use layer::terms::Terms;
use text::{buffer, number};
use treaty::Treaty;
use year::Amounts;

// No line of an idle event, one without losses, has more bytes, its line feed included.
pub const LONGEST_IDLE: usize = 86;

// Its bytes but for the day's digits.
const IDLE_BYTES: usize = 66;

// The line of an event. Where there is room for one the kinds of lines need not be told apart.
pub fn put_event(out: &mut [u8], at: usize, day: u64, amounts: Amounts) -> usize
    requires { at < 2 ^ 41 }
    ensures { Put out.old at
        (filled event_template (event_numbers (record { day = day; amounts = amounts })) (10 ∷ []))
        out.new result × (result ≤ at + 200) }
{
    if at + print::LONGEST_LINE <= out.len() {
        return print::put_event(out, at, day, amounts);
    }
    print::put_line(out, at, Line::Event(day, amounts))
}

// That of an idle event where there is room for a line.
fn put_idle_within(out: &mut [u8], at: usize, day: u64) -> usize
    requires { at + 86 ≤ length out.old }
    ensures { Put out.old at
        (filled event_template (event_numbers (record { day = day; amounts = added [] })) (10 ∷ []))
        out.new result × (result ≤ at + 86) }
{
    let word = buffer::put_within(out, at, b"(event ");
    let number = number::put_within(out, word, day);
    buffer::put_within(
        out,
        number,
        b" (gross 0) (ceded 0) (risk 0) (cat 0) (net 0) (premium 0))\n",
    )
}

// That of an idle event. Where there is no buffer it is only measured; where the end of one may come before its own, it
// is put as any event's.
pub fn put_idle(out: &mut [u8], at: usize, day: u64) -> usize
    requires { at < 2 ^ 41 }
    ensures { Put out.old at
        (filled event_template (event_numbers (record { day = day; amounts = added [] })) (10 ∷ []))
        out.new result × (result ≤ at + 86) }
{
    if at + LONGEST_IDLE <= out.len() {
        return put_idle_within(out, at, day);
    }
    if out.len() == 0 {
        return at + IDLE_BYTES + number::size(day);
    }
    put_event(out, at, day, Amounts::none())
}

// Those of the treaties, in the table's order, and what each cedes in this run, from its place of `cessions`.
pub fn put_treaties(out: &mut [u8], at: usize, register: &[Treaty], cessions: &[u64]) -> usize
    requires { (at < 2 ^ 40) × (length register.now ≡ 9)
        × Each (λ t. t.number < length cessions.now) register.now }
    ensures { Put out.old at
        (joined (map line_text (map treaty_shown (map (ceded_line cessions.now)
        (treaties_from register.now))))) out.new result × (result ≤ at + 1800) }
{
    let mut next = at;
    for treaty in register {
        let number = treaty.number;
        if number != 0 {
            let ceded = cessions[number as usize];
            next = print::put_line(out, next, Line::Treaty(number, ceded));
        }
    }
    next
}

// That of a layer, by its tier and its place there: deductible left, cover left, recovered, premium.
fn put_layer(out: &mut [u8], at: usize, tier: Tier, place: u64, layer: Layer) -> usize
    requires { (at < 2 ^ 41) × Sound layer }
    ensures { Put out.old at
        (filled (tier_template tier) (layer_numbers place (layer_line_of layer)) (10 ∷ []))
        out.new result × (result ≤ at + 200) }
{
    let figures = Figures {
        deductible: layer.deductible_left().cents(),
        cover: layer.cover_left().cents(),
        recovered: layer.recovered().cents(),
        premium: layer.premium().cents(),
    };
    print::put_line(out, at, Line::Layer(tier, place, figures))
}

// Those of a tier's layers, by the layer's place in each list (a zip of three hands out nested pairs, whose facts are
// longer).
pub fn put_layers(
    out: &mut [u8],
    at: usize,
    tier: Tier,
    terms: &[Terms],
    spent: &[u64],
    timed: &[u64],
) -> usize
    requires { (at < 2 ^ 40) × (length terms.now ≤ 8) × (length spent.now ≡ 8)
        × (length timed.now ≡ 8) × Each Sound (layers_with terms.now spent.now timed.now) }
    ensures { Put out.old at
        (joined (map line_text (layers_shown (tier_template tier) 1 (map layer_line_of
        (layers_with terms.now spent.now timed.now))))) out.new result
        × (result ≤ at + 200 * length terms.now) }
{
    let mut next = at;
    for (i, own) in terms.iter().enumerate() {
        let layer = Layer::of_standing(*own, spent[i], timed[i]);
        next = put_layer(out, next, tier, i as u64 + 1, layer);
    }
    next
}

// That of the totals, as `put_event` has it: a function for both would tell the kinds apart.
pub fn put_total(out: &mut [u8], at: usize, total: Amounts) -> usize
    requires { at < 2 ^ 41 }
    ensures { Put out.old at (filled total_template (amounts_numbers total) (10 ∷ []))
        out.new result × (result ≤ at + 200) }
{
    if at + print::LONGEST_LINE <= out.len() {
        return print::put_total(out, at, total);
    }
    print::put_line(out, at, Line::Total(total))
}
