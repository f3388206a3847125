// The checked figures of document 01, and those of document 02 on rates, event limits, the nearest cent, premium by
// time and the test of a scale, computed by the code: a line each, held to the stored output.
#![tactic(auto)]

ghost use Rattle.std.specs.Prelude.{[], ◌∷◌, ◌≡◌, ◌+◌, ◌^◌, ◌≤◌, take};
ghost use Rattle.treaty.specs.Ranges.{TermsInRange, LossInRange};
ghost use Rattle.layer.specs.Layer.{terms_of};
ghost use Rattle.layer.specs.Ranges.{InRange, Sound, SoundLayers};

use layer::amount::{Placed, Whole};
use layer::record::{Layer, Sums};
use layer::terms::Terms;
use layer::tier;
use treaty::{Loss, Treaty};

// Bytes to standard output. What cannot be written there is let go: the program goes on. No clause can tell
// what is printed, so that a crate for these lines would promise nothing: each program has its own.
fn words(rt: &impl Print, text: &[u8]) {
    let _ = rt.write_all(text);
}

fn amount(rt: &impl Print, cents: u64) {
    words(rt, b" ");
    let _ = rt.print(cents);
}

fn end_line(rt: &impl Print) {
    words(rt, b"\n");
}

fn line(rt: &impl Print, name: &[u8], cents: u64) {
    words(rt, name);
    amount(rt, cents);
    end_line(rt);
}

// A quota share.
fn quota(cede: u64, capacity: u64, limit: u64) -> Treaty
    requires { (cede ≤ 10000) × (capacity ≤ 10 ^ 13) × (limit ≤ 10 ^ 13) }
    ensures { TermsInRange result }
{
    Treaty {
        kind: treaty::QUOTA_SHARE,
        number: 1,
        cede,
        capacity,
        retention: 0,
        lines: 0,
        limit,
    }
}

// A surplus of three lines with a retention of 10,000.
fn surplus(limit: u64) -> Treaty
    requires { limit ≤ 10 ^ 13 }
    ensures { TermsInRange result }
{
    Treaty {
        kind: treaty::SURPLUS,
        number: 1,
        cede: 0,
        capacity: 0,
        retention: 10000,
        lines: 3,
        limit,
    }
}

fn loss(maximum: u64, amount: u64) -> Loss
    requires { (1 ≤ maximum) × (maximum ≤ 10 ^ 13) × (amount ≤ 10 ^ 13) }
    ensures { LossInRange result }
{
    Loss {
        treaty: 1,
        maximum,
        amount,
    }
}

// Shows what a treaty cedes of a loss after it took `taken` in the event; gives what it has then taken.
fn cession(rt: &impl Print, treaty: Treaty, taken: u64, loss: Loss) -> u64
    requires { TermsInRange treaty × LossInRange loss × (taken ≤ 10 ^ 15) }
    ensures { result ≤ taken + 10 ^ 13 }
{
    let c = treaty.cede(taken, loss);
    amount(rt, c.ceded);
    c.taken
}

// One loss of an event.
fn alone(rt: &impl Print, name: &[u8], treaty: Treaty, loss: Loss)
    requires { TermsInRange treaty × LossInRange loss }
{
    words(rt, name);
    cession(rt, treaty, 0, loss);
    end_line(rt);
}

// Three losses of one event in turn, and what the treaty took of them.
fn in_turn(rt: &impl Print, name: &[u8], treaty: Treaty, first: Loss, second: Loss, third: Loss)
    requires { TermsInRange treaty × LossInRange first × LossInRange second × LossInRange third }
{
    words(rt, name);
    let one = cession(rt, treaty, 0, first);
    let two = cession(rt, treaty, one, second);
    let three = cession(rt, treaty, two, third);
    words(rt, b" taken");
    amount(rt, three);
    end_line(rt);
}

fn quota_figures(rt: &impl Print) {
    alone(rt, b"C1", quota(4000, 0, 0), loss(101, 101));
    alone(rt, b"half a cent", quota(5000, 0, 0), loss(101, 101));
    alone(rt, b"C2", quota(4000, 20000, 0), loss(25000, 10000));
    alone(rt, b"C3", quota(4000, 20000, 0), loss(20000, 10000));
    in_turn(
        rt,
        b"C4",
        quota(4000, 0, 15000),
        loss(10000, 10000),
        loss(10000, 10000),
        loss(10000, 10000),
    );
    in_turn(
        rt,
        b"C4 with limit 5000",
        quota(4000, 0, 5000),
        loss(10000, 10000),
        loss(10000, 10000),
        loss(10000, 10000),
    );
    in_turn(
        rt,
        b"quota with limit 5000",
        quota(4000, 0, 5000),
        loss(10000, 10000),
        loss(10000, 1000),
        loss(10000, 10000),
    );
}

fn surplus_figures(rt: &impl Print) {
    alone(rt, b"C5", surplus(0), loss(10000, 10000));
    alone(rt, b"C6", surplus(0), loss(10001, 10001));
    alone(rt, b"C7", surplus(0), loss(40000, 8000));
    alone(rt, b"C8", surplus(0), loss(50000, 8000));
    in_turn(
        rt,
        b"surplus with limit 5000",
        surplus(5000),
        loss(40000, 8000),
        loss(40000, 2000),
        loss(40000, 8000),
    );
}

// A layer with nothing spent, from the numbers of its line: (band A L) (deduct D) (back K P Q1 Q2 Q3) (placed S), and
// 1 for (time). A rate that is not used is 0.
fn layer(a: u64, l: u64, d: u64, k: u64, p: u64, q1: u64, q2: u64, q3: u64, s: u64, w: u64) -> Layer
    requires { InRange (terms_of a l d k p (q1 ∷ q2 ∷ q3 ∷ []) s w) }
    ensures { Sound result }
{
    let terms = Terms {
        attachment: a,
        limit: l,
        deductible: d,
        reinstatements: k,
        premium: p,
        placed: s,
        rates: [
            q1, q2, q3, 0, 0, 0, 0, 0, 0, 0, 0, 0, 0, 0, 0, 0, 0, 0, 0, 0,
        ],
        time: w,
    };
    let spent = Whole::new(0);
    let timed = Placed::none();
    Layer {
        terms,
        spent,
        timed,
    }
}

// One without reinstatements.
fn plain(a: u64, l: u64, d: u64, s: u64) -> Layer
    requires { InRange (terms_of a l d 0 0 [] s 0) }
    ensures { Sound result }
{
    layer(a, l, d, 0, 0, 0, 0, 0, s, 0)
}

fn brought(rt: &impl Print, name: &[u8], layer: Layer, subject: u64) {
    let loss = layer.terms.brings(subject);
    line(rt, name, loss.cents());
}

// Nothing recovered or due yet, on a day of this share.
fn nothing(share: u64) -> Sums
    ensures { (result.share ≡ share) × (result.recovered.0 ≡ 0) × (result.premium.0 ≡ 0) }
{
    Sums {
        share,
        recovered: Placed::none(),
        premium: Placed::none(),
    }
}

// The record after a subject amount, whose recovery is shown. Without (time) the day's share does not matter.
fn recovery(rt: &impl Print, layer: Layer, subject: u64) -> Layer
    requires { Sound layer }
    ensures { Sound result }
{
    let borne = layer.bear(subject, nothing(0));
    let sums = borne.sums;
    amount(rt, sums.recovered.cents());
    borne.layer
}

// The year's figures: deductible left, cover left, recovered, premium.
fn year(rt: &impl Print, layer: Layer)
    requires { Sound layer }
{
    amount(rt, layer.deductible_left().cents());
    amount(rt, layer.cover_left().cents());
    amount(rt, layer.recovered().cents());
    amount(rt, layer.premium().cents());
}

// The recoveries of subject amounts, in turn, and the year's figures after them.
fn recoveries(rt: &impl Print, name: &[u8], layer: Layer, subjects: &[u64])
    requires { Sound layer }
{
    words(rt, name);
    let mut now = layer;
    for subject in subjects {
        now = recovery(rt, now, *subject);
    }
    words(rt, b" year");
    year(rt, now);
    end_line(rt);
}

fn layer_figures(rt: &impl Print) {
    brought(rt, b"L1 at 50", plain(50, 100, 0, 10000), 50);
    brought(rt, b"L1 at 51", plain(50, 100, 0, 10000), 51);
    recoveries(rt, b"L2", plain(0, 100, 0, 5000), &[1, 1]);
    recoveries(rt, b"placed 3333", plain(0, 100, 0, 3333), &[1, 1, 1, 1, 1]);
    recoveries(
        rt,
        b"L3 used 150",
        layer(0, 100, 0, 1, 1000, 10000, 0, 0, 10000, 0),
        &[100, 50],
    );
    recoveries(
        rt,
        b"L3 used 200",
        layer(0, 100, 0, 1, 1000, 10000, 0, 0, 10000, 0),
        &[100, 50, 50],
    );
    recoveries(
        rt,
        b"L4",
        layer(500000, 500000, 1000000, 1, 0, 0, 0, 0, 10000, 0),
        &[750000, 2000000, 1000000, 250000, 1000000],
    );
}

// Two reinstatements, the first of them free.
fn first_free() -> Layer
    ensures { Sound result }
{
    layer(0, 100, 0, 2, 1000, 0, 10000, 0, 10000, 0)
}

// The second of them.
fn second_free() -> Layer
    ensures { Sound result }
{
    layer(0, 100, 0, 2, 1000, 10000, 0, 0, 10000, 0)
}

// Three reinstatements, each at another rate.
fn three_rates() -> Layer
    ensures { Sound result }
{
    layer(0, 100, 0, 3, 999, 1, 20000, 7, 3333, 0)
}

// The premium at the ends of slices and inside them.
fn rate_figures(rt: &impl Print) {
    recoveries(rt, b"first free, used 100", first_free(), &[100]);
    recoveries(rt, b"first free, used 150", first_free(), &[100, 50]);
    recoveries(rt, b"first free, used 200", first_free(), &[100, 50, 50]);
    recoveries(rt, b"first free, used 300", first_free(), &[100, 100, 100]);
    recoveries(rt, b"second free, used 50", second_free(), &[50]);
    recoveries(rt, b"second free, used 100", second_free(), &[50, 50]);
    recoveries(
        rt,
        b"second free, used 300",
        second_free(),
        &[100, 100, 100],
    );
    recoveries(rt, b"three rates, used 99", three_rates(), &[99]);
    recoveries(rt, b"three rates, used 100", three_rates(), &[99, 1]);
    recoveries(rt, b"three rates, used 101", three_rates(), &[100, 1]);
    recoveries(rt, b"three rates, used 200", three_rates(), &[100, 1, 99]);
    recoveries(rt, b"three rates, used 299", three_rates(), &[100, 99, 100]);
    recoveries(
        rt,
        b"three rates, used 300",
        three_rates(),
        &[100, 100, 100],
    );
    recoveries(
        rt,
        b"three rates, used 301",
        three_rates(),
        &[100, 100, 100, 1],
    );
}

// The built-in share of a day.
fn share(day: u64) -> u64
    ensures { result ≤ 10000 }
{
    scale::share_on(&scale::built_in(), day)
}

// The record after a subject amount on a day, whose premium is shown.
fn premium(rt: &impl Print, layer: Layer, subject: u64, day: u64) -> Layer
    requires { Sound layer }
    ensures { Sound result }
{
    let borne = layer.bear(subject, nothing(share(day)));
    let sums = borne.sums;
    amount(rt, sums.premium.cents());
    borne.layer
}

// The premiums of a subject amount on days, in turn, and the year's figures after them.
fn premiums(rt: &impl Print, name: &[u8], layer: Layer, subject: u64, days: &[u64])
    requires { Sound layer }
{
    words(rt, name);
    let mut now = layer;
    for day in days {
        now = premium(rt, now, subject, *day);
    }
    words(rt, b" year");
    year(rt, now);
    end_line(rt);
}

// A layer with (time), of which half is used by 500,000, at 182,500.
fn by_time() -> Layer
    ensures { Sound result }
{
    layer(0, 1000000, 0, 1, 365000, 10000, 0, 0, 10000, 1)
}

fn time_figures(rt: &impl Print) {
    premiums(rt, b"time, day 1", by_time(), 500000, &[1]);
    premiums(rt, b"time, day 184", by_time(), 500000, &[184]);
    premiums(rt, b"time, day 366", by_time(), 500000, &[366]);
    premiums(
        rt,
        b"time, days 100 and 200",
        by_time(),
        500000,
        &[100, 200],
    );
    premiums(rt, b"time, at once on day 100", by_time(), 1000000, &[100]);
    premiums(rt, b"time, at once on day 184", by_time(), 1000000, &[184]);
}

// Whether shares are a scale: 1 for yes, 0 for no.
fn tested(rt: &impl Print, name: &[u8], shares: &[u64]) {
    line(rt, name, u64::from(scale::passes(shares)));
}

// 7,201 on every day, and one day changed at a time.
fn scale_figures(rt: &impl Print) {
    let mut shares = [7201u64; 367];
    tested(rt, b"scale of 365 days", &shares[..365]);
    tested(rt, b"scale of 366 days", &shares[..366]);
    tested(rt, b"scale of 367 days", &shares);
    shares[365] = 7202;
    tested(rt, b"scale that rises on the last day", &shares[..366]);
    shares[365] = 3333;
    tested(rt, b"scale that falls on the last day", &shares[..366]);
    shares[0] = 10000;
    tested(rt, b"scale that begins with the whole", &shares[..366]);
    shares[0] = 10001;
    tested(rt, b"scale that begins above the whole", &shares[..366]);
}

// The catastrophe tier of H1: its layers stand in the first three places.
fn cat_layers() -> [Layer; tier::PLACES]
    ensures { SoundLayers (take 3 result) }
{
    let first = plain(25000000, 75000000, 75000000, 10000);
    let second = layer(100000000, 150000000, 0, 1, 75000000, 5000, 0, 0, 8000, 0);
    let third = layer(250000000, 150000000, 0, 1, 30000000, 10000, 0, 0, 7200, 0);
    [first, second, third, first, first, first, first, first]
}

// One subject to every layer of a tier: recoveries and premiums, added.
fn tier_figures(rt: &impl Print) {
    let borne = tier::bear_first(cat_layers(), 3, &[350000000], nothing(0));
    let sums = borne.sums;
    words(rt, b"H1 tier");
    amount(rt, sums.recovered.cents());
    amount(rt, sums.premium.cents());
    end_line(rt);
}

fn main(rt: HostRuntime) {
    quota_figures(&rt);
    surplus_figures(&rt);
    layer_figures(&rt);
    rate_figures(&rt);
    time_figures(&rt);
    scale_figures(&rt);
    tier_figures(&rt);
}
