// A tier's layers through amounts: their records are made from lent terms and a standing's numbers of the tier where an
// amount may move them, and their spent amounts and timed premiums stored again. What stands in several lists is gone
// through by its place: a zip of them hands out nested pairs, whose facts are longer than those of the places. The
// lists go side by side: two are lent to write in, and a struct would have to say that it still holds the same ones.
ghost use Rattle.std.specs.Prelude.{[], ◌≡◌, ◌≤◌, length, take};
ghost use Rattle.lists.specs.Each.{Each};
ghost use Rattle.lists.specs.Places.{in_places};
ghost use Rattle.layer.specs.Layer.{sums_of};
ghost use Rattle.layer.specs.Ranges.{InRange};
ghost use Rattle.layer.specs.Tier.{layers_through, recoveries_through, dues_through};
ghost use Rattle.year.specs.Standing.{layers_with, spent_of, timed_of};
ghost use Rattle.standings.specs.Tier.{reached_by, exhausted_of, largest_of, CanBear};

use layer::record::{Layer, Sums};
use layer::terms::Terms;
use layer::tier::Tier;
use programme::contract;
use programme::contract::PLACES;

// The largest of some amounts, 0 of none.
fn largest(amounts: &[u64]) -> u64
    ensures { result ≡ largest_of amounts.now }
{
    amounts
        .iter()
        .copied()
        .fold(0, |most, amount| most.max(amount))
}

// How many layers, from the first on, an amount reaches: their attachment is below it.
fn reached(terms: &[Terms], amount: u64) -> usize
    ensures within { result ≤ length terms.now }
    ensures reached { result ≡ reached_by amount terms.now }
{
    terms
        .iter()
        .take_while(|own| own.attachment < amount)
        .count()
}

// How many layers, from the first on, have spent up to their cap: no amount moves them.
fn exhausted(terms: &[Terms], spent: &[u64]) -> usize
    requires places { length terms.now ≤ length spent.now }
    requires ranges { Each InRange terms.now }
    ensures within { result ≤ length terms.now }
    ensures exhausted { result ≡ exhausted_of (layers_with terms.now spent.now []) }
{
    for (place, own) in terms.iter().enumerate() {
        if spent[place] < own.cap().cents() {
            return place;
        }
    }
    terms.len()
}

// The records of layers, in the first places; the others are not read.
fn records(terms: &[Terms], spent: &[u64], timed: &[u64]) -> [Layer; PLACES]
    requires few { length terms.now ≤ 8 }
    requires spent { length spent.now ≡ length terms.now }
    requires timed { length timed.now ≡ length terms.now }
    ensures { take (length terms.now) result ≡ layers_with terms.now spent.now timed.now }
{
    let mut layers = [Layer::of_standing(contract::no_terms(), 0, 0); PLACES];
    for (place, own) in terms.iter().enumerate() {
        layers[place] = Layer::of_standing(*own, spent[place], timed[place]);
    }
    layers
}

// Stores the spent amounts and the timed premiums of layers.
fn store(layers: &[Layer], spent: &mut [u64], timed: &mut [u64])
    requires spent { length spent.old ≡ length layers.now }
    requires timed { length timed.old ≡ length layers.now }
    ensures spent { spent.new ≡ spent_of layers.now }
    ensures timed { timed.new ≡ timed_of layers.now }
{
    for (place, layer) in layers.iter().enumerate() {
        spent[place] = layer.spent.cents();
        timed[place] = layer.timed.cents();
    }
}

// Amounts come to a tier on a day of some time share, each in turn the subject of every layer: its spent amounts and
// timed premiums after them, and what it recovers and what premium is due. Bands rise: no layer after the first that no
// amount reaches is reached. Of the reached ones, those from the first on that have spent up to their cap are passed
// over. Neither move, and no record is made of them.
pub fn bear(
    terms: &[Terms],
    spent: &mut [u64],
    timed: &mut [u64],
    share: u64,
    subjects: &[u64],
) -> Sums
    requires lent { CanBear terms.now spent.old timed.old }
    requires share { share ≤ 10000 }
    ensures sums { let layers = layers_with terms.now spent.old timed.old
        in result ≡ sums_of share (recoveries_through subjects.now layers) (dues_through share subjects.now layers) }
    ensures spent { let layers = layers_with terms.now spent.old timed.old
        in spent.new ≡ in_places 0 (spent_of (layers_through share subjects.now layers)) }
    ensures timed { let layers = layers_with terms.now spent.old timed.old
        in timed.new ≡ in_places 0 (timed_of (layers_through share subjects.now layers)) }
{
    let none = Sums::none(share);
    let end = reached(terms, largest(subjects));
    let from = exhausted(&terms[..end], spent);
    if from == end {
        return none;
    }
    let count = end - from;
    let mut moved = Tier {
        layers: records(&terms[from..end], &spent[from..end], &timed[from..end]),
        count,
    };
    let sums = moved.bear(subjects, none);
    store(
        &moved.layers[..count],
        &mut spent[from..end],
        &mut timed[from..end],
    );
    sums
}
