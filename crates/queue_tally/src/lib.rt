// Sums over the orders ahead of an own order: what an ahead-list's entries and the rows before our own add up to.
#![tactic(auto)]

ghost use Rattle.std.specs.Prelude.{◌≡◌, cond, ◌*◌, ◌≤◌, ltb, length};
ghost use Rattle.message.specs.Same.{same_id};
ghost use Rattle.message.specs.Values.{amount_limit};
ghost use Rattle.book.specs.Line.{same_level};
ghost use Rattle.book.specs.Rows.{side_of, id_of};
ghost use Rattle.book.specs.Lending.{rows_in};
ghost use Rattle.book_queue.specs.Queue.{rows_at};
ghost use Rattle.queue.specs.Ahead.{row_with, entered_at as Ahead·entered_at, ahead_entry_words, entries_from, still_ahead, before, decreased_after, tally_of};
ghost use Rattle.queue.specs.Tallies.{no_tally, tally_with, tally_joined, Small};
ghost use Rattle.queue.specs.Estimates.{list_bound};

use book::{Resting, SoundRows};
use book_queue::AHEAD_ENTRY_WORDS;
use message::{L3Side, OrderId};
use queue::Tally;

// What an order adds to the volume from snapshots.
fn snapshot_size(o: Resting) -> u64
    ensures { result ≡ cond (ltb o.kind 2) o.remaining 0 }
{
    if o.kind < 2 { o.remaining } else { 0 }
}

// What an order adds to the observed volume.
fn observed_size(o: Resting) -> u64
    ensures { result ≡ cond (ltb o.kind 2) 0 o.remaining }
{
    if o.kind < 2 { 0 } else { o.remaining }
}

fn decreased_after(since: u64, o: Resting) -> bool
    ensures { result ≡ decreased_after since o }
{
    (o.decreased != 0) & (since < o.decreased_at)
}

fn no_tally() -> Tally
    ensures { result ≡ no_tally }
{
    Tally::default()
}

// A tally with one order more.
fn tally_with(since: u64, o: Resting, t: Tally) -> Tally
    requires { (o.remaining ≤ amount_limit) × Small t }
    ensures { result ≡ tally_with since o t }
{
    let from_snapshot = snapshot_size(o);
    let observed = observed_size(o);
    let decreased = decreased_after(since, o);
    Tally {
        volume: o.remaining + t.volume,
        from_snapshot: from_snapshot + t.from_snapshot,
        observed: observed + t.observed,
        orders: t.orders + 1,
        decreased: decreased | t.decreased,
    }
}

// A tally with the order of an ahead-list's entry, while it rests.
fn tally_entry(sound: SoundRows<'_>, id: OrderId, entered_at: u64, since: u64, t: Tally) -> Tally
    requires { Small t }
    ensures { result ≡ tally_joined since (Ahead·entered_at entered_at (row_with id (rows_in sound.entry.rows))) t }
{
    match queue_place::resting_since(sound.rows, id, entered_at) {
        Some(o) => tally_with(since, o, t),
        None => t,
    }
}

// The tally of `orders` entries of an ahead-list.
pub fn tally_list(sound: SoundRows<'_>, ahead: &[u64], orders: usize, since: u64) -> Tally
    requires { (ahead_entry_words * orders ≤ length ahead.now) × (orders ≤ list_bound) }
    ensures { result ≡ tally_of since (still_ahead (rows_in sound.entry.rows) (entries_from ahead.now 0 orders)) }
{
    let mut t = no_tally();
    for i in (0..orders).rev() {
        let at = AHEAD_ENTRY_WORDS * i;
        let id = OrderId {
            high: ahead[at],
            low: ahead[at + 1],
        };
        t = tally_entry(sound, id, ahead[at + 2], since, t);
    }
    t
}

// A tally of the orders from a row on that rest before our own, the row being one more. At our own order it starts anew: those behind do not count.
fn tally_row(o: Resting, side: L3Side, price: u64, own: OrderId, since: u64, t: Tally) -> Tally
    requires { (o.remaining ≤ amount_limit) × Small t }
    ensures { result ≡ cond (same_level (side_of o.kind) o.price side price) (cond (same_id (id_of o) own) no_tally (tally_with since o t)) t }
{
    if book_search::on_level(o, side, price) {
        if book_search::has_id(o, own) {
            return no_tally();
        }
        return tally_with(since, o, t);
    }
    t
}

// The tally of the orders at a side and price before our own.
pub fn tally_before(
    sound: SoundRows<'_>,
    side: L3Side,
    price: u64,
    own: OrderId,
    since: u64,
) -> Tally
    ensures { result ≡ tally_of since (before own (rows_at side price (rows_in sound.entry.rows))) }
{
    let rows = sound.rows;
    let mut t = no_tally();
    for i in (0..rows.count).rev() {
        t = tally_row(rows.get(i), side, price, own, since, t);
    }
    t
}
