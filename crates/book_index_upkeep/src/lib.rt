// The upkeep of an index: its places and bounds from the rows, and what an event adds.
#![tactic(auto)]

ghost use Rattle.std.specs.Prelude.{◌≡◌, true, ◌≤◌, length};
ghost use Rattle.book.specs.Rows.{most_rows};
ghost use Rattle.book.specs.Lending.{rows_in};
ghost use Rattle.book_index.specs.Index.{bounded, row_marked, row_bounded, all, Foreseen, marked_at, noted};

use book::LentRows;
use book_index::Bounds;
use message::{L3Event, L3Side, OrderId};

// The order of that id rests at row `place`, or is about to.
fn mark(places: &mut [u16], place: usize, id: OrderId)
    requires { (length places.old ≤ 65536) × (place ≤ most_rows) }
    ensures { places.new ≡ marked_at places.old place id }
{
    let m = places.len();
    if m > 0 {
        let b = book_index::bucket_of(id, m);
        places[b] = (place + 1) as u16;
    }
}

// Marks the rows.
pub fn mark_rows(rows: LentRows<'_>, places: &mut [u16])
    requires { length places.old ≤ 65536 }
    ensures { all (row_marked places.new) (rows_in rows.entry) ≡ true }
{
    for i in 0..rows.count {
        let o = rows.get(i);
        mark(
            places,
            i,
            OrderId {
                high: o.high,
                low: o.low,
            },
        );
    }
}

// The bounds of the rows.
pub fn bounds_of(rows: LentRows<'_>) -> Bounds
    ensures { all (row_bounded (Some result)) (rows_in rows.entry) ≡ true }
{
    let mut bounds = Bounds {
        high_bid: 0,
        low_ask: u64::MAX,
    };
    for i in (0..rows.count).rev() {
        let o = rows.get(i);
        bounds = bounds.widened(book::side_of(o.kind), o.price);
    }
    bounds
}

// The bounds to go by for an open at that side and price: found anew where those at hand do not tell, since orders that have left widened them.
fn bounds_for(rows: LentRows<'_>, bounds: Option<Bounds>, side: L3Side, price: u64) -> Bounds
    requires { all (row_bounded bounds) (rows_in rows) ≡ true }
    ensures { (all (row_bounded (Some result)) (rows_in rows.entry) ≡ true) × (bounded (Some result) side price ≡ true) }
{
    let Some(known) = bounds else {
        return bounds_of(rows).widened(side, price);
    };
    if known.clear_of(side, price) {
        return known.widened(side, price);
    }
    bounds_of(rows).widened(side, price)
}

// The bounds to go by for an event, wide enough for the order that it may add.
pub fn foresee(rows: LentRows<'_>, bounds: Option<Bounds>, event: L3Event) -> Option<Bounds>
    requires { all (row_bounded bounds) (rows_in rows) ≡ true }
    ensures { (all (row_bounded result) (rows_in rows.entry) ≡ true) × Foreseen result event }
{
    match event {
        L3Event::Received { .. } => bounds,
        L3Event::Open { side, price, .. } => {
            let wide = bounds_for(rows, bounds, side, message::amount::size_of(price));
            Some(wide)
        }
        L3Event::Done { .. } => bounds,
        L3Event::Match { .. } => bounds,
        L3Event::Change { .. } => bounds,
        L3Event::Unsupported { .. } => bounds,
    }
}

// Marks the order that an event may have added behind `n` rows. One that was refused is in the index then too, and costs a search at most.
pub fn note(places: &mut [u16], n: usize, event: L3Event)
    requires { (length places.old ≤ 65536) × (n ≤ most_rows) }
    ensures { places.new ≡ noted places.old n event }
{
    match event {
        L3Event::Received { .. } => {}
        L3Event::Open { order_id, .. } => mark(places, n, order_id),
        L3Event::Done { .. } => {}
        L3Event::Match { .. } => {}
        L3Event::Change { .. } => {}
        L3Event::Unsupported { .. } => {}
    }
}
