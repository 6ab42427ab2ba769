// An index beside the rows, for a run of messages: where to look first for an id, and prices that an open does not cross. Orders that have left stay in it,
// so that a removal costs nothing; a row has moved down since it was marked, never up.
#![tactic(auto)]

ghost use Rattle.std.specs.Prelude.{◌≡◌, ◌≤◌, ◌<◌};
ghost use Rattle.book.specs.Line.{would_cross};
ghost use Rattle.book.specs.Rows.{line_of, find_row};
ghost use Rattle.book.specs.Lending.{rows_in};
ghost use Rattle.book_buckets.specs.Buckets.{bucket_of};
ghost use Rattle.book_index.specs.Index.{key_for, widened, clear_of, clears, Near};

use book::LentRows;
use book_row_keys::Key;
use message::{L3Side, OrderId};

mod indexed;

pub use indexed::IndexedRows;

// No buy is above `high_bid`, no sell below `low_ask`.
#[derive(Clone, Copy)]
pub struct Bounds {
    pub high_bid: u64,
    pub low_ask: u64,
}

impl Bounds {
    // Wide enough for one order more.
    pub fn widened(self, side: L3Side, price: u64) -> Self
        ensures { result ≡ widened self side price }
    {
        match side {
            L3Side::Buy => Self {
                high_bid: self.high_bid.max(price),
                ..self
            },
            L3Side::Sell => Self {
                low_ask: self.low_ask.min(price),
                ..self
            },
        }
    }

    // Whether they tell that an open does not cross.
    pub fn clear_of(self, side: L3Side, price: u64) -> bool
        ensures { result ≡ clear_of self side price }
    {
        match side {
            L3Side::Buy => price < self.low_ask,
            L3Side::Sell => self.high_bid < price,
        }
    }
}

// The bucket of an id, of `m`.
pub fn bucket_of(id: OrderId, m: usize) -> usize
    requires { (0 < m) × (m ≤ 65536) }
    ensures { (result ≡ bucket_of (key_for id) m) × (result < m) }
{
    book_buckets::bucket(
        Key {
            high: id.high,
            low: id.low,
        },
        m,
    )
}

// A row with the id among the last 256 before row `k`.
fn find_near(rows: LentRows<'_>, k: usize, id: OrderId) -> Option<usize>
    requires { k ≤ rows.count }
    ensures { Near rows.entry.words.now k id result }
{
    (k.saturating_sub(256)..k)
        .rev()
        .find(|&j| book_search::has_id(rows.get(j), id))
}

// The row with the id: looked for from its place in the index down, and where that misses it, from the first row on.
pub fn find(index: IndexedRows<'_>, id: OrderId) -> Option<usize>
    ensures { result ≡ find_row (rows_in index.entry.rows) id 0 }
{
    let rows = index.rows;
    let m = index.places.len();
    if m == 0 {
        return book_search::find(rows, id);
    }
    let place = book_buckets::row_of(index.places[bucket_of(id, m)]);
    if place == 0 {
        return None;
    }
    let Some(i) = find_near(rows, place.min(rows.count), id) else {
        return book_search::find(rows, id);
    };
    Some(i)
}

// Whether bounds are known, and tell that an open does not cross.
#[tactic(auto, unfolding(crate::specs::Index::clears))]
fn clears(bounds: Option<Bounds>, side: L3Side, price: u64) -> bool
    ensures { result ≡ clears bounds side price }
{
    bounds.is_some_and(|known| known.clear_of(side, price))
}

// Whether an order at that side and price would cross the best of the other side.
pub fn would_cross(index: IndexedRows<'_>, side: L3Side, price: u64) -> bool
    ensures { result ≡ would_cross side price (line_of (rows_in index.entry.rows)) }
{
    if clears(index.bounds, side, price) {
        return false;
    }
    book_prices::would_cross(index.rows, side, price)
}
