// Search in the rows: by id, and at a side and price.
#![tactic(auto)]

ghost use Rattle.std.specs.Prelude.{◌≡◌};
ghost use Rattle.message.specs.Same.{same_id};
ghost use Rattle.book.specs.Line.{has_level, same_level};
ghost use Rattle.book.specs.Rows.{id_of, line_of, side_of, find_row};
ghost use Rattle.book.specs.Lending.{rows_in};

use book::{LentRows, Resting};
use message::{L3Side, OrderId};

// Whether an order has the id.
#[tactic(auto, unfolding(message::specs::Same::same_id))]
pub fn has_id(o: Resting, id: OrderId) -> bool
    ensures { result ≡ same_id (id_of o) id }
{
    let own = OrderId {
        high: o.high,
        low: o.low,
    };
    own == id
}

// The first row with the id.
pub fn find(rows: LentRows<'_>, id: OrderId) -> Option<usize>
    ensures { result ≡ find_row (rows_in rows.entry) id 0 }
{
    (0..rows.count).find(|&i| has_id(rows.get(i), id))
}

// Whether an order rests at a side and price.
pub fn on_level(o: Resting, side: L3Side, price: u64) -> bool
    ensures { result ≡ same_level (side_of o.kind) o.price side price }
{
    (book::side_of(o.kind) == side) & (o.price == price)
}

// Whether a row rests at a side and price.
pub fn has_level(rows: LentRows<'_>, side: L3Side, price: u64) -> bool
    ensures { result ≡ has_level side price (line_of (rows_in rows.entry)) }
{
    (0..rows.count).any(|i| on_level(rows.get(i), side, price))
}
