// The best prices of the rows, and whether an order would cross them.
#![tactic(auto)]

ghost use Rattle.std.specs.Prelude.{◌≡◌, cond};
ghost use Rattle.message.specs.declared.L3Side.TheVariants.{Buy, Sell};
ghost use Rattle.message.specs.Same.{same_side};
ghost use Rattle.book.specs.Line.{better, best, meet, would_cross};
ghost use Rattle.book.specs.Rows.{line_of, side_of};
ghost use Rattle.book.specs.Lending.{rows_in};

use book::{LentRows, Resting};
use message::L3Side;

// The better of a price and the best so far.
fn better(side: L3Side, price: u64, best: Option<u64>) -> Option<u64>
    ensures { result ≡ better side price best }
{
    match (side, best) {
        (_, None) => Some(price),
        (L3Side::Buy, Some(other)) => Some(price.max(other)),
        (L3Side::Sell, Some(other)) => Some(price.min(other)),
    }
}

// The best price of a side, with one row more.
pub fn best_with(side: L3Side, o: Resting, best: Option<u64>) -> Option<u64>
    ensures { result ≡ cond (same_side (side_of o.kind) side) (better side o.price best) best }
{
    if book::side_of(o.kind) == side {
        better(side, o.price, best)
    } else {
        best
    }
}

// The best price of a side.
pub fn best(rows: LentRows<'_>, side: L3Side) -> Option<u64>
    ensures { result ≡ best side (line_of (rows_in rows.entry)) }
{
    let mut best = None;
    for i in (0..rows.count).rev() {
        best = best_with(side, rows.get(i), best);
    }
    best
}

pub fn best_bid(rows: LentRows<'_>) -> Option<u64>
    ensures { result ≡ best Buy (line_of (rows_in rows.entry)) }
{
    best(rows, L3Side::Buy)
}

pub fn best_ask(rows: LentRows<'_>) -> Option<u64>
    ensures { result ≡ best Sell (line_of (rows_in rows.entry)) }
{
    best(rows, L3Side::Sell)
}

// Whether a best buy is at or above a best sell.
pub fn meet(bid: Option<u64>, ask: Option<u64>) -> bool
    ensures { result ≡ meet bid ask }
{
    match (bid, ask) {
        (Some(bid), Some(ask)) => ask <= bid,
        _ => false,
    }
}

// Whether an order at that side and price would cross the best of the other side.
pub fn would_cross(rows: LentRows<'_>, side: L3Side, price: u64) -> bool
    ensures { result ≡ would_cross side price (line_of (rows_in rows.entry)) }
{
    match side {
        L3Side::Buy => meet(Some(price), best_ask(rows)),
        L3Side::Sell => meet(best_bid(rows), Some(price)),
    }
}
