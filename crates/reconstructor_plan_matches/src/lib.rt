// The plan of a match.
#![tactic(auto)]

ghost use Rattle.std.specs.Prelude.{◌≡◌};
ghost use Rattle.book.specs.Rows.{entry_of};
ghost use Rattle.reconstructor_plan.specs.Rules.{match_differs};
ghost use Rattle.reconstructor_plan.specs.Plans.{PlansAnywhere};

use book::Resting;
use book_index::IndexedRows;
use message::{L3Event, L3Side, OrderId};
use reconstructor_answers::Discrepancy;
use reconstructor_counts::Counter;
use reconstructor_plan::{Plan, cut_plan};

// Whether a match says another side or price than its maker has.
fn match_differs(maker: Resting, side: L3Side, price: i64) -> bool
    ensures { result ≡ match_differs (entry_of maker) side price }
{
    !message::same_side(book::side_of(maker.kind), side)
        | message::amount::differs(price, maker.price)
}

pub fn plan_match(
    index: IndexedRows<'_>,
    maker_id: OrderId,
    taker_id: OrderId,
    side: L3Side,
    price: i64,
    size: i64,
) -> Result<Plan, Discrepancy>
    ensures { PlansAnywhere index.entry.rows.words.now index.entry.rows.count (L3Event.Match maker_id taker_id side price size) result }
{
    // The taker is looked at first.
    let None = book_index::find(index, taker_id) else {
        return Err(Discrepancy::TakerResting);
    };
    let Some(at) = book_index::find(index, maker_id) else {
        return Err(Discrepancy::UnknownMaker);
    };
    let maker = index.rows.get(at);
    if match_differs(maker, side, price) {
        return Err(Discrepancy::MatchMismatch);
    }
    let q = message::amount::size_of(size);
    if q == 0 {
        return Err(Discrepancy::InvalidValue);
    }
    if maker.remaining < q {
        return Err(Discrepancy::MatchExceedsRemaining);
    }
    // A match never marks a decrease.
    Ok(cut_plan(at, maker.remaining - q, None, Counter::Matched))
}
