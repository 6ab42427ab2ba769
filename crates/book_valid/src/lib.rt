// Number 3, as far as the rows go, in expected linear time; and what an audit of the book answers.
#![tactic(auto)]

ghost use Rattle.std.specs.Prelude.{◌≡◌, ◌||◌, cond, max, min};
ghost use Rattle.book.specs.Line.{crossed};
ghost use Rattle.message.specs.declared.L3Side.TheVariants.{Buy, Sell};
ghost use Rattle.message.specs.Same.{same_side};
ghost use Rattle.book.specs.Rows.{side_of, line_of};
ghost use Rattle.book.specs.Lending.{rows_in};
ghost use Rattle.book.specs.Broken.{out_of_range, row_broken, some_row_broken, words_broken};

use book::{LentRows, Resting};
use message::L3Side;

// What an audit finds first. The Rust's other findings, on queues and totals that disagree with the orders, have no place here: a level is
// worked out from the rows.
#[derive(Clone, Copy)]
pub enum AuditFinding {
    // More rows than 4,096, or than the words hold.
    NotLent,
    SizeNotPositive,
    IdTwice,
    Crossed,
}

// The largest price or size.
const LIMIT: u64 = message::AMOUNT_LIMIT as u64;

fn out_of_range(amount: u64) -> bool
    ensures { result ≡ out_of_range amount }
{
    !(1..=LIMIT).contains(&amount)
}

// Whether a row breaks a rule by itself.
#[tactic(auto, unfolding(book::specs::Broken::row_broken))]
fn row_broken(o: Resting) -> bool
    ensures { result ≡ row_broken o }
{
    let flag_broken = (o.decreased > 1) | ((o.decreased == 0) & (o.decreased_at != 0));
    (o.kind > 3) | (out_of_range(o.price) | (out_of_range(o.remaining) | flag_broken))
}

// The highest price of a buy so far, 0 for none, with one row more. A sell counts as 0, by a choice between two values and not between two paths: sides come
// in no order, and a path that is guessed wrong costs more than the row.
fn raised(bid: u64, o: Resting) -> u64
    ensures { result ≡ cond (same_side (side_of o.kind) Buy) (max bid o.price) bid }
{
    let price = match book::side_of(o.kind) {
        L3Side::Buy => o.price,
        L3Side::Sell => 0,
    };
    bid.max(price)
}

// The lowest price of a sell so far, one above all for none, with one row more.
fn lowered(ask: u64, o: Resting) -> u64
    ensures { result ≡ cond (same_side (side_of o.kind) Sell) (min ask o.price) ask }
{
    let price = match book::side_of(o.kind) {
        L3Side::Buy => u64::MAX,
        L3Side::Sell => o.price,
    };
    ask.min(price)
}

// Whether a row breaks a rule by itself, or the best buy is at or above the best sell: one pass.
fn screened(rows: LentRows<'_>) -> bool
    ensures { result ≡ (some_row_broken (rows_in rows.entry) || crossed (line_of (rows_in rows.entry))) }
{
    let mut bid: u64 = 0;
    let mut ask: u64 = LIMIT + 1;
    for i in (0..rows.count).rev() {
        let o = rows.get(i);
        if row_broken(o) {
            return true;
        }
        bid = raised(bid, o);
        ask = lowered(ask, o);
    }
    ask <= bid
}

// Whether `n` rows in words are no book: number 3's part on the rows. More rows than 4,096, or than the words hold, are none.
#[tactic(auto, using(crate::proofs::Crossing::levels_within))]
pub fn rows_broken(words: &[u64], n: usize, max_levels: usize) -> bool
    ensures { result ≡ words_broken max_levels words.now n }
{
    if book::MOST_ROWS < n || words.len() < book::ROW_WORDS * n {
        return true;
    }
    let rows = LentRows { words, count: n };
    screened(rows)
        || book_keys::id_twice(rows)
        // There are no more levels than rows.
        || (max_levels < n && max_levels < book_keys::level_count(rows))
}
