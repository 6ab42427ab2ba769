// The book: rows of eight words, and the line of orders they stand for.
#![tactic(auto)]

ghost use Rattle.std.specs.Prelude.{◌≡◌, ◌+◌, ◌*◌, ◌≤◌, length};
ghost use Rattle.book.specs.Rows.{row_words, most_rows, row_at, set_row, side_of};

use message::L3Side;

mod lent;

pub use lent::{LentRows, SoundRows};

// Words of a row.
pub const ROW_WORDS: usize = 8;

// The most rows that the functions here are lent: a sum of so many amounts fits a word.
pub const MOST_ROWS: usize = 4096;

// A resting order: the eight words of its row, in their order.
#[derive(Clone, Copy, Default)]
pub struct Resting {
    pub high: u64,
    pub low: u64,
    pub price: u64,
    pub remaining: u64,
    // 0 buy snapshot, 1 sell snapshot, 2 buy observed, 3 sell observed.
    pub kind: u64,
    // The sequence it entered the book at: the snapshot's, or its open's.
    pub entered_at: u64,
    // 1 if its size was ever decreased, and then at which sequence last.
    pub decreased: u64,
    pub decreased_at: u64,
}

// Row `i`.
pub fn get_row(rows: &[u64], i: usize) -> Resting
    requires { (row_words * i + row_words ≤ length rows.now) × (i ≤ most_rows) }
    ensures { result ≡ row_at rows.now i }
{
    let at = ROW_WORDS * i;
    Resting {
        high: rows[at],
        low: rows[at + 1],
        price: rows[at + 2],
        remaining: rows[at + 3],
        kind: rows[at + 4],
        entered_at: rows[at + 5],
        decreased: rows[at + 6],
        decreased_at: rows[at + 7],
    }
}

// Writes row `i`.
pub fn set_row(rows: &mut [u64], i: usize, order: Resting)
    requires { (row_words * i + row_words ≤ length rows.old) × (i ≤ most_rows) }
    ensures { rows.new ≡ set_row rows.old i order }
{
    let at = ROW_WORDS * i;
    rows[at] = order.high;
    rows[at + 1] = order.low;
    rows[at + 2] = order.price;
    rows[at + 3] = order.remaining;
    rows[at + 4] = order.kind;
    rows[at + 5] = order.entered_at;
    rows[at + 6] = order.decreased;
    rows[at + 7] = order.decreased_at;
}

// The side of a kind.
#[tactic(auto, unfolding(crate::specs::Rows::side_of))]
pub fn side_of(kind: u64) -> L3Side
    ensures { result ≡ side_of kind }
{
    if kind % 2 == 0 {
        L3Side::Buy
    } else {
        L3Side::Sell
    }
}
