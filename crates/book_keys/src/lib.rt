// Whether an id rests twice, and how many levels there are, in expected linear time.
#![tactic(auto)]

ghost use Rattle.std.specs.Prelude.{◌≡◌};
ghost use Rattle.book.specs.Line.{levels, side_levels};
ghost use Rattle.book.specs.Rows.{line_of};
ghost use Rattle.book.specs.Lending.{rows_in};
ghost use Rattle.book.specs.Broken.{id_twice};
ghost use Rattle.book_keys.specs.Others.{some_other};

use book::LentRows;
use book_row_keys::KeyKind;
use message::L3Side;

// Whether two rows have the same id.
pub fn id_twice(rows: LentRows<'_>) -> bool
    ensures { result ≡ id_twice (line_of (rows_in rows.entry)) }
{
    book_buckets::count_keys(rows, KeyKind::Id) != rows.count
}

// How many levels the rows have.
pub fn level_count(rows: LentRows<'_>) -> usize
    ensures { result ≡ levels (line_of (rows_in rows.entry)) }
{
    book_buckets::count_keys(rows, KeyKind::Level)
}

// Whether a row is not of the side.
fn some_other(rows: LentRows<'_>, side: L3Side) -> bool
    ensures { result ≡ some_other side (rows_in rows.entry) }
{
    (0..rows.count).any(|i| book::side_of(rows.get(i).kind) != side)
}

// How many levels a side has.
pub fn side_level_count(rows: LentRows<'_>, side: L3Side) -> usize
    ensures { result ≡ side_levels side (line_of (rows_in rows.entry)) }
{
    let count = book_buckets::count_keys(rows, KeyKind::LevelOf(side));
    if some_other(rows, side) {
        count - 1
    } else {
        count
    }
}
