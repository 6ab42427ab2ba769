// What an accepted call does to the rows: an order joins, is reduced or leaves.
#![tactic(auto)]

ghost use Rattle.std.specs.Prelude.{◌≡◌, [], ◌∷◌, ◌++◌, ◌+◌, ◌*◌, ◌≤◌, ◌<◌, length, set};
ghost use Rattle.book.specs.Rows.{Lent, row_words, most_rows, row_at, rows_of, stored, remove_at, reduced};

use book::Resting;

// Adds an order after `n` rows: it joins the back of its level. The caller has checked that its id is new and that there is room.
pub fn insert(rows: &mut [u64], n: usize, order: Resting)
    requires { (row_words * n + row_words ≤ length rows.old) × (n < most_rows) }
    ensures { rows.new ≡ stored rows.old n (rows_of rows.old n ++ (order ∷ [])) }
{
    book::set_row(rows, n, order)
}

// An order with `remaining` left, and its mark of a decrease.
fn reduced(order: Resting, remaining: u64, mark: Option<u64>) -> Resting
    ensures { result ≡ reduced order remaining mark }
{
    match mark {
        None => Resting { remaining, ..order },
        Some(at) => Resting {
            remaining,
            decreased: 1,
            decreased_at: at,
            ..order
        },
    }
}

// Row `i` of `n` has `remaining` left. The caller has checked that the size is positive.
pub fn reduce(rows: &mut [u64], n: usize, i: usize, remaining: u64, mark: Option<u64>)
    requires { Lent rows.old n × (i < n) }
    ensures { rows.new ≡ stored rows.old n (set (rows_of rows.old n) i (reduced (row_at rows.old i) remaining mark)) }
{
    let o = book::get_row(rows, i);
    let next = reduced(o, remaining, mark);
    book::set_row(rows, i, next)
}

// Removes row `i` of `n`: the later rows move down by one, and the freed row is zeroed.
pub fn remove(rows: &mut [u64], n: usize, i: usize)
    requires { Lent rows.old n × (i < n) }
    ensures { rows.new ≡ stored rows.old n (remove_at (rows_of rows.old n) i) }
{
    rows.copy_within(
        book::ROW_WORDS * (i + 1)..book::ROW_WORDS * n,
        book::ROW_WORDS * i,
    );
    book::set_row(rows, n - 1, Resting::default())
}
