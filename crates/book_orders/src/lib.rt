// The orders at a side and price, in order of arrival: how many, and the words that reads write of them.
#![tactic(auto)]

ghost use Rattle.std.specs.Prelude.{◌≡◌, cond, ◌++◌, ◌+◌, ◌≤◌, length, take, drop};
ghost use Rattle.book.specs.Line.{same_level};
ghost use Rattle.book.specs.Rows.{side_of};
ghost use Rattle.book.specs.Lending.{rows_in};
ghost use Rattle.book_levels.specs.Levels.{written};
ghost use Rattle.book_queue.specs.Queue.{rows_at, entry_width, entry_words, entries_words};

use book::{LentRows, Resting};
use book_queue::EntryForm;
use message::L3Side;

// How many rows rest at a side and price.
pub fn order_count(rows: LentRows<'_>, side: L3Side, price: u64) -> usize
    ensures { result ≡ length (rows_at side price (rows_in rows.entry)) }
{
    let mut count = 0;
    for i in (0..rows.count).rev() {
        if book_search::on_level(rows.get(i), side, price) {
            count += 1;
        }
    }
    count
}

// Writes a row's entry if it rests at a side and price, and answers the place behind it.
fn write_row(
    out: &mut [u64],
    at: usize,
    side: L3Side,
    price: u64,
    form: EntryForm,
    o: Resting,
) -> usize
    requires { cond (same_level (side_of o.kind) o.price side price) (at + entry_width form) at ≤ length out.old }
    ensures value { result ≡ cond (same_level (side_of o.kind) o.price side price) (at + entry_width form) at }
    ensures out_after { out.new ≡ cond (same_level (side_of o.kind) o.price side price) (take at out.old ++ entry_words form o ++ drop (at + entry_width form) out.old) out.old }
{
    if book_search::on_level(o, side, price) {
        book_queue::put_entry(out, at, form, o);
        return at + book_queue::width(form);
    }
    at
}

// Writes the orders at a side and price, in order of arrival, from the first word of `out` on.
pub fn write_orders(rows: LentRows<'_>, side: L3Side, price: u64, form: EntryForm, out: &mut [u64])
    requires { length (entries_words form (rows_at side price (rows_in rows))) ≤ length out.old }
    ensures { out.new ≡ written (entries_words form (rows_at side price (rows_in rows.entry))) out.old }
{
    let mut at = 0;
    for i in 0..rows.count {
        at = write_row(out, at, side, price, form, rows.get(i));
    }
}
