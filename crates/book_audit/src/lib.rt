// The Rust's audit of the book, in expected linear time.
#![tactic(auto)]

ghost use Rattle.std.specs.Prelude.{◌≡◌};
ghost use Rattle.book.specs.Lending.{rows_in};
ghost use Rattle.book_valid.specs.Audit.{some_empty, audit_of};

use book::LentRows;
use book_valid::AuditFinding;

// Whether a row has nothing left.
fn some_empty(rows: LentRows<'_>) -> bool
    ensures { result ≡ some_empty (rows_in rows.entry) }
{
    (0..rows.count).any(|i| rows.get(i).remaining == 0)
}

// Recomputes the book's invariants: positive sizes, each id once, not crossed.
pub fn audit(words: &[u64], n: usize) -> Result<(), AuditFinding>
    ensures { result ≡ audit_of words.now n }
{
    if book::MOST_ROWS < n || words.len() < book::ROW_WORDS * n {
        return Err(AuditFinding::NotLent);
    }
    let rows = LentRows { words, count: n };
    if some_empty(rows) {
        return Err(AuditFinding::SizeNotPositive);
    }
    if book_keys::id_twice(rows) {
        return Err(AuditFinding::IdTwice);
    }
    if book_prices::meet(book_prices::best_bid(rows), book_prices::best_ask(rows)) {
        return Err(AuditFinding::Crossed);
    }
    Ok(())
}
