// The port's own checks of a state and of what a call is lent: 1, 2 and 3, which every call that changes the book makes first.
#![tactic(auto)]

ghost use Rattle.std.specs.Prelude.{◌≡◌, false, ◌≤◌};
ghost use Rattle.book.specs.Rows.{most_rows};
ghost use Rattle.book.specs.Memory.{memory, extent_of};
ghost use Rattle.reconstructor_checks.specs.StateChecks.{over_ceiling, memory_short, unsettled, broken, book_refusal, checked};

use reconstructor_answers::StateError;
use reconstructor_state::{BookReconstructor, Ceiling, Status, VenueRules};

// Number 1, under a ceiling.
pub fn over_ceiling(top: usize, rules: VenueRules) -> bool
    ensures { result ≡ over_ceiling top rules }
{
    (rules.max_orders > top) | (rules.max_levels > top)
}

// Number 2 of the memory, of rules whose limits the code can work with.
pub fn memory_short(rules: VenueRules, rows: &[u64]) -> bool
    requires { rules.max_orders ≤ most_rows }
    ensures { result ≡ memory_short rules (extent_of (memory rows.now)) }
{
    rows.len() < book::ROW_WORDS * rules.max_orders
}

// Number 3's part on the status: "no segment once bootstrapped; rows or segments before".
fn unsettled(status: Status, rows: usize, segments: usize) -> bool
    ensures { result ≡ unsettled status rows segments }
{
    match status {
        Status::Empty => (rows > 0) | (segments > 0),
        Status::Valid { .. } => segments == 0,
        Status::Invalidated(_) => segments == 0,
    }
}

// Number 3, of a state that passed 1 and whose rows passed 2.
pub fn broken(book: BookReconstructor, rows: &[u64]) -> bool
    requires { (memory_short book.rules (extent_of (memory rows.now)) ≡ false) × (book.rules.max_orders ≤ most_rows) }
    ensures { result ≡ broken book (memory rows.now) }
{
    let n = book.rows;
    if n > book.rules.max_orders {
        return true;
    }
    if book_valid::rows_broken(rows, n, book.rules.max_levels) {
        return true;
    }
    unsettled(book.status, n, book.segments)
}

// 1, 2 and 3 of a call under a ceiling, which is lent rows and a segment list of `lent` records.
pub fn own_checks(
    top: Ceiling,
    book: BookReconstructor,
    rows: &[u64],
    lent: usize,
) -> Result<(), StateError>
    ensures { result ≡ checked (book_refusal top.limit book (memory rows.now) lent) }
{
    if over_ceiling(top.limit, book.rules) {
        return Err(StateError::LimitAboveCeiling);
    }
    if memory_short(book.rules, rows) | (lent < book.segments) {
        return Err(StateError::LentTooShort);
    }
    if broken(book, rows) {
        return Err(StateError::MalformedBook);
    }
    Ok(())
}
