// Whether a book may be read, and why not; the answers of the reads whose answer is a value.
#![tactic(auto)]

ghost use Rattle.std.specs.Prelude.{◌≡◌};
ghost use Rattle.book.specs.Memory.{memory};
ghost use Rattle.reconstructor_state.specs.State.{last_of};
ghost use Rattle.reconstructor_checks.specs.StateChecks.{checked};
ghost use Rattle.reconstructor_view.specs.ValueReads.{standing, read_refusal_of, view_refusal_of, sequence_of, invalidation_of};
ghost use Rattle.reconstructor_view.specs.Numbers.{view_error_number, finding_number, audited_told, invalidation_told};

use book_valid::AuditFinding;
use reconstructor_answers::{Invalidation, StateError};
use reconstructor_state::{BookReconstructor, Ceiling, Status};

// Why no valid book is available: 1, 2, 3, 15, 18.
#[derive(Clone, Copy)]
pub enum ViewError {
    Unusable(StateError),
    // No snapshot yet.
    NotBootstrapped,
    // The segment has ended, and so.
    Invalidated(Invalidation),
}

// The best prices of a book: of a side that has orders.
#[derive(Clone, Copy)]
pub struct BestPrices {
    pub bid: Option<u64>,
    pub ask: Option<u64>,
}

impl ViewError {
    pub fn number(self) -> u64
        ensures { result ≡ view_error_number self }
    {
        match self {
            ViewError::Unusable(why) => why.number(),
            ViewError::NotBootstrapped => 15,
            ViewError::Invalidated(_) => 18,
        }
    }
}

fn finding_number(finding: Result<(), AuditFinding>) -> u64
    ensures { result ≡ finding_number finding }
{
    match finding {
        Ok(()) => 0,
        Err(AuditFinding::NotLent) => 3,
        Err(AuditFinding::SizeNotPositive) => 3,
        Err(AuditFinding::IdTwice) => 3,
        Err(AuditFinding::Crossed) => 3,
    }
}

// The number of `audit`'s answer.
pub fn audited_number(answer: Result<Result<(), AuditFinding>, ViewError>) -> u64
    ensures { result ≡ (audited_told answer).number }
{
    match answer {
        Ok(finding) => finding_number(finding),
        Err(why) => why.number(),
    }
}

// 1, 2 and 3 of a read under a ceiling. `short` says that the scratch it is lent, if any, is too short.
pub fn read_checks(
    top: Ceiling,
    book: BookReconstructor,
    rows: &[u64],
    short: bool,
) -> Result<(), StateError>
    ensures { result ≡ checked (read_refusal_of top.limit book (memory rows.now) short) }
{
    if reconstructor_checks::over_ceiling(top.limit, book.rules) {
        return Err(StateError::LimitAboveCeiling);
    }
    if reconstructor_checks::memory_short(book.rules, rows) | short {
        return Err(StateError::LentTooShort);
    }
    if reconstructor_checks::broken(book, rows) {
        return Err(StateError::MalformedBook);
    }
    Ok(())
}

// 15 or 18, or the last sequence.
fn valid_status(status: Status) -> Result<u64, ViewError>
    ensures { result ≡ sequence_of (standing status) (last_of status) }
{
    match status {
        Status::Empty => Err(ViewError::NotBootstrapped),
        Status::Valid { last_seq } => Ok(last_seq),
        Status::Invalidated(why) => Err(ViewError::Invalidated(why)),
    }
}

// The valid book's last sequence, or why there is no such book. Every read of a valid book asks it first.
pub fn valid_book(
    top: Ceiling,
    book: BookReconstructor,
    rows: &[u64],
    short: bool,
) -> Result<u64, ViewError>
    ensures { result ≡ sequence_of (view_refusal_of top.limit book (memory rows.now) short) (last_of book.status) }
{
    match read_checks(top, book, rows, short) {
        Err(why) => Err(ViewError::Unusable(why)),
        Ok(()) => { valid_status(book.status) }
    }
}

// Why the current segment is invalid, if it is.
pub fn invalidation(book: BookReconstructor) -> Option<Invalidation>
    ensures value { result ≡ invalidation_of book.status }
    ensures told { invalidation_told result ≡ invalidation_told (invalidation_of book.status) }
{
    match book.status {
        Status::Empty => None,
        Status::Valid { .. } => None,
        Status::Invalidated(invalidation) => Some(invalidation),
    }
}
