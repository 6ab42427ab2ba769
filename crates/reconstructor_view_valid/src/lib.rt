// The reads of a valid book whose answer is a value: `last_sequence`, `best`, `audit`. `F_under` is `F` under any ceiling.
#![tactic(auto)]

ghost use Rattle.std.specs.Prelude.{◌≡◌, false};
ghost use Rattle.book.specs.Memory.{memory};
ghost use Rattle.reconstructor_state.specs.State.{ceiling};
ghost use Rattle.reconstructor_view.specs.ValueReads.{last_sequence, best_read, audit_read};
ghost use Rattle.reconstructor_view.specs.Numbers.{sequence_told, best_told, audited_told};

use book::LentRows;
use book_valid::AuditFinding;
use reconstructor_state::{BookReconstructor, Ceiling};
use reconstructor_view::{BestPrices, ViewError, valid_book};

// The last sequence applied.
pub fn last_sequence(book: BookReconstructor, rows: &[u64]) -> Result<u64, ViewError>
    ensures value { result ≡ last_sequence ceiling book (memory rows.now) }
    ensures told { sequence_told result ≡ sequence_told (last_sequence ceiling book (memory rows.now)) }
{
    last_sequence_under(Ceiling::VENUE, book, rows)
}

// The same under a ceiling that the code can work with.
pub fn last_sequence_under(
    top: Ceiling,
    book: BookReconstructor,
    rows: &[u64],
) -> Result<u64, ViewError>
    ensures { result ≡ last_sequence top.limit book (memory rows.now) }
{
    valid_book(top, book, rows, false)
}

// Best bid and ask.
pub fn best(book: BookReconstructor, rows: &[u64]) -> Result<BestPrices, ViewError>
    ensures value { result ≡ best_read ceiling book (memory rows.now) }
    ensures told { best_told result ≡ best_told (best_read ceiling book (memory rows.now)) }
{
    best_under(Ceiling::VENUE, book, rows)
}

// The same under a ceiling that the code can work with.
pub fn best_under(
    top: Ceiling,
    book: BookReconstructor,
    rows: &[u64],
) -> Result<BestPrices, ViewError>
    ensures { result ≡ best_read top.limit book (memory rows.now) }
{
    valid_book(top, book, rows, false)?;
    let lent = LentRows {
        words: rows,
        count: book.rows,
    };
    Ok(BestPrices {
        bid: book_prices::best_bid(lent),
        ask: book_prices::best_ask(lent),
    })
}

// The invariants of a valid book: positive sizes, each id once, not crossed. Number 3 has recomputed them, so that nothing is left to find.
pub fn audit(book: BookReconstructor, rows: &[u64]) -> Result<Result<(), AuditFinding>, ViewError>
    ensures value { result ≡ audit_read ceiling book (memory rows.now) }
    ensures told { audited_told result ≡ audited_told (audit_read ceiling book (memory rows.now)) }
{
    audit_under(Ceiling::VENUE, book, rows)
}

// The same under a ceiling that the code can work with.
pub fn audit_under(
    top: Ceiling,
    book: BookReconstructor,
    rows: &[u64],
) -> Result<Result<(), AuditFinding>, ViewError>
    ensures { result ≡ audit_read top.limit book (memory rows.now) }
{
    valid_book(top, book, rows, false)?;
    Ok(Ok(()))
}
