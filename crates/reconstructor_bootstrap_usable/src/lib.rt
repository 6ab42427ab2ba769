// `bootstrap` of a state that passes 1, 2 and 3: 6 and 10 to 14, or the snapshot is taken for the book.
#![tactic(auto)]

ghost use Rattle.std.specs.Prelude.{◌≡◌, ◌+◌, ◌<◌};
ghost use Rattle.book.specs.Rows.{most_rows};
ghost use Rattle.book.specs.Memory.{memory};
ghost use Rattle.reconstructor_counts.specs.Counts.{largest};
ghost use Rattle.reconstructor_checks.specs.StateChecks.{Usable};
ghost use Rattle.reconstructor_bootstrap.specs.Snapshot.{snapshot_line};
ghost use Rattle.reconstructor_bootstrap.specs.Bootstrap.{booted, accepted};
ghost use Rattle.reconstructor_bootstrap.specs.Places.{Room, usable_to};

use message::L3Snapshot;
use reconstructor_bootstrap::{BootstrapError, Work};
use reconstructor_bootstrap_parts::{booted_book, close_last, refused};
use reconstructor_segments::Segment;
use reconstructor_snapshot::{store_rows, validate_snapshot};
use reconstructor_state::BookReconstructor;

// Takes the snapshot for the book.
fn accept(
    book: BookReconstructor,
    rows: &mut [u64],
    last: Segment,
    bytes: &[u8],
    snapshot: L3Snapshot,
) -> Work
    requires room { Room rows.old book.rows (snapshot.bids + snapshot.asks) }
    requires segments_lt_largest { book.segments < largest }
    ensures { booted result (memory rows.new) ≡ accepted book (memory rows.old) last snapshot.sequence (snapshot_line snapshot bytes.now) }
{
    let n = snapshot.bids + snapshot.asks;
    let next = booted_book(book, snapshot.sequence, n);
    store_rows(rows, book.rows, bytes, snapshot.bids, n, snapshot.sequence);
    let segment = close_last(book.status, last);
    let started = Segment::started(snapshot.sequence);
    Work {
        book: next,
        answer: Ok(()),
        segment,
        at: book.segments,
        started,
    }
}

// 6, 10 to 14, of a state that passed 1, 2 and 3.
pub fn bootstrap_usable(
    book: BookReconstructor,
    rows: &mut [u64],
    lent: usize,
    last: Segment,
    bytes: &[u8],
    snapshot: L3Snapshot,
) -> Work
    requires { Usable most_rows book (memory rows.old) lent }
    ensures { booted result (memory rows.new) ≡ usable_to book (memory rows.old) lent last bytes.now snapshot }
{
    if lent == book.segments {
        return refused(book, Err(BootstrapError::ListFull), lent, last);
    }
    let product = book.product_id;
    match validate_snapshot(product, book.rules, bytes, snapshot) {
        Ok(()) => accept(book, rows, last, bytes, snapshot),
        Err(error) => refused(book, Err(BootstrapError::Rejected(error)), lent, last),
    }
}
