// The parts of `bootstrap`: a refusal, and what an accepted snapshot makes of the state and of the last segment's record.
#![tactic(auto)]

ghost use Rattle.std.specs.Prelude.{◌≡◌, ◌<◌};
ghost use Rattle.reconstructor_counts.specs.Counts.{largest};
ghost use Rattle.reconstructor_bootstrap.specs.Bootstrap.{refused_book, refused_work, booted_book, closed};

use reconstructor_bootstrap::{BootstrapError, Work};
use reconstructor_counts::Counter;
use reconstructor_segments::Segment;
use reconstructor_state::{BookReconstructor, Status};

// 10 to 14 are counted, and change nothing else.
fn refused_book(book: BookReconstructor, answer: Result<(), BootstrapError>) -> BookReconstructor
    ensures { result ≡ refused_book answer book }
{
    match answer {
        Ok(()) => book,
        Err(BootstrapError::Unusable(_)) => book,
        Err(BootstrapError::NotAPiece) => book,
        Err(BootstrapError::AmountOutOfRange) => book,
        Err(BootstrapError::ListFull) => book,
        Err(BootstrapError::Rejected(_)) => book.counting(Counter::RejectedSnapshots),
    }
}

// A refusal, of a call that is lent a list of `lent` records: the last one stays, and none is started.
pub fn refused(
    book: BookReconstructor,
    answer: Result<(), BootstrapError>,
    lent: usize,
    last: Segment,
) -> Work
    ensures { result ≡ refused_work answer book lent last }
{
    let book = refused_book(book, answer);
    let started = Segment::none();
    Work {
        book,
        answer,
        segment: last,
        at: lent,
        started,
    }
}

// Ends the last segment as superseded, if it is still open: while the book is valid.
#[tactic(auto, unfolding(reconstructor_bootstrap::specs::Bootstrap::closed))]
pub fn close_last(status: Status, last: Segment) -> Segment
    ensures { result ≡ closed status last }
{
    match status {
        Status::Empty => last,
        Status::Valid { .. } => last.superseded(),
        Status::Invalidated(_) => last,
    }
}

// The state at the snapshot's sequence, with its `n` orders and one segment more.
pub fn booted_book(book: BookReconstructor, sequence: u64, n: usize) -> BookReconstructor
    requires { book.segments < largest }
    ensures { result ≡ booted_book book sequence n }
{
    BookReconstructor {
        product_id: book.product_id,
        rules: book.rules,
        number: book.number,
        status: Status::Valid { last_seq: sequence },
        rows: n,
        segments: book.segments + 1,
        counts: book.counts,
    }
}
