// What a message in turn leaves of the state: it is accepted, or it ends the segment.
#![tactic(auto)]

ghost use Rattle.std.specs.Prelude.{◌≡◌};
ghost use Rattle.reconstructor.specs.Applied.{invalidated_reply, accepted_reply};

use reconstructor::Reply;
use reconstructor_answers::{Applied, ApplyError, Invalidation, InvalidationKind};
use reconstructor_counts::Counter;
use reconstructor_state::{BookReconstructor, Status};

// The message ends the segment; the rows stay as a stale book.
#[tactic(auto, unfolding(reconstructor::specs::Applied::invalidated_reply))]
pub fn invalidated(book: BookReconstructor, last: u64, seq: u64, kind: InvalidationKind) -> Reply
    ensures { result ≡ invalidated_reply book last seq kind }
{
    let invalidation = Invalidation {
        last_good_seq: last,
        first_offending_seq: seq,
        kind,
    };
    Reply {
        book: book.with_status(Status::Invalidated(invalidation)),
        answer: Err(ApplyError::Invalidated(invalidation)),
    }
}

// The message is accepted: its sequence, so many rows in use, and one of the state's counts raised in place.
#[tactic(auto, unfolding(reconstructor::specs::Applied::accepted_reply))]
pub fn accepted(
    book: BookReconstructor,
    seq: u64,
    rows: usize,
    counter: Counter,
    applied: Applied,
) -> Reply
    ensures { result ≡ accepted_reply book seq rows counter applied }
{
    let counted = book.counting(counter);
    let mut next = counted.with_status(Status::Valid { last_seq: seq });
    next.rows = rows;
    Reply {
        book: next,
        answer: Ok(applied),
    }
}
