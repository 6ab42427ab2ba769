// The parts of `apply` around a message's turn: what comes before it, and what it leaves of the last segment's record.
#![tactic(auto)]

ghost use Rattle.std.specs.Prelude.{◌≡◌};
ghost use Rattle.reconstructor_state.specs.State.{last_of};
ghost use Rattle.reconstructor.specs.Refusals.{admit_refusal};
ghost use Rattle.reconstructor.specs.Applied.{refused_reply, next_segment};
ghost use Rattle.reconstructor.specs.Inner.{AdmitsFor};

use message::L3Message;
use reconstructor::{Reply, Work};
use reconstructor_answers::{Applied, ApplyError};
use reconstructor_counts::Counter;
use reconstructor_segments::Segment;
use reconstructor_state::{BookReconstructor, Status};

pub fn work_of(reply: Reply, segment: Segment) -> Work
    ensures { result ≡ record { book = reply.book; answer = reply.answer; segment = segment } }
{
    Work {
        book: reply.book,
        answer: reply.answer,
        segment,
    }
}

// A refusal before the turn: 10 and 17 are counted.
#[tactic(auto, unfolding(reconstructor::specs::Applied::refused_reply))]
pub fn refused(book: BookReconstructor, answer: Result<Applied, ApplyError>) -> Reply
    ensures { result ≡ refused_reply book answer }
{
    match answer {
        Ok(_) => Reply { book, answer },
        Err(ApplyError::Unusable(_)) => Reply { book, answer },
        Err(ApplyError::AmountOutOfRange) => Reply { book, answer },
        Err(ApplyError::WrongProduct) => Reply {
            book: book.counting(Counter::WrongProduct),
            answer,
        },
        Err(ApplyError::NotBootstrapped) => Reply { book, answer },
        Err(ApplyError::Invalidated(_)) => Reply { book, answer },
        Err(ApplyError::AwaitingSnapshot(_)) => Reply {
            book: book.counting(Counter::SkippedWhileInvalid),
            answer,
        },
    }
}

// What comes before the sequence in a state that passed 1, 2 and 3: 5, 10, 15, 17.
#[tactic(auto, unfolding(reconstructor::specs::Refusals::admit_refusal, reconstructor_state::specs::Checks::check))]
pub fn admit(book: BookReconstructor, message: L3Message) -> Result<u64, ApplyError>
    ensures { AdmitsFor (admit_refusal book.product_id book.status message) (last_of book.status) result }
{
    if !message_range::event_in_range(message.event) {
        return Err(ApplyError::AmountOutOfRange);
    }
    let expected = book.product_id;
    let got = message.product_id;
    if !message::same_product(got, expected) {
        return Err(ApplyError::WrongProduct);
    }
    match book.status {
        Status::Empty => Err(ApplyError::NotBootstrapped),
        Status::Valid { last_seq } => Ok(last_seq),
        Status::Invalidated(invalidation) => { Err(ApplyError::AwaitingSnapshot(invalidation)) }
    }
}

// What an answer makes of the last segment's record.
pub fn next_segment(
    last: Segment,
    answer: Result<Applied, ApplyError>,
    seq: u64,
    time_us: u64,
) -> Segment
    ensures { result ≡ next_segment last answer seq time_us }
{
    match answer {
        Ok(_) => last.extended(seq, time_us),
        Err(ApplyError::Invalidated(invalidation)) => last.ended(invalidation),
        Err(_) => last,
    }
}
