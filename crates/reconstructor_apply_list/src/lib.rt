// `apply` on a list of segment records: it lends the work the last one, and writes it back.
#![tactic(auto)]

ghost use Rattle.std.specs.Prelude.{◌≡◌};
ghost use Rattle.book.specs.Memory.{memory};
ghost use Rattle.reconstructor_answers.specs.Numbers.{answer_told};
ghost use Rattle.reconstructor_state.specs.State.{ceiling};
ghost use Rattle.reconstructor.specs.Applied.{leaves, applied};
ghost use Rattle.reconstructor.specs.Inner.{reply_of};

use message::L3Message;
use reconstructor::{Reply, Work};
use reconstructor_apply::apply_by_value;
use reconstructor_segments::Segment;
use reconstructor_state::BookReconstructor;

fn segment_of(work: Work) -> Segment
    ensures { result ≡ work.segment }
{
    work.segment
}

fn reply_of(work: Work) -> Reply
    ensures { result ≡ reply_of work }
{
    Reply {
        book: work.book,
        answer: work.answer,
    }
}

// Applies the next message to a book. Nothing but the counts that 01 names changes unless every check passes; a refusal rewrites the last segment's record with
// itself.
pub fn apply(
    book: BookReconstructor,
    rows: &mut [u64],
    segments: &mut [Segment],
    message: L3Message,
) -> Reply
    ensures { (leaves result (memory rows.new) segments.new ≡ applied ceiling book (memory rows.old) segments.old message) × (answer_told result.answer ≡ answer_told (applied ceiling book (memory rows.old) segments.old message).answer) }
{
    let count = book.segment_count();
    let last = reconstructor_segments_list::last_segment(segments, count);
    let work = apply_by_value(book, rows, segments.len(), last, message);
    let segment = segment_of(work);
    reconstructor_segments_list::rewrite_last(segments, count, segment);
    reply_of(work)
}
