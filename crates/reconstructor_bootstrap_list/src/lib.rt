// `bootstrap` on a list of segment records: it lends the work the last one, writes it back and writes the one that is started.
#![tactic(auto)]

ghost use Rattle.std.specs.Prelude.{◌≡◌};
ghost use Rattle.book.specs.Memory.{memory};
ghost use Rattle.reconstructor_state.specs.State.{ceiling};
ghost use Rattle.reconstructor_bootstrap.specs.Numbers.{snapshot_told};
ghost use Rattle.reconstructor_bootstrap.specs.Bootstrap.{leaves, bootstrapped};
ghost use Rattle.reconstructor_bootstrap.specs.Places.{reply_of};

use reconstructor_bootstrap::{Reply, Work};
use reconstructor_bootstrap_work::bootstrap_by_value;
use reconstructor_segments::Segment;
use reconstructor_state::BookReconstructor;

// `bootstrap` reads the work through these alone.
fn segment_of(work: Work) -> Segment
    ensures { result ≡ work.segment }
{
    work.segment
}

fn at_of(work: Work) -> usize
    ensures { result ≡ work.at }
{
    work.at
}

fn started_of(work: Work) -> Segment
    ensures { result ≡ work.started }
{
    work.started
}

fn reply_of(work: Work) -> Reply
    ensures { result ≡ reply_of work }
{
    Reply {
        book: work.book,
        answer: work.answer,
    }
}

// Takes the snapshot piece for the book, or says by which number it is turned away. A refused snapshot leaves the book, the rows and the segment
// list as they were, but for the count of 10 to 14: the last segment's record is rewritten with itself.
pub fn bootstrap(
    book: BookReconstructor,
    rows: &mut [u64],
    segments: &mut [Segment],
    bytes: &[u8],
) -> Reply
    ensures { (leaves result (memory rows.new) segments.new ≡ bootstrapped ceiling book (memory rows.old) segments.old bytes.now) × (snapshot_told result.answer ≡ snapshot_told (bootstrapped ceiling book (memory rows.old) segments.old bytes.now).answer) }
{
    let count = book.segment_count();
    let last = reconstructor_segments_list::last_segment(segments, count);
    let work = bootstrap_by_value(book, rows, segments.len(), last, bytes);
    let segment = segment_of(work);
    reconstructor_segments_list::rewrite_last(segments, count, segment);
    let at = at_of(work);
    let started = started_of(work);
    reconstructor_segments_list::append_segment(segments, at, started);
    reply_of(work)
}
