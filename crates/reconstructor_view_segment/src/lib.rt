// The read of a segment's record, by its place in the list.
#![tactic(auto)]

ghost use Rattle.std.specs.Prelude.{◌≡◌};
ghost use Rattle.reconstructor_view.specs.ValueReads.{records_to, segment_read_to, segment_read};
ghost use Rattle.reconstructor_view.specs.Numbers.{segment_told};

use reconstructor_segments::Segment;
use reconstructor_state::BookReconstructor;

// The largest machine number.
const LARGEST: usize = usize::MAX;

// The number of records up to a place, at most the largest number.
fn records_to(place: usize) -> usize
    ensures { result ≡ records_to place }
{
    if place < LARGEST {
        return place + 1;
    }
    place
}

// `segment` with the record by value, of a list of `lent` records.
#[tactic(auto, unfolding(reconstructor_view::specs::ValueReads::segment_read_to))]
pub fn segment_by_value(
    book: BookReconstructor,
    lent: usize,
    place: usize,
    record: Segment,
) -> Option<Segment>
    ensures { result ≡ segment_read_to book lent place «record» }
{
    if place >= book.segments {
        return None;
    }
    if place >= lent {
        return None;
    }
    Some(record)
}

// The record of the segment at a place of the list. With the counts, which are a field of the book, it makes up the Rust's manifest.
pub fn segment(book: BookReconstructor, segments: &[Segment], place: usize) -> Option<Segment>
    ensures { (result ≡ segment_read book segments.now place) × (segment_told result ≡ segment_told (segment_read book segments.now place)) }
{
    let count = records_to(place);
    let record = reconstructor_segments_list::last_segment(segments, count);
    segment_by_value(book, segments.len(), place, record)
}
