// A segment list as words, eight a record: the form in which C lends it. What `reconstructor_segments` does on a slice of records is done on their words here and, to write, in `host_records_store`.
#![tactic(auto)]

ghost use Rattle.std.specs.Prelude.{◌≡◌, ◌+◌, ◌*◌, ◌≤◌, length};
ghost use Rattle.reconstructor_segments.specs.Segments.{segment_at, last_segment};
ghost use Rattle.host_records.specs.Records.{record_words, record_at, records_of};

use reconstructor_segments::Segment;

// Words of a record.
pub const RECORD_WORDS: usize = 8;

// Record `i`.
fn get_record(words: &[u64], i: usize) -> Segment
    requires { record_words * i + record_words ≤ length words.now }
    ensures { result ≡ record_at words.now i }
{
    let at = RECORD_WORDS * i;
    Segment {
        start_seq: words[at],
        last_good_seq: words[at + 1],
        end: words[at + 2],
        end_good: words[at + 3],
        end_seq: words[at + 4],
        end_detail: words[at + 5],
        first_us: words[at + 6],
        last_us: words[at + 7],
    }
}

// The record at a place; zeros where there is none.
#[tactic(auto, using(crate::proofs::Records::read_record, crate::proofs::Records::read_none))]
pub fn record_at(words: &[u64], place: usize) -> Segment
    ensures { result ≡ segment_at (records_of words.now) place }
{
    if place < words.len() / RECORD_WORDS {
        return get_record(words, place);
    }
    Segment::none()
}

// The last of the first `count` records; zeros where there is none.
pub fn last_record(words: &[u64], count: usize) -> Segment
    ensures { result ≡ last_segment (records_of words.now) count }
{
    if count == 0 {
        return Segment::none();
    }
    record_at(words, count - 1)
}
