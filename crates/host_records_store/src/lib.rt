// A record written into a segment list's words; crate `host_records` reads them, and its specs/Records.antt has the layout.
#![tactic(auto)]

ghost use Rattle.std.specs.Prelude.{◌≡◌, ◌+◌, ◌*◌, ◌≤◌, length, set};
ghost use Rattle.reconstructor_segments.specs.Segments.{relast};
ghost use Rattle.host_records.specs.Records.{record_words, records_of, set_record, relaid};

use host_records::RECORD_WORDS;
use laws::put;
use reconstructor_segments::Segment;

// Writes record `i`.
#[tactic(auto, unfolding(host_records::specs::Records::set_record))]
fn set_record(words: &mut [u64], i: usize, segment: Segment)
    requires { record_words * i + record_words ≤ length words.old }
    ensures { words.new ≡ set_record words.old i segment }
{
    put(
        words,
        RECORD_WORDS * i,
        &[
            segment.start_seq,
            segment.last_good_seq,
            segment.end,
            segment.end_good,
            segment.end_seq,
            segment.end_detail,
            segment.first_us,
            segment.last_us,
        ],
    );
}

// Writes the record at a place; nothing where there is none.
#[tactic(auto, using(host_records::proofs::Records::put_record))]
pub fn put_record(words: &mut [u64], place: usize, segment: Segment)
    ensures { words.new ≡ relaid words.old (set (records_of words.old) place segment) }
{
    if place < words.len() / RECORD_WORDS {
        set_record(words, place, segment);
    }
}

// Writes the last of the first `count` records; nothing where there is none.
pub fn rewrite_record(words: &mut [u64], count: usize, segment: Segment)
    ensures { words.new ≡ relaid words.old (relast (records_of words.old) count segment) }
{
    if count > 0 {
        put_record(words, count - 1, segment);
    }
}
