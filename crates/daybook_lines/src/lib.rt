// The lines of a day's listing, written into a text.
#![tactic(auto)]

ghost use Rattle.std.specs.Prelude.{◌≡◌, ◌∷◌, ◌+◌, ◌*◌, ◌≤◌, length, take};
ghost use Rattle.text.specs.Lines.{space, most_spaced};
ghost use Rattle.text.specs.Writes.{Writes};
ghost use Rattle.daybook_segments.specs.DaySegments.{day_segments};
ghost use Rattle.daybook_lines.specs.Listed.{end_word, segment_line, segment_lines, counts_in, stop_line, ending, listed};
ghost use Rattle.daybook_lines.specs.Most.{most_segment, most_stop, most_ending, listing_bytes};

use daybook_segments::{Day, Stop};
use reconstructor_counts::MessageCounts;
use reconstructor_segments::Segment;
use text::{put_bytes, put_number, put_numbers};

// How a segment ended, behind a space.
#[tactic(auto, unfolding(crate::specs::Listed::end_word))]
fn put_end(text: &mut [u8], at: usize, end: u64) -> usize
    requires { at + most_spaced ≤ length text.old }
    ensures writes { Writes text.old at (space ∷ end_word end) text.new result }
    ensures short { result ≤ at + most_spaced }
{
    if end == Segment::OPEN {
        return put_bytes(text, at, b" open");
    }
    if end == Segment::SUPERSEDED {
        return put_bytes(text, at, b" superseded");
    }
    put_number(text, at, end)
}

// A segment's line.
fn put_segment(text: &mut [u8], at: usize, place: usize, segment: Segment) -> usize
    requires { at + most_segment ≤ length text.old }
    ensures writes { Writes text.old at (segment_line place segment) text.new result }
    ensures short { result ≤ at + most_segment }
{
    let word = put_bytes(text, at, b"segment");
    let place = put_number(text, word, place as u64);
    let start = put_number(text, place, segment.start_seq);
    let last = put_number(text, start, segment.last_good_seq);
    let end = put_end(text, last, segment.end);
    let elapsed = put_number(text, end, segment.elapsed());
    put_bytes(text, elapsed, b"\n")
}

// The lines of the segments, the first place being 1.
fn put_segments(text: &mut [u8], segments: &[Segment]) -> usize
    requires { (length segments.now ≤ day_segments) × (most_segment * day_segments ≤ length text.old) }
    ensures writes { Writes text.old 0 (segment_lines 1 segments.now) text.new result }
    ensures short { result ≤ most_segment * day_segments }
{
    let mut at: usize = 0;
    for (i, segment) in segments.iter().enumerate() {
        at = put_segment(text, at, i + 1, *segment);
    }
    at
}

fn counts_in(counts: MessageCounts) -> [u64; 12]
    ensures { result ≡ counts_in counts }
{
    [
        counts.received,
        counts.open,
        counts.done,
        counts.matched,
        counts.stp_decrease,
        counts.off_book_done,
        counts.off_book_change,
        counts.noop_change,
        counts.handshake_dropped,
        counts.skipped_while_invalid,
        counts.wrong_product,
        counts.rejected_snapshots,
    ]
}

// Where the replay was stopped, in a line of its own.
#[tactic(auto, unfolding(crate::specs::Listed::stop_line))]
fn put_stop(text: &mut [u8], at: usize, stop: Option<Stop>) -> usize
    requires { at + most_stop ≤ length text.old }
    ensures writes { Writes text.old at (stop_line stop) text.new result }
    ensures short { result ≤ at + most_stop }
{
    match stop {
        None => at,
        Some(Stop { piece, number }) => {
            let word = put_bytes(text, at, b"stop");
            let place = put_number(text, word, piece as u64);
            let number = put_number(text, place, number);
            put_bytes(text, number, b"\n")
        }
    }
}

// The counts, and where the replay was stopped.
pub fn put_ending(text: &mut [u8], at: usize, counts: MessageCounts, stop: Option<Stop>) -> usize
    requires { at + most_ending ≤ length text.old }
    ensures writes { Writes text.old at (ending counts stop) text.new result }
    ensures short { result ≤ at + most_ending }
{
    let word = put_bytes(text, at, b"counts");
    let numbers = put_numbers(text, word, &counts_in(counts));
    let line = put_bytes(text, numbers, b"\n");
    put_stop(text, line, stop)
}

// The listing of a day.
pub fn put_day(text: &mut [u8], day: Day) -> usize
    requires { (day.book.segments ≤ day_segments) × (listing_bytes ≤ length text.old) }
    ensures writes { Writes text.old 0 (listed day) text.new result }
    ensures short { result ≤ listing_bytes }
{
    let counts = day.book.counts;
    let at = put_segments(text, &day.segments[..day.book.segments]);
    put_ending(text, at, counts, day.stop)
}
