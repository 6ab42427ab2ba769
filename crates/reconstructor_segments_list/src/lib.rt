// The segment list, lent as a run of records: its last record read and rewritten, one appended.
#![tactic(auto)]

ghost use Rattle.std.specs.Prelude.{◌≡◌, set};
ghost use Rattle.reconstructor_segments.specs.Segments.{last_place, last_segment, relast};

use reconstructor_segments::Segment;

// The place of the last of `count` records; past any list's end where there is none.
fn last_place(count: usize) -> usize
    ensures { result ≡ last_place count }
{
    if count == 0 {
        return usize::MAX;
    }
    count - 1
}

// The last of a list's first `count` records; zeros where the list has no such record.
pub fn last_segment(segments: &[Segment], count: usize) -> Segment
    ensures { result ≡ last_segment segments.now count }
{
    let at = last_place(count);
    if at < segments.len() {
        return segments[at];
    }
    Segment::none()
}

// Writes the last of a list's first `count` records; nothing where the list has no such record.
pub fn rewrite_last(segments: &mut [Segment], count: usize, segment: Segment)
    ensures { segments.new ≡ relast segments.old count segment }
{
    let last = last_place(count);
    if last < segments.len() {
        segments[last] = segment;
    }
}

// Writes the record after a list's first `count`; nothing where there is no room.
pub fn append_segment(segments: &mut [Segment], count: usize, segment: Segment)
    ensures { segments.new ≡ set segments.old count segment }
{
    let at = count;
    if at < segments.len() {
        segments[at] = segment;
    }
}
