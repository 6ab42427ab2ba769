// A day's segment list, an array of records, lent as a slice to the functions on a list of them; and what a day's replay leaves.
#![tactic(auto)]

ghost use Rattle.std.specs.Prelude.{◌≡◌, set};
ghost use Rattle.reconstructor_segments.specs.Segments.{relast};
ghost use Rattle.daybook_segments.specs.DaySegments.{no_segments};

use reconstructor_segments::Segment;
use reconstructor_segments_list::{append_segment, rewrite_last};
use reconstructor_state::BookReconstructor;

// "at most 64 segments".
pub const DAY_SEGMENTS: usize = 64;

// Where a replay was stopped: the piece, counted from 1, and the number that it was turned away by.
#[derive(Clone, Copy)]
pub struct Stop {
    pub piece: usize,
    pub number: u64,
}

// What a replay leaves; of one that was not stopped, no stop.
#[derive(Clone, Copy)]
pub struct Day {
    pub book: BookReconstructor,
    pub segments: [Segment; DAY_SEGMENTS],
    pub stop: Option<Stop>,
}

#[tactic(auto, unfolding(crate::specs::DaySegments::no_segments))]
pub fn no_segments() -> [Segment; DAY_SEGMENTS]
    ensures { result ≡ no_segments }
{
    let none = Segment::none();
    [none; DAY_SEGMENTS]
}

// The list with the last of its first `count` records rewritten, and one written at place `at`; past its end nothing is.
pub fn filed(
    list: [Segment; DAY_SEGMENTS],
    count: usize,
    last: Segment,
    at: usize,
    started: Segment,
) -> [Segment; DAY_SEGMENTS]
    ensures { result ≡ set (relast list count last) at started }
{
    let mut segments = list;
    rewrite_last(&mut segments, count, last);
    append_segment(&mut segments, at, started);
    segments
}
