// Segment records and segment names.
#![tactic(auto)]

ghost use Rattle.std.specs.Prelude.{◌≡◌};
ghost use Rattle.reconstructor_segments.specs.Segments.{no_segment, started, superseded, extended, ended, elapsed, accepted_messages, same_segment};

use reconstructor_answers::Invalidation;

// A run of messages applied on one snapshot.
#[derive(Clone, Copy, Default)]
pub struct Segment {
    // The snapshot's sequence.
    pub start_seq: u64,
    // The last sequence applied while valid.
    pub last_good_seq: u64,
    // 0 open, 1 superseded by a new snapshot, else the number of the reason that ended it, 20 to 44.
    pub end: u64,
    // Of such an end: the last good sequence, the offending one, and of 38 its reason (1 funds, 0 no size). 0 before.
    pub end_good: u64,
    pub end_seq: u64,
    pub end_detail: u64,
    // The time of the first and of the latest accepted message; 0 until one is accepted.
    pub first_us: u64,
    pub last_us: u64,
}

impl Segment {
    pub const OPEN: u64 = 0;

    pub const SUPERSEDED: u64 = 1;

    // What stands past a list's end: zeros.
    pub fn none() -> Self
        ensures { result ≡ no_segment }
    {
        Self::default()
    }

    // The record that a snapshot starts.
    pub fn started(sequence: u64) -> Self
        ensures { result ≡ started sequence }
    {
        Self {
            start_seq: sequence,
            last_good_seq: sequence,
            end: Self::OPEN,
            ..Self::default()
        }
    }

    // Replaced by a new snapshot while still valid.
    pub fn superseded(mut self) -> Self
        ensures { result ≡ superseded self }
    {
        self.end = Self::SUPERSEDED;
        self
    }

    // A message was accepted. The first one is told by the sequence, since a time may be 0.
    pub fn extended(mut self, sequence: u64, time_us: u64) -> Self
        ensures { result ≡ extended self sequence time_us }
    {
        if self.last_good_seq == self.start_seq {
            self.first_us = time_us;
        }
        self.last_good_seq = sequence;
        self.last_us = time_us;
        self
    }

    // A message ended it.
    pub fn ended(mut self, invalidation: Invalidation) -> Self
        ensures { result ≡ ended self invalidation }
    {
        self.end = invalidation.kind.number();
        self.end_good = invalidation.last_good_seq;
        self.end_seq = invalidation.first_offending_seq;
        self.end_detail = invalidation.kind.detail();
        self
    }

    // Its elapsed time: 0 where the latest time is before the first.
    pub fn elapsed(self) -> u64
        ensures { result ≡ elapsed self }
    {
        self.last_us.saturating_sub(self.first_us)
    }

    // How many messages were accepted on its snapshot.
    pub fn accepted_messages(self) -> u64
        ensures { result ≡ accepted_messages self }
    {
        self.last_good_seq.saturating_sub(self.start_seq)
    }
}

// A segment's name: the reconstructor's number, which the host gives, with the segment's place in the list.
#[derive(Clone, Copy, PartialEq, Eq)]
pub struct SegmentName {
    pub number: u64,
    pub place: usize,
}

pub fn same_segment(a: SegmentName, b: SegmentName) -> bool
    ensures { result ≡ same_segment a b }
{
    a == b
}
