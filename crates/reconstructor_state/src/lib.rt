// The state of a reconstruction, by value: rules, status, counts, and how many rows and segment records are in use. The rows and the segment list are lent
// beside it.
#![tactic(auto)]

ghost use Rattle.std.specs.Prelude.{◌≡◌};
ghost use Rattle.reconstructor_counts.specs.Counts.{counted};
ghost use Rattle.reconstructor_state.specs.State.{ceiling, limited_rules, new_book, with_counts, with_status, segment_of};

use message::ProductId;
use reconstructor_answers::Invalidation;
use reconstructor_counts::{Counter, MessageCounts};
use reconstructor_segments::SegmentName;

mod limit;

pub use limit::Ceiling;

// What a size decrease does to an order's place in its queue.
#[derive(Clone, Copy)]
pub enum SizeDecrease {
    // It keeps its place. A declared assumption, not a fact the feed documents.
    KeepsPriority,
    // Its place afterwards is unknown: a queue estimate that depends on it is refused.
    PriorityUnknown,
}

// The venue rules and limits the reconstruction runs under.
#[derive(Clone, Copy)]
pub struct VenueRules {
    pub size_decrease: SizeDecrease,
    // Most resting orders held.
    pub max_orders: usize,
    // Most price levels held, both sides together.
    pub max_levels: usize,
}

impl VenueRules {
    // A limit above it is number 1.
    pub const CEILING: usize = 4096;

    // The default rules, at the ceiling.
    pub fn new() -> Self
        ensures { result ≡ limited_rules ceiling ceiling }
    {
        Self::with_limits(Self::CEILING, Self::CEILING)
    }

    // The default rules with limits of one's own.
    pub fn with_limits(max_orders: usize, max_levels: usize) -> Self
        ensures { result ≡ limited_rules max_orders max_levels }
    {
        Self {
            size_decrease: SizeDecrease::KeepsPriority,
            max_orders,
            max_levels,
        }
    }
}

#[derive(Clone, Copy)]
pub enum Status {
    // No snapshot yet.
    Empty,
    // The last sequence applied.
    Valid { last_seq: u64 },
    // The rows are a stale book until the next snapshot.
    Invalidated(Invalidation),
}

// Rebuilds the visible book of one product from a snapshot and its sequenced messages. The rows and the segment list are lent at each call.
#[derive(Clone, Copy)]
pub struct BookReconstructor {
    pub product_id: ProductId,
    pub rules: VenueRules,
    // The host's number: segment names of two reconstructors differ while their numbers do.
    pub number: u64,
    pub status: Status,
    // How many rows and how many segment records are in use.
    pub rows: usize,
    pub segments: usize,
    pub counts: MessageCounts,
}

impl BookReconstructor {
    // A reconstructor for `product_id`, waiting for a snapshot. Any limits are taken here: number 1 is said by the calls.
    pub fn new(product_id: ProductId, rules: VenueRules, number: u64) -> Self
        ensures { result ≡ new_book product_id rules number }
    {
        Self {
            product_id,
            rules,
            number,
            status: Status::Empty,
            rows: 0,
            segments: 0,
            counts: MessageCounts::new(),
        }
    }

    // One more of what `which` names: the counts are lent, and that one is raised in place.
    pub fn counting(mut self, which: Counter) -> Self
        ensures { result ≡ with_counts self (counted self.counts which) }
    {
        reconstructor_counts::count(&mut self.counts, which);
        self
    }

    pub fn with_status(self, status: Status) -> Self
        ensures { result ≡ with_status self status }
    {
        Self { status, ..self }
    }

    // How many segment records are in use.
    pub fn segment_count(self) -> usize
        ensures { result ≡ self.segments }
    {
        self.segments
    }

    // The name of the segment it is in.
    pub fn segment_name(self) -> SegmentName
        ensures { result ≡ segment_of self }
    {
        SegmentName {
            number: self.number,
            place: self.segments.saturating_sub(1),
        }
    }
}
