// Volume ahead of an own order, under declared hypotheses: queue estimation, kept apart from the visible book. It validates no fill model.
// Here are its values and definitions; crates `queue_estimates`, `queue_estimates_own` and `queue_ahead` have the calls.
#![tactic(auto)]

ghost use Rattle.std.specs.Prelude.{◌≡◌};
ghost use Rattle.queue.specs.Numbers.{queue_error_number};
ghost use Rattle.queue.specs.declared.QueueError.TheVariants.{View};

use message::{L3Side, OrderId};
use reconstructor_segments::SegmentName;
use reconstructor_view::ViewError;

// A hypothesis a queue result rests on.
#[derive(Clone, Copy)]
pub enum Assumption {
    // A hypothetical order created now joins the back of the visible queue at its price.
    BackOfVisibleQueueAtCreation,
    // Orders keep their entry order: an order opened before ours at its price is ahead of it.
    EntrySequenceIsPriority,
    // An order decreased its size and kept its place.
    SizeDecreaseKeepsPriority,
}

// Why a queue result is unavailable: the view's numbers, 7, 8, 50, 51, 52.
#[derive(Clone, Copy)]
pub enum QueueError {
    View(ViewError),
    OutputTooSmall,
    AheadListShort,
    // Made on another reconstructor, or on an earlier segment of this one.
    StaleEstimate,
    // Our own order came from a snapshot, or it or an order ahead decreased its size where that loses an order its place.
    PriorityUnknown,
    // Our own order does not rest on the book.
    NotResting,
}

#[derive(Clone, Copy)]
pub enum Anchor {
    // A hypothetical order created at `created_at`, ahead of it the `orders` of the caller's ahead-list.
    Hypothetical { orders: usize, created_at: u64 },
    // Our own order, seen in the feed, with where it entered.
    Own { order_id: OrderId, entered_at: u64 },
}

// A handle on the volume ahead of one order, read by `volume_ahead`. It is the caller's memory: any contents are answered.
#[derive(Clone, Copy)]
pub struct QueueEstimate {
    pub side: L3Side,
    pub price: i64,
    pub segment: SegmentName,
    pub anchor: Anchor,
}

// The volume ahead of an order.
#[derive(Clone, Copy)]
pub struct QueueAhead {
    // The sequence it was read at.
    pub at_seq: u64,
    pub volume: u64,
    // Of which from orders of a snapshot, and from orders whose open was observed.
    pub from_snapshot: u64,
    pub observed: u64,
    pub orders: usize,
    // The hypotheses the result rests on: the first, and whether SizeDecreaseKeepsPriority is a second.
    pub first_assumption: Assumption,
    pub keeps_priority: bool,
}

// Sums over orders ahead, and whether one decreased after the estimate.
#[derive(Clone, Copy, Default)]
pub struct Tally {
    pub volume: u64,
    pub from_snapshot: u64,
    pub observed: u64,
    pub orders: usize,
    pub decreased: bool,
}

impl From<ViewError> for QueueError {
    ghost from_gives = { λ why e. e ≡ View why };

    fn from(why: ViewError) -> Self {
        Self::View(why)
    }
}

impl QueueError {
    pub fn number(self) -> u64
        ensures { result ≡ queue_error_number self }
    {
        match self {
            QueueError::View(why) => why.number(),
            QueueError::OutputTooSmall => 7,
            QueueError::AheadListShort => 8,
            QueueError::StaleEstimate => 50,
            QueueError::PriorityUnknown => 51,
            QueueError::NotResting => 52,
        }
    }
}
