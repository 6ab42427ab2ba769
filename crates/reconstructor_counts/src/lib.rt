// Messages counted by what they did.
#![tactic(auto)]

ghost use Rattle.std.specs.Prelude.{◌≡◌};
ghost use Rattle.reconstructor_counts.specs.Counts.{saturated, no_counts, counted};

// Messages counted by what they did.
#[derive(Clone, Copy, Default)]
pub struct MessageCounts {
    pub received: u64,
    // `open` applied.
    pub open: u64,
    // `done` that removed a resting order.
    pub done: u64,
    pub matched: u64,
    // Size decreases applied (`change` STP).
    pub stp_decrease: u64,
    // `done` and `change` of an order not on the book.
    pub off_book_done: u64,
    pub off_book_change: u64,
    // `change` that left the size as it was.
    pub noop_change: u64,
    // Messages dropped by the snapshot handshake.
    pub handshake_dropped: u64,
    pub skipped_while_invalid: u64,
    pub wrong_product: u64,
    pub rejected_snapshots: u64,
}

// The counts by name, in the order of the fields. An accepted message adds to one of the first eight.
#[derive(Clone, Copy)]
pub enum Counter {
    Received,
    Open,
    Done,
    Matched,
    Stp,
    OffBookDone,
    OffBookChange,
    NoopChange,
    HandshakeDropped,
    SkippedWhileInvalid,
    WrongProduct,
    RejectedSnapshots,
}

// One more, or the largest number.
#[tactic(auto, unfolding(crate::specs::Counts::saturated))]
pub fn saturating_next(x: u64) -> u64
    ensures { result ≡ saturated x }
{
    x.saturating_add(1)
}

// Adds one to the counter named, in place: the other eleven are neither read nor written.
pub fn count(counts: &mut MessageCounts, which: Counter)
    ensures { counts.new ≡ counted counts.old which }
{
    match which {
        Counter::Received => counts.received = saturating_next(counts.received),
        Counter::Open => counts.open = saturating_next(counts.open),
        Counter::Done => counts.done = saturating_next(counts.done),
        Counter::Matched => counts.matched = saturating_next(counts.matched),
        Counter::Stp => counts.stp_decrease = saturating_next(counts.stp_decrease),
        Counter::OffBookDone => counts.off_book_done = saturating_next(counts.off_book_done),
        Counter::OffBookChange => counts.off_book_change = saturating_next(counts.off_book_change),
        Counter::NoopChange => counts.noop_change = saturating_next(counts.noop_change),
        Counter::HandshakeDropped => counts.handshake_dropped = saturating_next(
            counts.handshake_dropped,
        ),
        Counter::SkippedWhileInvalid => counts.skipped_while_invalid = saturating_next(
            counts.skipped_while_invalid,
        ),
        Counter::WrongProduct => counts.wrong_product = saturating_next(counts.wrong_product),
        Counter::RejectedSnapshots => counts.rejected_snapshots = saturating_next(
            counts.rejected_snapshots,
        ),
    }
}

impl MessageCounts {
    pub fn new() -> Self
        ensures { result ≡ no_counts }
    {
        Self::default()
    }
}
