// Order by order (L3) messages and snapshots: the values of message.rs. Crates `piece_messages` and `piece_snapshots` read them from bytes.
#![tactic(auto)]

ghost use Rattle.std.specs.Prelude.{◌≡◌};
ghost use Rattle.message.specs.Same.{same_side, same_id, same_product};

pub mod amount; // amount.rt: tests on amounts

// The side of an order. On a match it is the maker's side.
#[derive(Clone, Copy, PartialEq, Eq)]
pub enum L3Side {
    Buy,
    Sell,
}

// Why an order's lifecycle ended.
#[derive(Clone, Copy, PartialEq, Eq)]
pub enum DoneReason {
    // Filled: its remaining size is 0.
    Filled,
    // Canceled with its remaining size.
    Canceled,
}

// Why an order changed.
#[derive(Clone, Copy, PartialEq, Eq)]
pub enum ChangeReason {
    // Self trade prevention: the size (or the funds of a market order) is reduced.
    Stp,
    // An order modification, which may change the price or the size.
    ModifyOrder,
}

// An order id, 128 bits: its 16 bytes in text order, the first eight as the high word.
#[derive(Clone, Copy, Default, PartialEq, Eq)]
pub struct OrderId {
    pub high: u64,
    pub low: u64,
}

// A product, any 16 bytes: the first eight as the high word.
#[derive(Clone, Copy, PartialEq, Eq)]
pub struct ProductId {
    pub high: u64,
    pub low: u64,
}

// One event of the feed. Prices and sizes are in units of 10^-8.
#[derive(Clone, Copy)]
pub enum L3Event {
    // The matching engine received an order. It is not on the book.
    Received {
        order_id: OrderId,
        side: L3Side,
    },
    // The unfilled part of an order rests on the book.
    Open {
        order_id: OrderId,
        side: L3Side,
        price: i64,
        remaining: i64,
    },
    // An order left the matching engine, on the book or not. Market orders have neither price nor remaining size.
    Done {
        order_id: OrderId,
        side: L3Side,
        price: Option<i64>,
        reason: DoneReason,
        remaining: Option<i64>,
    },
    // A trade between a taker and a resting maker, at the maker's side.
    Match {
        maker_id: OrderId,
        taker_id: OrderId,
        side: L3Side,
        price: i64,
        size: i64,
    },
    // An order's size, funds or price changed.
    Change {
        order_id: OrderId,
        side: L3Side,
        reason: ChangeReason,
        price: Option<i64>,
        old_size: Option<i64>,
        new_size: Option<i64>,
        old_price: Option<i64>,
        new_price: Option<i64>,
        new_funds: Option<i64>,
    },
    // Any other message type, by number.
    Unsupported {
        kind: u32,
    },
}

// The optional amounts of a change.
#[derive(Clone, Copy)]
pub struct ChangeFields {
    pub price: Option<i64>,
    pub old_size: Option<i64>,
    pub new_size: Option<i64>,
    pub old_price: Option<i64>,
    pub new_price: Option<i64>,
    pub new_funds: Option<i64>,
}

// A sequenced message of one product.
#[derive(Clone, Copy)]
pub struct L3Message {
    pub product_id: ProductId,
    pub sequence: u64,
    // The feed's time, microseconds since the Unix epoch. Order is given by `sequence` only.
    pub time_us: u64,
    pub event: L3Event,
}

// One resting order of a snapshot.
#[derive(Clone, Copy, Default)]
pub struct SnapshotOrder {
    pub order_id: OrderId,
    pub price: i64,
    pub size: i64,
}

// A level 3 snapshot without its orders, which `piece_snapshots::snapshot_order` reads by place: first the bids, then the asks.
#[derive(Clone, Copy)]
pub struct L3Snapshot {
    pub product_id: ProductId,
    pub sequence: u64,
    // How many bids, and how many asks.
    pub bids: usize,
    pub asks: usize,
}

// The largest amount, and its negative the smallest.
pub const AMOUNT_LIMIT: i64 = 1000000000000000;

pub fn same_side(a: L3Side, b: L3Side) -> bool
    ensures { result ≡ same_side a b }
{
    a == b
}

#[tactic(auto, unfolding(crate::specs::Same::same_id))]
pub fn same_id(a: OrderId, b: OrderId) -> bool
    ensures { result ≡ same_id a b }
{
    a == b
}

#[tactic(auto, unfolding(crate::specs::Same::same_product))]
pub fn same_product(a: ProductId, b: ProductId) -> bool
    ensures { result ≡ same_product a b }
{
    a == b
}
