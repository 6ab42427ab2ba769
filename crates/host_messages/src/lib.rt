// A message from words and as words; Words.antt of crate `piece`, and specs/Block.antt of crate `host_words`, have the layout.
#![tactic(auto)]

ghost use Rattle.std.specs.Prelude.{◌≡◌, ◌≤◌, length};
ghost use Rattle.piece.specs.Words.{message_words, event_words};
ghost use Rattle.piece.specs.Piece.{done_reason_of, change_reason_of};
ghost use Rattle.host_words.specs.Block.{optional_of, received_of, open_of, done_of, match_of, change_of, event_of, message_of};

use host_message_values::{change_reason_word, done_reason_word, is_present, optional_bits};
use host_words::{bits, load_side, side_word, signed};
use message::{ChangeReason, DoneReason, L3Event, L3Message, L3Side, OrderId, ProductId};

// Words that are enough for a message.
#[derive(Clone, Copy)]
pub struct MessageWords<'a> {
    pub words: &'a [u64],
    pub ghost whole: { message_words ≤ length words.now },
}

// ---- an event's words: its fields in the Rust's order, and 0 past the last

fn received_words(order_id: OrderId, side: L3Side) -> [u64; 16]
    ensures { result ≡ event_words (L3Event.Received order_id side) }
{
    [
        order_id.high,
        order_id.low,
        side_word(side),
        0,
        0,
        0,
        0,
        0,
        0,
        0,
        0,
        0,
        0,
        0,
        0,
        0,
    ]
}

fn open_words(order_id: OrderId, side: L3Side, price: i64, remaining: i64) -> [u64; 16]
    ensures { result ≡ event_words (L3Event.Open order_id side price remaining) }
{
    [
        order_id.high,
        order_id.low,
        side_word(side),
        bits(price),
        bits(remaining),
        0,
        0,
        0,
        0,
        0,
        0,
        0,
        0,
        0,
        0,
        0,
    ]
}

fn done_words(
    order_id: OrderId,
    side: L3Side,
    price: Option<i64>,
    reason: DoneReason,
    remaining: Option<i64>,
) -> [u64; 16]
    ensures { result ≡ event_words (L3Event.Done order_id side price reason remaining) }
{
    [
        order_id.high,
        order_id.low,
        side_word(side),
        is_present(price),
        optional_bits(price),
        done_reason_word(reason),
        is_present(remaining),
        optional_bits(remaining),
        0,
        0,
        0,
        0,
        0,
        0,
        0,
        0,
    ]
}

fn match_words(
    maker_id: OrderId,
    taker_id: OrderId,
    side: L3Side,
    price: i64,
    size: i64,
) -> [u64; 16]
    ensures { result ≡ event_words (L3Event.Match maker_id taker_id side price size) }
{
    [
        maker_id.high,
        maker_id.low,
        taker_id.high,
        taker_id.low,
        side_word(side),
        bits(price),
        bits(size),
        0,
        0,
        0,
        0,
        0,
        0,
        0,
        0,
        0,
    ]
}

fn change_words(
    order_id: OrderId,
    side: L3Side,
    reason: ChangeReason,
    price: Option<i64>,
    old_size: Option<i64>,
    new_size: Option<i64>,
    old_price: Option<i64>,
    new_price: Option<i64>,
    new_funds: Option<i64>,
) -> [u64; 16]
    ensures { result ≡ event_words (L3Event.Change order_id side reason price old_size new_size old_price new_price new_funds) }
{
    [
        order_id.high,
        order_id.low,
        side_word(side),
        change_reason_word(reason),
        is_present(price),
        optional_bits(price),
        is_present(old_size),
        optional_bits(old_size),
        is_present(new_size),
        optional_bits(new_size),
        is_present(old_price),
        optional_bits(old_price),
        is_present(new_price),
        optional_bits(new_price),
        is_present(new_funds),
        optional_bits(new_funds),
    ]
}

pub fn event_words(event: L3Event) -> [u64; 16]
    ensures { result ≡ event_words event }
{
    match event {
        L3Event::Received { order_id, side } => received_words(order_id, side),
        L3Event::Open {
            order_id,
            side,
            price,
            remaining,
        } => open_words(order_id, side, price, remaining),
        L3Event::Done {
            order_id,
            side,
            price,
            reason,
            remaining,
        } => done_words(order_id, side, price, reason, remaining),
        L3Event::Match {
            maker_id,
            taker_id,
            side,
            price,
            size,
        } => match_words(maker_id, taker_id, side, price, size),
        L3Event::Change {
            order_id,
            side,
            reason,
            price,
            old_size,
            new_size,
            old_price,
            new_price,
            new_funds,
        } => {
            change_words(
                order_id, side, reason, price, old_size, new_size, old_price, new_price, new_funds,
            )
        }
        L3Event::Unsupported { kind } => {
            [u64::from(kind), 0, 0, 0, 0, 0, 0, 0, 0, 0, 0, 0, 0, 0, 0, 0]
        }
    }
}

#[tactic(auto, unfolding(host_words::specs::Block::optional_of))]
fn load_optional(present: u64, word: u64) -> Option<i64>
    ensures { result ≡ optional_of present word }
{
    match present {
        0 => None,
        _ => Some(signed(word)),
    }
}

#[tactic(auto, unfolding(piece::specs::Piece::done_reason_of))]
fn load_done_reason(word: u64) -> DoneReason
    ensures { result ≡ done_reason_of word }
{
    match word {
        0 => DoneReason::Filled,
        _ => DoneReason::Canceled,
    }
}

#[tactic(auto, unfolding(piece::specs::Piece::change_reason_of))]
fn load_change_reason(word: u64) -> ChangeReason
    ensures { result ≡ change_reason_of word }
{
    match word {
        0 => ChangeReason::Stp,
        _ => ChangeReason::ModifyOrder,
    }
}

#[tactic(auto, unfolding(host_words::specs::Block::received_of))]
fn load_received(message: MessageWords) -> L3Event
    ensures { result ≡ received_of message.entry.words.now }
{
    let words = message.words;
    L3Event::Received {
        order_id: OrderId {
            high: words[5],
            low: words[6],
        },
        side: load_side(words[7]),
    }
}

#[tactic(auto, unfolding(host_words::specs::Block::open_of))]
fn load_open(message: MessageWords) -> L3Event
    ensures { result ≡ open_of message.entry.words.now }
{
    let words = message.words;
    L3Event::Open {
        order_id: OrderId {
            high: words[5],
            low: words[6],
        },
        side: load_side(words[7]),
        price: signed(words[8]),
        remaining: signed(words[9]),
    }
}

#[tactic(auto, unfolding(host_words::specs::Block::done_of))]
fn load_done(message: MessageWords) -> L3Event
    ensures { result ≡ done_of message.entry.words.now }
{
    let words = message.words;
    L3Event::Done {
        order_id: OrderId {
            high: words[5],
            low: words[6],
        },
        side: load_side(words[7]),
        price: load_optional(words[8], words[9]),
        reason: load_done_reason(words[10]),
        remaining: load_optional(words[11], words[12]),
    }
}

#[tactic(auto, unfolding(host_words::specs::Block::match_of))]
fn load_match(message: MessageWords) -> L3Event
    ensures { result ≡ match_of message.entry.words.now }
{
    let words = message.words;
    L3Event::Match {
        maker_id: OrderId {
            high: words[5],
            low: words[6],
        },
        taker_id: OrderId {
            high: words[7],
            low: words[8],
        },
        side: load_side(words[9]),
        price: signed(words[10]),
        size: signed(words[11]),
    }
}

#[tactic(auto, unfolding(host_words::specs::Block::change_of))]
fn load_change(message: MessageWords) -> L3Event
    ensures { result ≡ change_of message.entry.words.now }
{
    let words = message.words;
    L3Event::Change {
        order_id: OrderId {
            high: words[5],
            low: words[6],
        },
        side: load_side(words[7]),
        reason: load_change_reason(words[8]),
        price: load_optional(words[9], words[10]),
        old_size: load_optional(words[11], words[12]),
        new_size: load_optional(words[13], words[14]),
        old_price: load_optional(words[15], words[16]),
        new_price: load_optional(words[17], words[18]),
        new_funds: load_optional(words[19], words[20]),
    }
}

#[tactic(auto, unfolding(host_words::specs::Block::event_of))]
fn load_event(message: MessageWords) -> L3Event
    ensures { result ≡ event_of message.entry.words.now }
{
    let words = message.words;
    let kind = words[0];
    match kind {
        1 => load_received(message),
        2 => load_open(message),
        3 => load_done(message),
        4 => load_match(message),
        5 => load_change(message),
        _ => L3Event::Unsupported {
            kind: (words[5] % 4294967296) as u32,
        },
    }
}

// The message that 21 words are: any words are one.
#[tactic(auto, unfolding(host_words::specs::Block::message_of))]
pub fn load_message(message: MessageWords) -> L3Message
    ensures { result ≡ message_of message.entry.words.now }
{
    let words = message.words;
    L3Message {
        product_id: ProductId {
            high: words[1],
            low: words[2],
        },
        sequence: words[3],
        time_us: words[4],
        event: load_event(message),
    }
}
