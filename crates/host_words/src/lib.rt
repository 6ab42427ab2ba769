// A state from its block, the words of its status, and the values that words are made of; specs/Block.antt has the layouts. Crate `host_words_store` writes a block, `host_messages` has a message's words.
#![tactic(auto)]

ghost use Rattle.std.specs.Prelude.{◌≡◌, ◌≤◌, length};
ghost use Rattle.std.specs.Int.{w64};
ghost use Rattle.std.proofs.Common.{of_z, to_z};
ghost use Rattle.piece.specs.Piece.{side_of};
ghost use Rattle.piece.specs.Encode.{side_byte};
ghost use Rattle.host_words.specs.Block.{state_words, size_decrease_of, reason_of, discrepancy_of, kind_of, status_of, rules_of, counts_of, book_of, kind_words, status_words};

use message::{L3Side, ProductId};
use reconstructor_answers::{Discrepancy, Invalidation, InvalidationKind, MalformedReason};
use reconstructor_counts::MessageCounts;
use reconstructor_state::{BookReconstructor, SizeDecrease, Status, VenueRules};

// The words of a state.
pub const STATE_WORDS: usize = 27;

// Words that are enough for a state.
#[derive(Clone, Copy)]
pub struct StateWords<'a> {
    pub words: &'a [u64],
    pub ghost whole: { state_words ≤ length words.now },
}

// ---- a value as words

// An amount's 64 bits.
pub fn bits(amount: i64) -> u64
    ensures { result ≡ of_z w64 amount }
{
    amount.cast_unsigned()
}

pub fn side_word(side: L3Side) -> u64
    ensures { result ≡ side_byte side }
{
    match side {
        L3Side::Buy => 0,
        L3Side::Sell => 1,
    }
}

// ---- a state from its block

#[tactic(auto, unfolding(crate::specs::Block::size_decrease_of))]
fn load_size_decrease(word: u64) -> SizeDecrease
    ensures { result ≡ size_decrease_of word }
{
    match word {
        0 => SizeDecrease::KeepsPriority,
        _ => SizeDecrease::PriorityUnknown,
    }
}

#[tactic(auto, unfolding(crate::specs::Block::reason_of))]
fn load_reason(word: u64) -> MalformedReason
    ensures { result ≡ reason_of word }
{
    match word {
        0 => MalformedReason::NoSize,
        _ => MalformedReason::Funds,
    }
}

#[tactic(auto, unfolding(crate::specs::Block::discrepancy_of))]
fn load_discrepancy(kind: u64, detail: u64) -> Discrepancy
    ensures { result ≡ discrepancy_of kind detail }
{
    match kind {
        30 => Discrepancy::UnknownMaker,
        31 => Discrepancy::TakerResting,
        32 => Discrepancy::MatchMismatch,
        33 => Discrepancy::MatchExceedsRemaining,
        34 => Discrepancy::DuplicateOpen,
        35 => Discrepancy::MissingMatch,
        36 => Discrepancy::RemainingMismatch,
        37 => Discrepancy::DoneMismatch,
        38 => Discrepancy::MalformedChange(load_reason(detail)),
        39 => Discrepancy::ChangeMismatch,
        40 => Discrepancy::UnsupportedModification,
        41 => Discrepancy::CrossedAfterApply,
        42 => Discrepancy::InvalidValue,
        43 => Discrepancy::CapacityExceeded,
        _ => Discrepancy::UnsupportedInput,
    }
}

#[tactic(auto, unfolding(crate::specs::Block::kind_of))]
fn load_kind(kind: u64, first: u64, second: u64, detail: u64) -> InvalidationKind
    ensures { result ≡ kind_of kind first second detail }
{
    match kind {
        20 => InvalidationKind::Gap {
            expected: first,
            got: second,
        },
        21 => InvalidationKind::OutOfOrderOrDuplicate {
            last: first,
            got: second,
        },
        22 => InvalidationKind::SequenceOverflow,
        _ => InvalidationKind::Discrepancy(load_discrepancy(kind, detail)),
    }
}

#[tactic(auto, unfolding(crate::specs::Block::status_of))]
fn load_status(word: u64, last: u64, offending: u64, kind: InvalidationKind) -> Status
    ensures { result ≡ status_of word last offending kind }
{
    match word {
        0 => Status::Empty,
        1 => Status::Valid { last_seq: last },
        _ => Status::Invalidated(Invalidation {
            last_good_seq: last,
            first_offending_seq: offending,
            kind,
        }),
    }
}

pub fn load_rules(state: StateWords) -> VenueRules
    ensures { result ≡ rules_of state.entry.words.now }
{
    let words = state.words;
    VenueRules {
        size_decrease: load_size_decrease(words[2]),
        max_orders: words[3] as usize,
        max_levels: words[4] as usize,
    }
}

fn load_counts(state: StateWords) -> MessageCounts
    ensures { result ≡ counts_of state.entry.words.now }
{
    let words = state.words;
    MessageCounts {
        received: words[15],
        open: words[16],
        done: words[17],
        matched: words[18],
        stp_decrease: words[19],
        off_book_done: words[20],
        off_book_change: words[21],
        noop_change: words[22],
        handshake_dropped: words[23],
        skipped_while_invalid: words[24],
        wrong_product: words[25],
        rejected_snapshots: words[26],
    }
}

// The state that a block is: any words are one.
#[tactic(auto, unfolding(crate::specs::Block::book_of))]
pub fn load_book(state: StateWords) -> BookReconstructor
    ensures { result ≡ book_of state.entry.words.now }
{
    let words = state.words;
    let product_id = ProductId {
        high: words[0],
        low: words[1],
    };
    let kind = load_kind(words[9], words[10], words[11], words[12]);
    BookReconstructor {
        product_id,
        rules: load_rules(state),
        number: words[5],
        status: load_status(words[6], words[7], words[8], kind),
        rows: words[13] as usize,
        segments: words[14] as usize,
        counts: load_counts(state),
    }
}

// ---- a block from its state

// An invalidation's reason: its number, the two sequences of 20 and 21, and which 38 it is.
#[derive(Clone, Copy, Default)]
pub struct KindWords {
    pub number: u64,
    pub first: u64,
    pub second: u64,
    pub detail: u64,
}

#[derive(Clone, Copy, Default)]
pub struct StatusWords {
    pub status: u64,
    pub last: u64,
    pub offending: u64,
    pub kind: KindWords,
}

pub fn kind_words(kind: InvalidationKind) -> KindWords
    ensures { result ≡ kind_words kind }
{
    let number = kind.number();
    match kind {
        InvalidationKind::Gap { expected, got } => KindWords {
            number,
            first: expected,
            second: got,
            ..KindWords::default()
        },
        InvalidationKind::OutOfOrderOrDuplicate { last, got } => KindWords {
            number,
            first: last,
            second: got,
            ..KindWords::default()
        },
        InvalidationKind::SequenceOverflow => KindWords {
            number,
            ..KindWords::default()
        },
        InvalidationKind::Discrepancy(d) => KindWords {
            number,
            detail: d.detail(),
            ..KindWords::default()
        },
    }
}

pub fn status_words(status: Status) -> StatusWords
    ensures { result ≡ status_words status }
{
    match status {
        Status::Empty => StatusWords::default(),
        Status::Valid { last_seq } => StatusWords {
            status: 1,
            last: last_seq,
            ..StatusWords::default()
        },
        Status::Invalidated(i) => StatusWords {
            status: 2,
            last: i.last_good_seq,
            offending: i.first_offending_seq,
            kind: kind_words(i.kind),
        },
    }
}

// ---- a value from words

// The word's bits as two's complement.
pub fn signed(word: u64) -> i64
    ensures { result ≡ to_z w64 word }
{
    word.cast_signed()
}

#[tactic(auto, unfolding(piece::specs::Piece::side_of))]
pub fn load_side(word: u64) -> L3Side
    ensures { result ≡ side_of word }
{
    match word {
        0 => L3Side::Buy,
        _ => L3Side::Sell,
    }
}
