// Why a segment ends, why a state serves no call, and the answer of `apply`, with their numbers in 01's table.
#![tactic(auto)]

ghost use Rattle.std.specs.Prelude.{◌≡◌};
ghost use Rattle.reconstructor_answers.specs.Numbers.{reason_detail, discrepancy_number, discrepancy_detail, kind_number, kind_detail, state_error_number, applied_number, apply_error_number, answer_number};

// Why a change without a new size is malformed.
#[derive(Clone, Copy)]
pub enum MalformedReason {
    // A funds change for a resting limit order.
    Funds,
    NoSize,
}

// A message inconsistent with the book: the book can no longer be trusted. 30 to 44.
#[derive(Clone, Copy)]
pub enum Discrepancy {
    UnknownMaker,
    TakerResting,
    MatchMismatch,
    MatchExceedsRemaining,
    DuplicateOpen,
    MissingMatch,
    RemainingMismatch,
    DoneMismatch,
    MalformedChange(MalformedReason),
    ChangeMismatch,
    UnsupportedModification,
    CrossedAfterApply,
    InvalidValue,
    CapacityExceeded,
    UnsupportedInput,
}

// Why a segment stopped being valid: 20, 21, 22, or a discrepancy.
#[derive(Clone, Copy)]
pub enum InvalidationKind {
    // A sequence was skipped.
    Gap { expected: u64, got: u64 },
    // A sequence at or before the last applied one.
    OutOfOrderOrDuplicate { last: u64, got: u64 },
    // The next sequence does not fit in 64 bits.
    SequenceOverflow,
    Discrepancy(Discrepancy),
}

// The end of a valid segment.
#[derive(Clone, Copy)]
pub struct Invalidation {
    // The last sequence applied while valid.
    pub last_good_seq: u64,
    // The sequence of the offending message.
    pub first_offending_seq: u64,
    pub kind: InvalidationKind,
}

// Why the state or the lent memory serves no call: 1, 2, 3. The Rust, which owns its memory, has no such answer.
#[derive(Clone, Copy)]
pub enum StateError {
    LimitAboveCeiling,
    LentTooShort,
    MalformedBook,
}

// What an applied message did.
#[derive(Clone, Copy)]
pub enum Applied {
    BookChanged,
    // It concerns no resting order, or changed nothing.
    NoBookEffect,
}

// Why `apply` does not apply a message: 1, 2, 3, 5, 10, 15, 16, 17.
#[derive(Clone, Copy)]
pub enum ApplyError {
    Unusable(StateError),
    AmountOutOfRange,
    WrongProduct,
    NotBootstrapped,
    // This message ended the segment.
    Invalidated(Invalidation),
    // The segment had already ended, and so.
    AwaitingSnapshot(Invalidation),
}

impl MalformedReason {
    // The segment record's word for the reason.
    pub fn detail(self) -> u64
        ensures { result ≡ reason_detail self }
    {
        match self {
            MalformedReason::Funds => 1,
            MalformedReason::NoSize => 0,
        }
    }
}

impl Discrepancy {
    pub fn number(self) -> u64
        ensures { result ≡ discrepancy_number self }
    {
        match self {
            Discrepancy::UnknownMaker => 30,
            Discrepancy::TakerResting => 31,
            Discrepancy::MatchMismatch => 32,
            Discrepancy::MatchExceedsRemaining => 33,
            Discrepancy::DuplicateOpen => 34,
            Discrepancy::MissingMatch => 35,
            Discrepancy::RemainingMismatch => 36,
            Discrepancy::DoneMismatch => 37,
            Discrepancy::MalformedChange(_) => 38,
            Discrepancy::ChangeMismatch => 39,
            Discrepancy::UnsupportedModification => 40,
            Discrepancy::CrossedAfterApply => 41,
            Discrepancy::InvalidValue => 42,
            Discrepancy::CapacityExceeded => 43,
            Discrepancy::UnsupportedInput => 44,
        }
    }

    // Which reason of 38; 0 of any other.
    pub fn detail(self) -> u64
        ensures { result ≡ discrepancy_detail self }
    {
        match self {
            Discrepancy::UnknownMaker => 0,
            Discrepancy::TakerResting => 0,
            Discrepancy::MatchMismatch => 0,
            Discrepancy::MatchExceedsRemaining => 0,
            Discrepancy::DuplicateOpen => 0,
            Discrepancy::MissingMatch => 0,
            Discrepancy::RemainingMismatch => 0,
            Discrepancy::DoneMismatch => 0,
            Discrepancy::MalformedChange(reason) => reason.detail(),
            Discrepancy::ChangeMismatch => 0,
            Discrepancy::UnsupportedModification => 0,
            Discrepancy::CrossedAfterApply => 0,
            Discrepancy::InvalidValue => 0,
            Discrepancy::CapacityExceeded => 0,
            Discrepancy::UnsupportedInput => 0,
        }
    }
}

impl InvalidationKind {
    pub fn number(self) -> u64
        ensures { result ≡ kind_number self }
    {
        match self {
            InvalidationKind::Gap { .. } => 20,
            InvalidationKind::OutOfOrderOrDuplicate { .. } => 21,
            InvalidationKind::SequenceOverflow => 22,
            InvalidationKind::Discrepancy(d) => d.number(),
        }
    }

    pub fn detail(self) -> u64
        ensures { result ≡ kind_detail self }
    {
        match self {
            InvalidationKind::Gap { .. } => 0,
            InvalidationKind::OutOfOrderOrDuplicate { .. } => 0,
            InvalidationKind::SequenceOverflow => 0,
            InvalidationKind::Discrepancy(d) => d.detail(),
        }
    }
}

impl StateError {
    pub fn number(self) -> u64
        ensures { result ≡ state_error_number self }
    {
        match self {
            StateError::LimitAboveCeiling => 1,
            StateError::LentTooShort => 2,
            StateError::MalformedBook => 3,
        }
    }
}

impl Applied {
    pub fn number(self) -> u64
        ensures { result ≡ applied_number self }
    {
        match self {
            Applied::BookChanged => 256,
            Applied::NoBookEffect => 0,
        }
    }
}

impl ApplyError {
    pub fn number(self) -> u64
        ensures { result ≡ apply_error_number self }
    {
        match self {
            ApplyError::Unusable(why) => why.number(),
            ApplyError::AmountOutOfRange => 5,
            ApplyError::WrongProduct => 10,
            ApplyError::NotBootstrapped => 15,
            ApplyError::Invalidated(_) => 16,
            ApplyError::AwaitingSnapshot(_) => 17,
        }
    }
}

// 256 where the message was applied and changed the book, 0 where it was applied without effect, else 01's number.
pub fn answer_number(answer: Result<Applied, ApplyError>) -> u64
    ensures { result ≡ answer_number answer }
{
    match answer {
        Ok(applied) => applied.number(),
        Err(why) => why.number(),
    }
}
