// The snapshot handshake: after an accepted snapshot, buffered messages are stepped one by one; those that the snapshot already has are dropped.
#![tactic(auto)]

ghost use Rattle.std.specs.Prelude.{◌≡◌};
ghost use Rattle.book.specs.Rows.{most_rows};
ghost use Rattle.book.specs.Memory.{memory};
ghost use Rattle.reconstructor_state.specs.State.{ceiling, segment_of};
ghost use Rattle.reconstructor_checks.specs.StateChecks.{Trusted};
ghost use Rattle.reconstructor_handshake.specs.Step.{new_handshake, step_told, step_number, other_segment, step_worked, step_leaves, stepped_to, stepped};
ghost use Rattle.reconstructor_handshake.specs.Inner.{decided_of, admitted_to, step_to, step_reply_of};

use message::L3Message;
use reconstructor::Work;
use reconstructor_answers::{Applied, ApplyError, answer_number};
use reconstructor_apply_trusted::apply_trusted;
use reconstructor_counts::Counter;
use reconstructor_handshake_rules::{applied_by, drops, ends};
use reconstructor_segments::{Segment, SegmentName};
use reconstructor_state::{BookReconstructor, Ceiling};

// A handshake for one segment, with how many messages it applied. It hands itself back at each step.
#[derive(Clone, Copy)]
pub struct Handshake {
    pub segment: SegmentName,
    pub ended: bool,
    pub applied: u64,
}

// The answer of a step: what `apply` says, a drop, or 9.
#[derive(Clone, Copy)]
pub enum StepAnswer {
    Stepped(Result<Applied, ApplyError>),
    Dropped,
    OtherSegment,
}

// What a step leaves of the handshake and the state, with its answer.
#[derive(Clone, Copy)]
pub struct StepReply {
    pub handshake: Handshake,
    pub book: BookReconstructor,
    pub answer: StepAnswer,
}

// The same, with what the step makes of the last segment's record.
#[derive(Clone, Copy)]
pub struct StepWork {
    pub handshake: Handshake,
    pub book: BookReconstructor,
    pub answer: StepAnswer,
    pub segment: Segment,
}

fn segment_of(work: StepWork) -> Segment
    ensures { result ≡ work.segment }
{
    work.segment
}

fn reply_of(work: StepWork) -> StepReply
    ensures { result ≡ step_reply_of work }
{
    StepReply {
        handshake: work.handshake,
        book: work.book,
        answer: work.answer,
    }
}

impl StepAnswer {
    // As `apply`'s, and 512 for a drop.
    pub fn number(self) -> u64
        ensures { result ≡ step_number self }
    {
        match self {
            StepAnswer::Stepped(answer) => answer_number(answer),
            StepAnswer::Dropped => 512,
            StepAnswer::OtherSegment => 9,
        }
    }
}

impl Handshake {
    // The handshake of the segment that the book is in. Before any snapshot there is none, and it has ended.
    pub fn new(book: BookReconstructor) -> Self
        ensures { result ≡ new_handshake (segment_of book) book.segments }
    {
        Self {
            segment: book.segment_name(),
            ended: book.segments == 0,
            applied: 0,
        }
    }

    // Number 9.
    fn is_other(self, book: BookReconstructor) -> bool
        ensures { result ≡ other_segment self (segment_of book) book.segments }
    {
        let same = reconstructor_segments::same_segment(self.segment, book.segment_name());
        self.ended | ((book.segments == 0) | !same)
    }

    // A step that changes neither handshake nor record.
    fn unchanged(self, book: BookReconstructor, last: Segment, answer: StepAnswer) -> StepWork
        ensures { result ≡ record { answer = answer; handshake = self; book = book; segment = last } }
    {
        StepWork {
            handshake: self,
            book,
            answer,
            segment: last,
        }
    }

    // What `apply` has decided: it alters the handshake's end and its number applied, and hands it back.
    fn decided(mut self, work: Work) -> StepWork
        ensures { result ≡ decided_of self work }
    {
        self.ended = self.ended | ends(work.answer);
        self.applied = applied_by(self.applied, work.answer);
        StepWork {
            handshake: self,
            book: work.book,
            answer: StepAnswer::Stepped(work.answer),
            segment: work.segment,
        }
    }

    // A step that 9 and 5 let pass: dropped, or else `apply` decides.
    fn step_admitted(
        self,
        book: BookReconstructor,
        rows: &mut [u64],
        last: Segment,
        message: L3Message,
    ) -> StepWork
        requires { Trusted most_rows book (memory rows.old) }
        ensures { step_worked result (memory rows.new) ≡ admitted_to self book (memory rows.old) last message }
    {
        let product = book.product_id;
        if drops(product, last.start_seq, message) {
            let counted = book.counting(Counter::HandshakeDropped);
            return self.unchanged(counted, last, StepAnswer::Dropped);
        }
        self.decided(apply_trusted(book, rows, last, message))
    }

    // A step of a state that passes 1, 2 and 3, with the last segment's record by value.
    #[tactic(auto, unfolding(crate::specs::Inner::step_to, crate::specs::Step::unless_refused, reconstructor_state::specs::Checks::check))]
    fn step_trusted(
        self,
        book: BookReconstructor,
        rows: &mut [u64],
        last: Segment,
        message: L3Message,
    ) -> StepWork
        requires { Trusted most_rows book (memory rows.old) }
        ensures { step_worked result (memory rows.new) ≡ step_to self book (memory rows.old) last message }
    {
        if self.is_other(book) {
            return self.unchanged(book, last, StepAnswer::OtherSegment);
        }
        if !message_range::event_in_range(message.event) {
            let answer = StepAnswer::Stepped(Err(ApplyError::AmountOutOfRange));
            return self.unchanged(book, last, answer);
        }
        self.step_admitted(book, rows, last, message)
    }

    // A step under a ceiling, with the last segment's record by value, of a list of `lent` records.
    pub fn step_under(
        self,
        top: Ceiling,
        book: BookReconstructor,
        rows: &mut [u64],
        lent: usize,
        last: Segment,
        message: L3Message,
    ) -> StepWork
        ensures { step_worked result (memory rows.new) ≡ stepped_to top.limit self book (memory rows.old) lent last message }
    {
        match reconstructor_checks::own_checks(top, book, rows, lent) {
            Err(why) => {
                let answer = StepAnswer::Stepped(Err(ApplyError::Unusable(why)));
                self.unchanged(book, last, answer)
            }
            Ok(()) => self.step_trusted(book, rows, last, message),
        }
    }

    // Under our ceiling.
    pub fn step_by_value(
        self,
        book: BookReconstructor,
        rows: &mut [u64],
        lent: usize,
        last: Segment,
        message: L3Message,
    ) -> StepWork
        ensures { step_worked result (memory rows.new) ≡ stepped_to ceiling self book (memory rows.old) lent last message }
    {
        self.step_under(Ceiling::VENUE, book, rows, lent, last, message)
    }

    // Steps one buffered message: dropped if the snapshot already has it, else `apply` decides.
    pub fn step(
        mut self,
        book: BookReconstructor,
        rows: &mut [u64],
        segments: &mut [Segment],
        message: L3Message,
    ) -> StepReply
        ensures { (step_leaves result (memory rows.new) segments.new ≡ stepped ceiling self book (memory rows.old) segments.old message) × (step_told result.answer ≡ step_told (stepped ceiling self book (memory rows.old) segments.old message).answer) }
    {
        let count = book.segment_count();
        let last = reconstructor_segments_list::last_segment(segments, count);
        let work = self.step_by_value(book, rows, segments.len(), last, message);
        let segment = segment_of(work);
        reconstructor_segments_list::rewrite_last(segments, count, segment);
        reply_of(work)
    }
}
