// One message applied to a book: what it leaves, the definitions, and laws. The crates named after `reconstructor_turn` and `reconstructor_apply` have the code.
#![tactic(auto)]

use reconstructor_answers::{Applied, ApplyError};
use reconstructor_segments::Segment;
use reconstructor_state::BookReconstructor;

// What a call leaves of the state, with its answer.
#[derive(Clone, Copy)]
pub struct Reply {
    pub book: BookReconstructor,
    pub answer: Result<Applied, ApplyError>,
}

// The same, with what the message makes of the last segment's record.
#[derive(Clone, Copy)]
pub struct Work {
    pub book: BookReconstructor,
    pub answer: Result<Applied, ApplyError>,
    pub segment: Segment,
}
