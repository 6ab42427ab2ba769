// The parts of a line.
use crate::memory::{Book, digest, word};
use recorded::{Operation, Voice};
use std::io::{self, Print, Stdout};

// Whose answer is recorded.
pub fn voice(voice: Voice) -> &'static str {
    match voice {
        Voice::Rust => "rust",
        Voice::Runner => "runner",
        Voice::Model(_) => "model",
    }
}

pub fn name(operation: Operation) -> &'static str {
    match operation {
        Operation::Create => "create",
        Operation::Write => "write",
        Operation::Bootstrap => "bootstrap",
        Operation::Apply => "apply",
        Operation::Handshake => "handshake",
        Operation::Step => "step",
        Operation::LastSequence => "last_sequence",
        Operation::Best => "best",
        Operation::Audit => "audit",
        Operation::LevelQueue => "level_queue",
        Operation::PriorityProfile => "priority_profile",
        Operation::L2 => "l2",
        Operation::StaleL2 => "stale_l2",
        Operation::QueueEstimate => "queue_estimate",
        Operation::QueueEstimateOwn => "queue_estimate_own",
        Operation::VolumeAhead => "volume_ahead",
        Operation::Invalidation => "invalidation",
        Operation::Segment => "segment",
        Operation::Unknown(_) => "unknown",
    }
}

pub fn words(to: Stdout, words: &[u64]) -> io::Result<()> {
    for word in words {
        print!(to; " {word}")?;
    }
    Ok(())
}

// The answer; of 16, 17 and 18 also the invalidation in force.
pub fn answer(to: Stdout, answer: u64, state: &[u64]) -> io::Result<()> {
    print!(to; " {answer}")?;
    if matches!(answer, 16..=18) {
        for i in [7, 8, 9, 12] {
            print!(to; " {}", word(state, i))?;
        }
    }
    Ok(())
}

pub fn book(to: Stdout, book: &Book<'_>) -> io::Result<()> {
    let state = digest(book.state);
    let rows = digest(book.rows);
    let segments = digest(book.segments);
    println!(to; " ; {state} {rows} {segments}")
}
