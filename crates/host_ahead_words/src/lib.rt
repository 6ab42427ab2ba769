// A volume ahead as words; the layout is beside the answers' numbers (crate `queue`, specs/Numbers.antt).
#![tactic(auto)]

ghost use Rattle.std.specs.Prelude.{◌≡◌};
ghost use Rattle.queue.specs.Numbers.{assumption_word, ahead_values, ahead_told};
ghost use Rattle.host_answers.specs.Answers.{answered, told_in};

use host_estimate_words::store_values;
use queue::{Assumption, QueueAhead, QueueError};

fn assumption_word(first: Assumption) -> u64
    ensures { result ≡ assumption_word first }
{
    match first {
        Assumption::BackOfVisibleQueueAtCreation => 0,
        Assumption::EntrySequenceIsPriority => 1,
        Assumption::SizeDecreaseKeepsPriority => 2,
    }
}

fn ahead_values(ahead: QueueAhead) -> [u64; 7]
    ensures { result ≡ ahead_values ahead }
{
    [
        ahead.at_seq,
        ahead.volume,
        ahead.from_snapshot,
        ahead.observed,
        ahead.orders as u64,
        assumption_word(ahead.first_assumption),
        u64::from(ahead.keeps_priority),
    ]
}

pub fn store_ahead(out: &mut [u64], answer: Result<QueueAhead, QueueError>) -> u64
    ensures { answered result out.new ≡ told_in (ahead_told answer) out.old }
{
    store_values(out, answer.map(ahead_values))
}
