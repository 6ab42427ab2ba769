// The answers of the level reads as numbers and words: how many entries are shown.
#![tactic(auto)]

ghost use Rattle.std.specs.Prelude.{◌≡◌};
ghost use Rattle.reconstructor_reads.specs.Numbers.{level_told, stale_told};
ghost use Rattle.host_answers.specs.Answers.{answered, told_in};

use host_answers::give;
use reconstructor_reads::{LevelError, StaleError};

pub fn store_level(count: &mut [u64], answer: Result<usize, LevelError>) -> u64
    ensures { answered result count.new ≡ told_in (level_told answer) count.old }
{
    match answer {
        Ok(n) => { give(count, &[n as u64]) }
        Err(LevelError::View(why)) => why.number(),
        Err(LevelError::OutputTooSmall) => 7,
    }
}

pub fn store_stale(count: &mut [u64], answer: Result<Option<usize>, StaleError>) -> u64
    ensures { answered result count.new ≡ told_in (stale_told answer) count.old }
{
    match answer {
        Ok(Some(n)) => { give(count, &[n as u64]) }
        Ok(None) => 256,
        Err(StaleError::Unusable(why)) => why.number(),
        Err(StaleError::OutputTooSmall) => 7,
    }
}
