// The answers of the reads of a valid book, its last sequence and its best prices, as numbers and words.
#![tactic(auto)]

ghost use Rattle.std.specs.Prelude.{◌≡◌};
ghost use Rattle.reconstructor_view.specs.Numbers.{sequence_told, present, price_of, best_told};
ghost use Rattle.host_answers.specs.Answers.{answered, told_in};

use host_answers::give;
use reconstructor_view::{BestPrices, ViewError};

pub fn store_last(out: &mut [u64], answer: Result<u64, ViewError>) -> u64
    ensures { answered result out.new ≡ told_in (sequence_told answer) out.old }
{
    match answer {
        Ok(last_seq) => { give(out, &[last_seq]) }
        Err(why) => why.number(),
    }
}

fn present(price: Option<u64>) -> u64
    ensures { result ≡ present price }
{
    match price {
        Some(_) => 1,
        None => 0,
    }
}

fn price_of(price: Option<u64>) -> u64
    ensures { result ≡ price_of price }
{
    match price {
        Some(p) => p,
        None => 0,
    }
}

pub fn store_best(out: &mut [u64], answer: Result<BestPrices, ViewError>) -> u64
    ensures { answered result out.new ≡ told_in (best_told answer) out.old }
{
    match answer {
        Ok(BestPrices { bid, ask }) => {
            give(
                out,
                &[present(bid), price_of(bid), present(ask), price_of(ask)],
            )
        }
        Err(why) => why.number(),
    }
}
