// An estimate from words and as words; the layout is beside the answers' numbers (crate `queue`, specs/Numbers.antt).
#![tactic(auto)]

ghost use Rattle.std.specs.Prelude.{◌≡◌, ◌≤◌, length};
ghost use Rattle.queue.specs.Numbers.{estimate_values, estimate_told};
ghost use Rattle.host_answers.specs.Answers.{answered, told_in};
ghost use Rattle.host_estimate_words.specs.Estimates.{estimate_words, anchor_of, estimate_of, values_told};

use host_answers::give;
use host_words::{bits, load_side, side_word, signed};
use message::OrderId;
use queue::{Anchor, QueueError, QueueEstimate};
use reconstructor_segments::SegmentName;

// Words of an estimate.
pub const ESTIMATE_WORDS: usize = 8;

#[tactic(auto, unfolding(crate::specs::Estimates::anchor_of))]
fn load_anchor(words: &[u64]) -> Anchor
    requires { estimate_words ≤ length words.now }
    ensures { result ≡ anchor_of words.now }
{
    if words[4] == 0 {
        return Anchor::Hypothetical {
            orders: words[5] as usize,
            created_at: words[6],
        };
    }
    Anchor::Own {
        order_id: OrderId {
            high: words[5],
            low: words[6],
        },
        entered_at: words[7],
    }
}

// The estimate that eight words are.
#[tactic(auto, unfolding(crate::specs::Estimates::estimate_of))]
pub fn load_estimate(words: &[u64]) -> QueueEstimate
    requires { estimate_words ≤ length words.now }
    ensures { result ≡ estimate_of words.now }
{
    QueueEstimate {
        side: load_side(words[0]),
        price: signed(words[1]),
        segment: SegmentName {
            number: words[2],
            place: words[3] as usize,
        },
        anchor: load_anchor(words),
    }
}

fn estimate_values(estimate: QueueEstimate) -> [u64; ESTIMATE_WORDS]
    ensures { result ≡ estimate_values estimate }
{
    let side = side_word(estimate.side);
    let price = bits(estimate.price);
    let number = estimate.segment.number;
    let place = estimate.segment.place as u64;
    match estimate.anchor {
        Anchor::Hypothetical { orders, created_at } => {
            [side, price, number, place, 0, orders as u64, created_at, 0]
        }
        Anchor::Own {
            order_id,
            entered_at,
        } => {
            [
                side,
                price,
                number,
                place,
                1,
                order_id.high,
                order_id.low,
                entered_at,
            ]
        }
    }
}

// What a queue call answers: a success's values as words, or the number of a refusal.
pub fn store_values<const N: usize>(out: &mut [u64], answer: Result<[u64; N], QueueError>) -> u64
    ensures { answered result out.new ≡ told_in (values_told answer.entry) out.old }
{
    match answer {
        Ok(values) => give(out, &values),
        Err(why) => why.number(),
    }
}

pub fn store_estimate(out: &mut [u64], answer: Result<QueueEstimate, QueueError>) -> u64
    ensures { answered result out.new ≡ told_in (estimate_told answer) out.old }
{
    store_values(out, answer.map(estimate_values))
}
