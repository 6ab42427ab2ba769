// Why a book is invalid and a segment's record as numbers and words: 256 where there is none.
#![tactic(auto)]

ghost use Rattle.std.specs.Prelude.{◌≡◌};
ghost use Rattle.reconstructor_view.specs.Numbers.{invalidation_told, segment_told};
ghost use Rattle.host_answers.specs.Answers.{answered, told_in};

use host_answers::give;
use host_words::kind_words;
use reconstructor_answers::Invalidation;
use reconstructor_segments::Segment;

pub fn store_invalidation(out: &mut [u64], answer: Option<Invalidation>) -> u64
    ensures { answered result out.new ≡ told_in (invalidation_told answer) out.old }
{
    match answer {
        Some(why) => {
            let words = kind_words(why.kind);
            give(
                out,
                &[
                    why.last_good_seq,
                    why.first_offending_seq,
                    words.number,
                    words.first,
                    words.second,
                    words.detail,
                ],
            )
        }
        None => 256,
    }
}

pub fn store_segment(out: &mut [u64], answer: Option<Segment>) -> u64
    ensures { answered result out.new ≡ told_in (segment_told answer) out.old }
{
    match answer {
        Some(record) => {
            give(
                out,
                &[
                    record.start_seq,
                    record.last_good_seq,
                    record.end,
                    record.end_good,
                    record.end_seq,
                    record.end_detail,
                    record.first_us,
                    record.last_us,
                    record.elapsed(),
                    record.accepted_messages(),
                ],
            )
        }
        None => 256,
    }
}
