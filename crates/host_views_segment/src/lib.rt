// The reads of the state's own fields and of the lent list, whatever the standing: of those that `host` exports.
#![tactic(auto)]

ghost use Rattle.std.specs.Prelude.{◌≡◌};
ghost use Rattle.host_answers.specs.Answers.{answered};
ghost use Rattle.host_views_segment.specs.SegmentViews.{invalidation_call, segment_call};

use host_answers_segment::{store_invalidation, store_segment};
use host_boundary::own_boundary;
use host_words::{StateWords, load_book};

pub fn invalidation(state: &[u64], out: &mut [u64]) -> u64
    ensures { answered result out.new ≡ invalidation_call state.now out.old }
{
    let stop = own_boundary(state);
    if stop != 0 {
        return stop;
    }
    let book = load_book(StateWords { words: state });
    store_invalidation(out, reconstructor_view::invalidation(book))
}

pub fn segment(state: &[u64], segments: &[u64], place: usize, out: &mut [u64]) -> u64
    ensures { answered result out.new ≡ segment_call state.now segments.now place out.old }
{
    let stop = own_boundary(state);
    if stop != 0 {
        return stop;
    }
    let book = load_book(StateWords { words: state });
    let lent = segments.len() / host_records::RECORD_WORDS;
    let record = host_records::record_at(segments, place);
    let answer = reconstructor_view_segment::segment_by_value(book, lent, place, record);
    store_segment(out, answer)
}
