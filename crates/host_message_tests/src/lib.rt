// Whether words are those of no message, by its kind.
#![tactic(auto)]

ghost use Rattle.std.specs.Prelude.{◌≡◌};
ghost use Rattle.host_message_tests.specs.MessageTests.{no_done, no_change, no_message};

use host_word_tests::word;

#[tactic(auto, unfolding(crate::specs::MessageTests::no_done))]
fn no_done(words: &[u64]) -> bool
    ensures { result ≡ no_done words.now }
{
    (word(words, 7) > 1) | ((word(words, 8) > 1) | ((word(words, 10) > 1) | (word(words, 11) > 1)))
}

#[tactic(auto, unfolding(crate::specs::MessageTests::no_change))]
fn no_change(words: &[u64]) -> bool
    ensures { result ≡ no_change words.now }
{
    let first = (word(words, 17) > 1) | (word(words, 19) > 1);
    let second = (word(words, 11) > 1) | ((word(words, 13) > 1) | ((word(words, 15) > 1) | first));
    (word(words, 7) > 1) | ((word(words, 8) > 1) | ((word(words, 9) > 1) | second))
}

// Whether the words are those of no message.
#[tactic(auto, unfolding(crate::specs::MessageTests::no_message))]
pub fn no_message(words: &[u64]) -> bool
    ensures { result ≡ no_message words.now }
{
    let kind = word(words, 0);
    match kind {
        1 => word(words, 7) > 1,
        2 => word(words, 7) > 1,
        3 => no_done(words),
        4 => word(words, 9) > 1,
        5 => no_change(words),
        6 => word(words, 5) > 4294967295,
        _ => true,
    }
}
