// Tests of words before they are read as values: whether a handshake, an estimate or a book has them, and whether what is lent is as long as a state says.
#![tactic(auto)]

ghost use Rattle.std.specs.Prelude.{◌≡◌, ltb, get_or};
ghost use Rattle.host_word_tests.specs.WordTests.{no_bit, no_handshake, no_estimate, no_reason, no_book};

// The word at a place; 0 past the end.
pub fn word(words: &[u64], i: usize) -> u64
    ensures { result ≡ get_or words.now i 0 }
{
    if i < words.len() {
        return words[i];
    }
    0
}

// Whether a word that is 0 or 1 is neither.
pub fn no_bit(word: u64) -> bool
    ensures { result ≡ no_bit word }
{
    word > 1
}

// Whether the words are those of no handshake.
pub fn no_handshake(words: &[u64]) -> bool
    ensures { result ≡ no_handshake words.now }
{
    word(words, 2) > 1
}

// Whether the words are those of no estimate.
pub fn no_estimate(words: &[u64]) -> bool
    ensures { result ≡ no_estimate words.now }
{
    (word(words, 0) > 1) | (word(words, 4) > 1)
}

fn no_reason(kind: u64, detail: u64) -> bool
    ensures { result ≡ no_reason kind detail }
{
    if kind == 38 {
        return detail > 1;
    }
    (kind < 20) | (((kind > 22) & (kind < 30)) | (kind > 44))
}

// Whether the words are those of no book's state.
#[tactic(auto, unfolding(crate::specs::WordTests::no_book))]
pub fn no_book(words: &[u64]) -> bool
    ensures { result ≡ no_book words.now }
{
    let status = word(words, 6);
    let reasonless = no_reason(word(words, 9), word(words, 12));
    (word(words, 2) > 1) | ((status > 2) | ((status == 2) & reasonless))
}

// Whether a segment list of so many records is shorter than the state's count.
pub fn list_short(state: &[u64], lent: usize) -> bool
    ensures { result ≡ ltb lent (get_or state.now 14 0) }
{
    (lent as u64) < word(state, 14)
}

// Whether scratch of so many words is shorter than the state's limit of orders.
pub fn scratch_short(state: &[u64], scratch: usize) -> bool
    ensures { result ≡ ltb scratch (get_or state.now 3 0) }
{
    (scratch as u64) < word(state, 3)
}
