// Laws of lists, Booleans and numbers that the other crates cite, and what the code does with a block of elements of any type: it is put at a place.
#![tactic(auto)]

ghost use Rattle.std.specs.Prelude.{◌≡◌, ◌++◌, ◌+◌, ◌≤◌, length, take, drop};

// Writes `words` from place `at` on.
pub fn put<T: Copy>(out: &mut [T], at: usize, words: &[T])
    requires { at + length words.now ≤ length out.old }
    ensures { out.new ≡ take at out.old ++ words.now ++ drop (at + length words.now) out.old }
{
    out[at..at + words.len()].copy_from_slice(words);
}
