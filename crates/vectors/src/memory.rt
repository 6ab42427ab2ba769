// Words of memory: what stands in it at first, and digests. Both are those of tools/oracle (LINES.md): products are modulo 2^64.

// The most words that a call is lent: specs/Format.antt of crate `recorded` has them.
pub const ROWS: usize = 2048;

pub const SEGMENTS: usize = 512;

pub const SCRATCH: usize = 256;

pub const OUTPUT: usize = 1280;

pub const AHEAD: usize = 768;

// The memory of a book, as far as a call is lent it.
#[derive(Drop)]
pub struct Book<'a> {
    pub state: &'a mut [u64],
    pub rows: &'a mut [u64],
    pub segments: &'a mut [u64],
}

// Between the numbers that neighbouring words are made from; a digest multiplies by it too.
const STEP: u64 = 0x9E3779B97F4A7C15;

fn mixed(z: u64) -> u64 {
    let a = (z ^ (z >> 30)).wrapping_mul(0xBF58476D1CE4E5B9);
    let b = (a ^ (a >> 27)).wrapping_mul(0x94D049BB133111EB);
    b ^ (b >> 31)
}

// Words that a seed gives; 0 gives zeros.
pub fn fill(words: &mut [u64], seed: u64) {
    if seed == 0 {
        words.fill(0);
        return;
    }
    let mut z = seed;
    for word in words.iter_mut() {
        *word = mixed(z);
        z = z.wrapping_add(STEP);
    }
}

pub fn digest(words: &[u64]) -> u64 {
    words.iter().fold(0xCBF29CE484222325, |d, word| {
        (d ^ *word).wrapping_mul(STEP).rotate_left(29)
    })
}

// The word at a place, 0 past the end.
pub fn word(words: &[u64], i: usize) -> u64 {
    *words.get(i).unwrap_or(&0)
}
