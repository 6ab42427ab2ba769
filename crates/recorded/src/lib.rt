// A recorded call: its header, and words of its payload. Bytes that are not there are read as 0.
#![tactic(auto)]

ghost use Rattle.std.specs.Prelude.{◌≡◌, ◌<◌, ◌≤◌, get_or};
ghost use Rattle.recorded.specs.Format.{half_at, word_at, operation_of, voice_of, header_of, loaded};

// Bytes of a header.
pub const HEADER_BYTES: usize = 32;

// The calls that are recorded.
#[derive(Clone, Copy)]
pub enum Operation {
    Create,
    Write,
    Bootstrap,
    Apply,
    Handshake,
    Step,
    LastSequence,
    Best,
    Audit,
    LevelQueue,
    PriorityProfile,
    L2,
    StaleL2,
    QueueEstimate,
    QueueEstimateOwn,
    VolumeAhead,
    Invalidation,
    Segment,
    // Any other, with its number.
    Unknown(u8),
}

// Whose answer is recorded.
#[derive(Clone, Copy)]
pub enum Voice {
    Rust,
    Runner,
    // Any other number is the model's.
    Model(u8),
}

#[derive(Clone, Copy)]
pub struct Header {
    pub operation: Operation,
    pub voice: Voice,
    pub payload: usize,
    pub rows: usize,
    pub segments: usize,
    pub scratch: usize,
    pub output: usize,
    pub ahead: usize,
    pub which: u64,
    pub first: u64,
    pub second: u64,
}

impl From<u8> for Operation {
    ghost from_gives = { λ number operation. operation ≡ operation_of number };

    fn from(number: u8) -> Operation {
        match number {
            0 => Operation::Create,
            1 => Operation::Write,
            2 => Operation::Bootstrap,
            3 => Operation::Apply,
            4 => Operation::Handshake,
            5 => Operation::Step,
            6 => Operation::LastSequence,
            7 => Operation::Best,
            8 => Operation::Audit,
            9 => Operation::LevelQueue,
            10 => Operation::PriorityProfile,
            11 => Operation::L2,
            12 => Operation::StaleL2,
            13 => Operation::QueueEstimate,
            14 => Operation::QueueEstimateOwn,
            15 => Operation::VolumeAhead,
            16 => Operation::Invalidation,
            17 => Operation::Segment,
            other => Operation::Unknown(other),
        }
    }
}

impl From<u8> for Voice {
    ghost from_gives = { λ number voice. voice ≡ voice_of number };

    fn from(number: u8) -> Voice {
        match number {
            0 => Voice::Rust,
            1 => Voice::Runner,
            other => Voice::Model(other),
        }
    }
}

fn byte(s: &[u8], i: usize) -> u8
    ensures { result ≡ get_or s.now i 0 }
{
    *s.get(i).unwrap_or(&0)
}

fn half(s: &[u8], at: usize) -> u16
    requires { at ≤ 4294967296 }
    ensures { result ≡ half_at s.now at }
{
    u16::from_le_bytes([byte(s, at), byte(s, at + 1)])
}

fn word(s: &[u8], at: usize) -> u64
    requires { at < 4294967000 }
    ensures { result ≡ word_at s.now at }
{
    u64::from_le_bytes([
        byte(s, at),
        byte(s, at + 1),
        byte(s, at + 2),
        byte(s, at + 3),
        byte(s, at + 4),
        byte(s, at + 5),
        byte(s, at + 6),
        byte(s, at + 7),
    ])
}

#[tactic(auto, unfolding(crate::specs::Format::header_of))]
pub fn read_header(s: &[u8]) -> Header
    ensures { result ≡ header_of s.now }
{
    Header {
        operation: Operation::from(byte(s, 0)),
        voice: Voice::from(byte(s, 1)),
        payload: usize::from(half(s, 2)),
        rows: usize::from(half(s, 4)),
        segments: usize::from(half(s, 6)),
        scratch: usize::from(half(s, 8)),
        output: usize::from(half(s, 10)),
        ahead: usize::from(half(s, 12)),
        which: u64::from(half(s, 14)),
        first: word(s, 16),
        second: word(s, 24),
    }
}

// The words of `bytes`, from the place `first` on, as far as both reach.
#[tactic(auto, unfolding(crate::specs::Format::loaded_by))]
pub fn load(words: &mut [u64], first: usize, bytes: &[u8])
    ensures { words.new ≡ loaded words.old first bytes.now }
{
    let mut rest: &[u8] = bytes;
    for i in first..words.len() {
        if rest.len() < 8 {
            return;
        }
        words[i] = word(rest, 0);
        rest = &rest[8..];
    }
}
