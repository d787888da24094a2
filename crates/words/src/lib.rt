// Words of a line of text: where one ends, whether it is a given word, and the number that it is in decimal.
#![tactic(auto)]

ghost use Rattle.std.specs.Prelude.{◌≡◌, ◌≤◌, ◌==◌, length, drop, position};
ghost use Rattle.words.specs.Words.{up_to, past, same as same_of};
ghost use Rattle.words.specs.Numbers.{number_of, short_of};

// Where the first `stop` is, if there is one.
pub fn first(text: &[u8], stop: u8) -> Option<usize>
    ensures { result ≡ position (λ b. b == stop) text.now }
{
    text.iter().position(|b| *b == stop)
}

// How many bytes stand before the first `stop`; all where there is none.
#[tactic(auto, using(crate::proofs::Walks::up_to_found))]
pub fn find(text: &[u8], stop: u8) -> usize
    ensures { result ≡ length (up_to stop text.now) }
{
    first(text, stop).unwrap_or(text.len())
}

// Where what follows the first `stop` starts; the end where there is none.
#[tactic(auto, using(crate::proofs::Walks::past_at, crate::proofs::Walks::up_to_length))]
pub fn find_past(text: &[u8], stop: u8) -> usize
    ensures within { result ≤ length text.now }
    ensures rest { drop result text.now ≡ past stop text.now }
{
    (find(text, stop) + 1).min(text.len())
}

// Whether a word is this one.
#[tactic(auto, using(crate::proofs::Walks::same_is))]
pub fn same(word: &[u8], other: &[u8]) -> bool
    ensures { result ≡ same_of word.now other.now }
{
    word == other
}

// The number that a word is, if it is one and at most `most`.
#[tactic(auto, using(crate::proofs::Digits::number_start, crate::proofs::Digits::number_none, crate::proofs::Digits::number_large, crate::proofs::Digits::number_turn, crate::proofs::Digits::number_not, crate::proofs::Digits::number_end))]
pub fn read_number(word: &[u8], most: u32) -> Option<u32>
    ensures { result ≡ number_of most word.now }
{
    if word.is_empty() {
        return None;
    }
    let mut n: u64 = 0;
    for b in word {
        if !b.is_ascii_digit() {
            return None;
        }
        n = n * 10 + u64::from(*b - b'0');
        if u64::from(most) < n {
            return None;
        }
    }
    u32::try_from(n).ok()
}

// The same for a number of 16 bits.
#[tactic(auto, using(crate::proofs::Digits::number_most))]
pub fn read_short(word: &[u8]) -> Option<u16>
    ensures { result ≡ short_of word.now }
{
    u16::try_from(read_number(word, 65535)?).ok()
}

// The number that the first word is, up to `stop`.
#[tactic(auto, using(crate::proofs::Walks::up_to_is, crate::proofs::Walks::up_to_length))]
pub fn read_first(text: &[u8], stop: u8) -> Option<u16>
    ensures { result ≡ short_of (up_to stop text.now) }
{
    read_short(&text[..find(text, stop)])
}
