// Bytes and characters of a text in UTF-8.
#![tactic(auto)]

ghost use Rattle.std.specs.Prelude.{[], ◌∷◌, ◌≡◌, ◌||◌, ◌+◌, ◌/◌, ◌<◌, ◌≤◌, ◌-◌, length, take, drop, replicate, MatchOption};
ghost use Rattle.std.specs.Int.Count.{count_trailing_zeros};
ghost use Rattle.base_notation.specs.Choice.{when◌then◌else◌};
ghost use Rattle.base_chars.specs.Character.{lead, Measured};
ghost use Rattle.base_chars.specs.Class.{is_space, is_digit, is_letter, is_separator};
ghost use Rattle.base_chars.specs.Fold.{folded as folded_byte, raised as raised_byte};
ghost use Rattle.base_chars.specs.Range.{◌‥◌};
ghost use Rattle.base_chars.specs.Sets.{in_set};
ghost use Rattle.base_chars.specs.Utf8.{begins, sequence, well_formed, high_bits, Passed};

// C's isspace in the C locale. Most bytes are above a space.
#[tactic(auto, using(crate::proofs::Classes::space_test))]
pub fn is_space_c(b: u8) -> bool
    ensures { result ≡ is_space b }
{
    b <= b' ' && matches!(b, 9..=13 | b' ')
}

// An ASCII digit.
#[tactic(auto, using(crate::proofs::Classes::digit_test))]
pub fn is_digit_c(b: u8) -> bool
    ensures { result ≡ is_digit b }
{
    b.is_ascii_digit()
}

// An ASCII letter.
#[tactic(auto, using(crate::proofs::Classes::letter_test))]
pub fn is_alpha_c(b: u8) -> bool
    ensures { result ≡ is_letter b }
{
    b.is_ascii_alphabetic()
}

// A capital letter made small.
pub fn folded(b: u8) -> u8
    ensures { result ≡ folded_byte b }
{
    b.to_ascii_lowercase()
}

// A small letter made a capital.
pub fn raised(b: u8) -> u8
    ensures { result ≡ raised_byte b }
{
    b.to_ascii_uppercase()
}

// Printable ASCII that is no space, letter or digit.
#[tactic(auto, using(crate::proofs::Classes::separator_is))]
pub fn is_separator_char(b: u8) -> bool
    ensures { result ≡ is_separator b }
{
    b.is_ascii_graphic() && !b.is_ascii_alphanumeric()
}

// Whether k is in a set of numbers below 128, which is given by the bits of two 64-bit numbers.
#[tactic(auto, unfolding(crate::specs::Sets::in_set))]
pub fn in_set(low: u64, high: u64, k: u8) -> bool
    ensures { result ≡ in_set low high k }
{
    match k {
        0..=63 => (low >> k) & 1 == 1,
        64..=127 => (high >> (k - 64)) & 1 == 1,
        _ => false,
    }
}

// A space or a separator.
#[tactic(auto, using(crate::proofs::Sets::blanks))]
pub fn is_blank(b: u8) -> bool
    ensures { result ≡ (is_space b || is_separator b) }
{
    in_set(0xfc00ffff00003e00, 0x78000001f8000001, b)
}

// The length of a character by its first byte.
#[tactic(auto, unfolding(crate::specs::Character::lead))]
fn lead_of(b: u8) -> usize
    ensures { result ≡ lead b }
{
    match b {
        0xc0..=0xdf => 2,
        0xe0..=0xef => 3,
        0xf0..=0xf7 => 4,
        _ => 1,
    }
}

// PostgreSQL's pg_utf_mblen of the character at `s[i]`, cut at the end of `s`. Past the end it is 0. Most characters are
// one byte.
pub fn pg_mblen(s: &[u8], i: usize) -> usize
    ensures { Measured s.now i result }
{
    let Some(b) = s.get(i) else { return 0 };
    if *b < 0xc0 {
        return 1;
    }
    lead_of(*b).min(s.len() - i)
}

// Whether there is a byte from `lo` to `hi` at a place.
fn in_range(s: &[u8], at: usize, lo: u8, hi: u8) -> bool
    ensures { result ≡ begins (lo ‥ hi ∷ []) (drop at s.now) }
{
    at < s.len() && lo <= s[at] && s[at] <= hi
}

// The length of a sequence of N bytes whose first is at a place, where the second is from `lo` to `hi` and the others
// are continuations.
fn sequence_of<const N: usize>(s: &[u8], at: usize, lo: u8, hi: u8) -> Option<usize>
    requires { at < length s.now }
    ensures { result
        ≡ (when begins (lo ‥ hi ∷ replicate (N - 2) (0x80 ‥ 0xbf)) (drop (at + 1) s.now) then Some N else None) }
{
    if !in_range(s, at + 1, lo, hi) {
        return None;
    }
    for k in 2..N {
        if !in_range(s, at + k, 0x80, 0xbf) {
            return None;
        }
    }
    Some(N)
}

// The length of the sequence at a place, by the rows of Unicode's table. Those for one byte and two, which most
// characters have, are tested first.
fn sequence_at(s: &[u8], at: usize) -> Option<usize>
    requires { at < length s.now }
    ensures { MatchOption result (sequence (drop at s.now) ≡ 0) (λ n. (0 < n) × (n ≡ sequence (drop at s.now))) }
{
    let first = s[at];
    if first < 0xe0 {
        return match first {
            0x00..=0x7f => Some(1),
            0xc2..=0xdf => sequence_of::<2>(s, at, 0x80, 0xbf),
            _ => None,
        };
    }
    match first {
        0xe0 => sequence_of::<3>(s, at, 0xa0, 0xbf),
        0xe1..=0xec => sequence_of::<3>(s, at, 0x80, 0xbf),
        0xed => sequence_of::<3>(s, at, 0x80, 0x9f),
        0xee..=0xef => sequence_of::<3>(s, at, 0x80, 0xbf),
        0xf0 => sequence_of::<4>(s, at, 0x90, 0xbf),
        0xf1..=0xf3 => sequence_of::<4>(s, at, 0x80, 0xbf),
        0xf4 => sequence_of::<4>(s, at, 0x80, 0x8f),
        _ => None,
    }
}

// The high bits of eight bytes, as one number. The first byte is the lowest.
fn high_bits(bytes: &[u8; 8]) -> u64
    ensures { result ≡ high_bits bytes.now }
{
    u64::from_le_bytes(*bytes) & 0x8080_8080_8080_8080
}

// How many bytes of a number are 0 below the lowest that is not 0: 8 if all are 0.
fn zero_bytes(word: u64) -> usize
    ensures { (result ≡ count_trailing_zeros 64 word / 8) × (result ≤ 8) }
{
    word.trailing_zeros() as usize / 8
}

// The place after the ASCII bytes from `at` on, which are tested one by one.
fn after_bytes(s: &[u8], at: usize) -> usize
    requires { at ≤ length s.now }
    ensures { Passed s.now at result }
{
    for i in at..s.len() {
        if !s[i].is_ascii() {
            return i;
        }
    }
    s.len()
}

// The same where fewer than eight bytes are left. The last eight are tested, without those before `at`.
fn after_last(s: &[u8], at: usize) -> usize
    requires { (at ≤ length s.now) × (length s.now < at + 8) }
    ensures { Passed s.now at result }
{
    let Some(last) = s.last_chunk() else {
        return after_bytes(s, at);
    };
    let left = s.len() - at;
    if left == 0 {
        return at;
    }
    let high = high_bits(last) >> (64 - 8 * left);
    at + zero_bytes(high)
}

// The place after the ASCII bytes from `at` on, which are tested eight at a time. It may lie beyond the end.
fn after_ascii(s: &[u8], at: usize) -> usize
    requires { at ≤ length s.now }
    ensures { Passed s.now at result }
{
    if at < s.len() && !s[at].is_ascii() {
        return at;
    }
    let mut i = at;
    while let Some(bytes) = s[i..].first_chunk() {
        let high = high_bits(bytes);
        if high != 0 {
            return i + zero_bytes(high);
        }
        i += 8;
    }
    after_last(s, i)
}

// Whether `s` is well-formed UTF-8, as a Rust `str` is: no overlong form, no surrogate, nothing above U+10FFFF.
pub fn is_utf8(s: &[u8]) -> bool
    ensures { result ≡ well_formed s.now }
{
    let mut i = 0;
    loop {
        let next = after_ascii(s, i);
        if s.len() <= next {
            return true;
        }
        match sequence_at(s, next) {
            None => return false,
            Some(n) => i = next + n,
        }
    }
}
