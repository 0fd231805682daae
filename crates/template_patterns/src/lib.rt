// The tables of PostgreSQL's formatting.c: date patterns, the prefixes and suffixes of one, and word lists.
#![tactic(auto)]

mod numbers;
mod tables;

ghost use Rattle.std.specs.Prelude.{◌≡◌, ◌<◌, ◌≤◌, ◌+◌, ◌/◌, ◌%◌, ◌^◌, eqb, length, true, false, [], ◌∷◌};
ghost use Rattle.template_patterns.specs.Cases.{case_of};
ghost use Rattle.template_patterns.specs.Numbers.{Key, packed};
ghost use Rattle.template_patterns.specs.Patterns.{pattern_of};
ghost use Rattle.template_patterns.specs.Search.{pattern_at};
ghost use Rattle.template_patterns.specs.Affixes.{bit_at};

pub use tables::{WordList, dch_names, longest, months_full, words};

// The date modes.
pub const MODE_NONE: u8 = 0;

pub const MODE_GREGORIAN: u8 = 1;

pub const MODE_ISOWEEK: u8 = 2;

// The case of a pattern's letters.
#[derive(Clone, Copy)]
pub enum Case {
    Capitals,
    Small,
    // A capital, then small letters.
    Title,
}

// A pattern at a place of a template: its number in the table, and the length of its name.
#[derive(Clone, Copy)]
pub struct Found {
    pub number: usize,
    pub len: usize,
}

// Four bytes as a number, the first the lowest.
fn four(a: u8, b: u8, c: u8, d: u8) -> u32
    ensures { result ≡ packed (a ∷ b ∷ c ∷ d ∷ []) }
{
    u32::from_le_bytes([a, b, c, d])
}

// The five bytes from a place on as a number.
fn five(t: &[u8], at: usize) -> u64
    requires { at + 5 ≤ length t.now }
    ensures { Key t.now at result }
{
    u64::from(four(t[at], t[at + 1], t[at + 2], t[at + 3])) + u64::from(t[at + 4]) * 0x100000000
}

// The same where at most four are left, with zeros for those past the end.
fn last_four(t: &[u8], at: usize) -> u64
    requires { (at < length t.now) × (length t.now < at + 5) }
    ensures { Key t.now at result }
{
    let b = base_notation::byte_at(t, at + 1);
    let c = base_notation::byte_at(t, at + 2);
    let d = base_notation::byte_at(t, at + 3);
    u64::from(t[at]) + u64::from(four(b, c, d, 0)) * 0x100
}

fn key_at(t: &[u8], at: usize) -> u64
    requires { at < length t.now }
    ensures { Key t.now at result }
{
    if 5 <= t.len() - at {
        return five(t, at);
    }
    last_four(t, at)
}

// Whether the bits of a name are the lowest of a key.
fn begins(key: u64, name: u64) -> bool
    requires { name < 2 ^ 46 }
    ensures { result ≡ eqb (key % 2 ^ (name / 2 ^ 40)) (name % 2 ^ (name / 2 ^ 40)) }
{
    let bits = 1u64 << (name >> 40);
    key % bits == name % bits
}

// The first pattern in table order whose name is at a place of the template.
pub fn fmt_index_search(t: &[u8], at: usize) -> Option<Found>
    requires { at < length t.now }
    ensures { result ≡ pattern_at t.now at }
{
    let first = numbers::first_of(t[at])?;
    let key = key_at(t, at);
    let names = numbers::names();
    for k in first..names.len() {
        let name = names[k];
        if name % 256 != key % 256 {
            return None;
        }
        if begins(key, name) {
            let len = (name >> 43) as usize;
            return Some(Found { number: k, len });
        }
    }
    None
}

// The bits of the prefixes and suffixes of a pattern.
pub const SUFFIX_FM: u8 = 1;

pub const SUFFIX_TH: u8 = 2;

pub const SUFFIX_TH_SMALL: u8 = 4;

pub const SUFFIX_SP: u8 = 8;

pub const SUFFIX_TM: u8 = 16;

// The bit of the prefix that two letters are; no bit if they are none.
#[tactic(auto, unfolding(crate::specs::Affixes::bit_at))]
fn prefix_bit(a: u8, b: u8) -> u8
    ensures { result ≡ bit_at true (a ∷ b ∷ []) 0 }
{
    match (a, b) {
        (b'F', b'M') | (b'f', b'm') => SUFFIX_FM,
        (b'T', b'M') | (b't', b'm') => SUFFIX_TM,
        _ => 0,
    }
}

// The bit of the suffix that two letters are; no bit if they are none.
#[tactic(auto, unfolding(crate::specs::Affixes::bit_at))]
fn suffix_bit(a: u8, b: u8) -> u8
    ensures { result ≡ bit_at false (a ∷ b ∷ []) 0 }
{
    match (a, b) {
        (b'T', b'H') => SUFFIX_TH,
        (b't', b'h') => SUFFIX_TH_SMALL,
        (b'S', b'P') => SUFFIX_SP,
        _ => 0,
    }
}

// The bit of the prefix or suffix at a place of the template. The result is a set of bits, empty where none is there.
pub fn fmt_suffix_search(t: &[u8], at: usize, prefix: bool) -> u8
    ensures { result ≡ bit_at prefix t.now at }
{
    let a = base_notation::byte_at(t, at);
    // no affix begins with a lower byte, as most of what is there does
    if a < b'F' {
        return 0;
    }
    let b = base_notation::byte_at(t, at + 1);
    if prefix {
        prefix_bit(a, b)
    } else {
        suffix_bit(a, b)
    }
}

// Whether the pattern of a number is read as digits. A set of patterns has a bit for each number.
#[tactic(auto, using(crate::proofs::Sets::digits))]
pub fn is_digit(k: u8) -> bool
    ensures { result ≡ (pattern_of k).is_digit }
{
    base_chars::in_set(0x03fd7413ffefe340, 0xff5d13ffefed, k)
}

// The case of a pattern by its number.
#[tactic(auto, using(crate::proofs::Sets::smalls, crate::proofs::Sets::titles), unfolding(crate::specs::Cases::case_of))]
pub fn case_of(k: u8) -> Case
    ensures { result ≡ case_of k }
{
    if base_chars::in_set(0xfc00000000000000, 0xffffffffffff, k) {
        return Case::Small;
    }
    if base_chars::in_set(0x6000001800, 0, k) {
        return Case::Title;
    }
    Case::Capitals
}
