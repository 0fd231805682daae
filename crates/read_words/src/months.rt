// Months of the input, in either case. The first three letters tell which month alone can be there, and its letters are
// compared at once. A match with a number in each arm is a table that is there before a call.
ghost use Rattle.std.specs.Prelude.{◌≡◌, ◌-◌, ◌/◌, ◌%◌, ◌^◌, ◌<◌, eqb, length};
ghost use Rattle.base_notation.specs.Choice.{when◌then◌else◌};
ghost use Rattle.read_words.specs.Months.{letters_at, month_list, number_in, row_in, slot_of};
ghost use Rattle.read_words.specs.Spelling.{word_at, Found as Spelled};

use crate::spelling::Word;

// Makes each of eight capital letters small.
const SMALL: u64 = 0x2020202020202020;

// The letters from a place on where fewer than eight bytes may be left.
#[tactic(auto, unfolding(crate::specs::Months::letters_at))]
fn last_letters(s: &[u8], at: usize) -> u64
    requires { at < length s.now }
    ensures { result ≡ letters_at s.now at }
{
    let b = base_notation::byte_at(s, at + 1);
    let c = base_notation::byte_at(s, at + 2);
    let d = base_notation::byte_at(s, at + 3);
    let e = base_notation::byte_at(s, at + 4);
    let f = base_notation::byte_at(s, at + 5);
    let g = base_notation::byte_at(s, at + 6);
    let h = base_notation::byte_at(s, at + 7);
    u64::from_le_bytes([s[at], b, c, d, e, f, g, h]) | SMALL
}

// The eight letters from a place on.
#[tactic(auto, unfolding(crate::specs::Months::letters_at))]
fn letters_at(s: &[u8], at: usize) -> u64
    requires { at < length s.now }
    ensures { result ≡ letters_at s.now at }
{
    if s.len() - at < 8 {
        return last_letters(s, at);
    }
    let eight = [
        s[at],
        s[at + 1],
        s[at + 2],
        s[at + 3],
        s[at + 4],
        s[at + 5],
        s[at + 6],
        s[at + 7],
    ];
    u64::from_le_bytes(eight) | SMALL
}

// One of 16 slots by the first three letters: each month has its own.
fn slot_of(x: u64) -> u64
    ensures { result ≡ slot_of x }
{
    x % 0x1000000 * 101 / 0x10000 % 16
}

// The first eight letters of the month in a slot, as a number. Where a slot is empty, May is tried.
fn number_in(slot: u64) -> u64
    ensures { result ≡ number_in slot }
{
    match slot {
        0 => 0x686372616d, // March
        1 => 0x747375677561, // August
        2 => 0x7972617572626566, // February
        4 => 0x656e756a, // June
        6 => 0x6c69727061, // April
        7 => 0x7265626d65636564, // December
        8 => 0x65626d6574706573, // September
        9 => 0x7265626d65766f6e, // November
        10 => 0x796c756a, // July
        11 => 0x7265626f74636f, // October
        12 => 0x797261756e616a, // January
        _ => 0x79616d, // May
    }
}

// Of that month: the length of its name (bits 0 to 3), its index (4 to 7), and how many bits of 64 the number leaves.
fn row_in(slot: u64) -> u64
    ensures { result ≡ row_in slot }
{
    match slot {
        0 => 0x1825,
        1 => 0x1076,
        2 => 0x18,
        4 => 0x2054,
        6 => 0x1835,
        7 => 0xb8,
        8 => 0x89,
        9 => 0xa8,
        10 => 0x2064,
        11 => 0x897,
        12 => 0x807,
        _ => 0x2843,
    }
}

// Whether two numbers have the same bits below the highest `left` of 64.
fn same_below(left: u64, x: u64, y: u64) -> bool
    requires { left < 64 }
    ensures { result ≡ eqb (x % 2 ^ (64 - left)) (y % 2 ^ (64 - left)) }
{
    x << left == y << left
}

// How many of 64 bits are not compared: of a short name the first three letters are.
fn left_in(row: u64, short: bool) -> u64
    ensures { result ≡ (when short then 40 else row / 2 ^ 8) }
{
    if short { 40 } else { row / 0x100 }
}

// How many letters the name has.
fn length_in(row: u64, short: bool) -> usize
    ensures { result ≡ (when short then 3 else row % 16) }
{
    if short { 3 } else { (row % 16) as usize }
}

// The month at a place, by its short name or by its full one.
pub fn month_at(s: &[u8], at: usize, short: bool) -> Option<Word>
    ensures { Spelled s.now at (word_at (month_list short) s.now at) result }
{
    if s.len() <= at {
        return None;
    }
    let x = letters_at(s, at);
    let slot = slot_of(x);
    let row = row_in(slot);
    if !same_below(left_in(row, short), x, number_in(slot)) {
        return None;
    }
    let len = length_in(row, short);
    // the ninth letter of September
    if len == 9 && base_chars::folded(base_notation::byte_at(s, at + 8)) != b'r' {
        return None;
    }
    let index = (row / 0x10 % 16) as usize;
    Some(Word { index, len })
}
