// Numbers as C's strtol reads them.
#![tactic(auto)]

ghost use Rattle.std.specs.Prelude.{◌≡◌, ◌+◌, ◌≤◌, drop};
ghost use Rattle.base_strtol.specs.Runs.{spaces};
ghost use Rattle.base_strtol.specs.Strtol.{is_pair, minus, signs, limit, signed, digits_read, strtol, pair_at, short_at};

// What is read: the number, the place after it, and whether it was outside 64 bits.
#[derive(Clone, Copy)]
pub struct Strtol {
    pub value: i64,
    pub end: usize,
    pub overflow: bool,
}

// The digits at a place: their number, or the limit where it is beyond that, and the place after them.
#[derive(Clone, Copy)]
struct Run {
    value: u64,
    end: usize,
    over: bool,
}

// The place after the spaces at a place.
pub fn past_spaces(s: &[u8], at: usize) -> usize
    ensures { result ≡ at + spaces (drop at s.now) }
{
    for i in at..s.len() {
        if !base_chars::is_space_c(s[i]) {
            return i;
        }
    }
    at.max(s.len())
}

// Whether there is a minus sign at a place.
fn minus_at(s: &[u8], at: usize) -> bool
    ensures { result ≡ minus (drop at s.now) }
{
    matches!(s.get(at), Some(b'-'))
}

// The place after one sign, where there is one.
fn past_sign(s: &[u8], at: usize) -> usize
    ensures { result ≡ at + signs (drop at s.now) }
{
    match s.get(at) {
        Some(b'-' | b'+') => at + 1,
        _ => at,
    }
}

// How far from 0 a signed 64-bit number can be.
fn limit_of(neg: bool) -> u64
    ensures { result ≡ limit neg }
{
    if neg {
        0x8000000000000000
    } else {
        0x7fffffffffffffff
    }
}

// The digits from a place on. Once beyond the limit the number stays there: one digit more is beyond it again.
fn digits_at(s: &[u8], at: usize, neg: bool) -> Run
    ensures { result ≡ digits_read (limit neg) at (drop at s.now) }
{
    let most = limit_of(neg);
    let mut value: u64 = 0;
    let mut over = false;
    for i in at..s.len() {
        let b = s[i];
        if !base_chars::is_digit_c(b) {
            return Run {
                value,
                end: i,
                over,
            };
        }
        let d = u64::from(b - b'0');
        let room = (most - d) / 10;
        if room < value {
            value = most;
            over = true;
        } else {
            value = value * 10 + d;
        }
    }
    Run {
        value,
        end: at.max(s.len()),
        over,
    }
}

// A number of few digits, right at a place, and the place after it.
#[derive(Clone, Copy)]
pub struct Short {
    pub value: u32,
    pub end: usize,
}

// The number of two digits at a place before a byte that is no digit.
#[tactic(auto, unfolding(crate::specs::Strtol::is_pair, crate::specs::Strtol::pair_at))]
pub fn pair_number(s: &[u8], at: usize) -> Option<Short>
    ensures { result ≡ pair_at s.now at }
{
    let [tens, ones, next, ..] = s.get(at..)? else {
        return None;
    };
    if base_chars::is_digit_c(*tens)
        && base_chars::is_digit_c(*ones)
        && !base_chars::is_digit_c(*next)
    {
        return Some(Short {
            value: u32::from(*tens - b'0') * 10 + u32::from(*ones - b'0'),
            end: at + 2,
        });
    }
    None
}

// The greatest number to which one digit more can be written.
const EIGHT_DIGITS: u32 = 99_999_999;

// The number of the digits right at a place, digit by digit.
fn few_digits(s: &[u8], at: usize) -> Option<Short>
    ensures { result ≡ short_at s.now at }
{
    let mut value: u32 = 0;
    for i in at..s.len() {
        let b = s[i];
        if !base_chars::is_digit_c(b) {
            return (at < i).then_some(Short { value, end: i });
        }
        if EIGHT_DIGITS < value {
            return None;
        }
        value = value * 10 + u32::from(b - b'0');
    }
    let end = at.max(s.len());
    (at < end).then_some(Short { value, end })
}

// The number of the digits right at a place, where there are any and it is below 1,000,000,000. Most numbers have two
// digits.
#[tactic(auto, unfolding(crate::specs::Strtol::pair_at))]
pub fn short_number(s: &[u8], at: usize) -> Option<Short>
    ensures { result ≡ short_at s.now at }
{
    pair_number(s, at).or_else(|| few_digits(s, at))
}

// A number with its sign. 2 ^ 63 is no i64, and -2 ^ 63 is one.
fn signed_of(neg: bool, n: u64) -> i64
    requires { n ≤ limit neg }
    ensures { result ≡ signed neg n }
{
    if neg {
        0i64.wrapping_sub_unsigned(n)
    } else {
        n.cast_signed()
    }
}

// C's strtol(s + start, &end, 10): spaces, one sign, digits. With no digits the end is the start.
pub fn c_strtol(s: &[u8], start: usize) -> Strtol
    ensures { result ≡ strtol s.now start }
{
    let at = past_spaces(s, start);
    let neg = minus_at(s, at);
    let first = past_sign(s, at);
    let run = digits_at(s, first, neg);
    if run.end == first {
        return Strtol {
            value: 0,
            end: start,
            overflow: false,
        };
    }
    Strtol {
        value: signed_of(neg, run.value),
        end: run.end,
        overflow: run.over,
    }
}
