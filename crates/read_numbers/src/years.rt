// Years with a comma, and years of few digits.
ghost use Rattle.std.specs.Prelude.{◌≡◌, ◌+◌, ◌≤◌, length, take};
ghost use Rattle.read_integers.specs.Number.{Found as Numbered};
ghost use Rattle.base_strtol.specs.Strtol.{strtol};
ghost use Rattle.read_numbers.specs.Year.{comma_year_at, joined as joined_year, near2020, scanned};

use base_refusals::Refusal;
use base_strtol::Strtol;
use read_integers::Number;

// Two numbers with a comma between them, cut to 32 bits, and the place after them.
#[derive(Clone, Copy)]
struct Scanned {
    thousands: i32,
    years: i32,
    next: usize,
}

// A number within three bytes, from a place on.
fn within_three(t: &[u8], from: usize) -> Strtol
    requires { from ≤ length t.now }
    ensures { result ≡ strtol (take (from + 3) t.now) from }
{
    let end = t.len().min(from + 3);
    base_strtol::c_strtol(&t[..end], from)
}

// The two numbers of a year with a comma, as sscanf's "%d,%03d" reads them.
fn scan_yyyy(t: &[u8]) -> Option<Scanned>
    ensures { result ≡ scanned t.now }
{
    let a = base_strtol::c_strtol(t, 0);
    if a.end == 0 || base_notation::byte_at(t, a.end) != b',' {
        return None;
    }
    let from = base_strtol::past_spaces(t, a.end + 1);
    let b = within_three(t, from);
    if b.end == from {
        return None;
    }
    Some(Scanned {
        thousands: base_wrapping::wrapping_cut(a.value),
        years: base_wrapping::wrapping_cut(b.value),
        next: b.end,
    })
}

// Thousands of years and years together.
#[tactic(auto, unfolding(crate::specs::Year::joined))]
fn joined(pattern: u8, thousands: i32, years: i32, next: usize) -> Result<Number, Refusal>
    ensures { result ≡ joined_year pattern thousands years next }
{
    let past_32_bits = Refusal::YearOutOfRange { pattern };
    let whole = thousands.checked_mul(1000).ok_or(past_32_bits)?;
    let value = years.checked_add(whole).ok_or(past_32_bits)?;
    Ok(Number { value, next })
}

// A year with a comma.
pub fn comma_year(s: &[u8], at: usize, pattern: u8) -> Result<Number, Refusal>
    requires { at ≤ length s.now }
    ensures { Numbered s.now at (comma_year_at s.now at pattern) result }
{
    let r = scan_yyyy(&s[at..]).ok_or(Refusal::NotTwoNumbers { pattern })?;
    joined(pattern, r.thousands, r.years, at + r.next)
}

// A year of fewer than four digits, put near 2020.
#[tactic(auto, unfolding(crate::specs::Year::near2020))]
pub fn adjust_partial_year(year: i32) -> i32
    ensures { result ≡ near2020 year }
{
    match year {
        ..70 => year + 2000,
        70..100 => year + 1900,
        100..520 => year + 2000,
        520..1000 => year + 1000,
        _ => year,
    }
}
