// Numbers of the input: of a width, of any width by what follows a pattern, and fields that are set twice.
#![tactic(auto)]

ghost use Rattle.std.specs.Prelude.{◌≡◌, ◌≤◌, length};
ghost use Rattle.read_integers.specs.Number.{checked as checked_from, fixed_at, number_at, Found as Numbered};
ghost use Rattle.read_integers.specs.Setting.{conflicts};
ghost use Rattle.read_integers.specs.Suffix.{ends_number, is_free, Skipped};

use base_refusals::Refusal;
use base_strtol::Strtol;
use template_nodes::Node;

// A number and the place after it.
#[derive(Clone, Copy)]
pub struct Number {
    pub value: i32,
    pub next: usize,
}

// The suffix bits of an ordinal: TH and th.
pub const ORDINAL: u8 = template_patterns::SUFFIX_TH | template_patterns::SUFFIX_TH_SMALL;

// Whether what comes after the pattern `n` of the template `t` is no digit.
#[tactic(auto, unfolding(crate::specs::Suffix::ends_number))]
pub fn is_next_separator(t: &[u8], n: Node, next: Node) -> bool
    ensures { result ≡ ends_number t.now n next }
{
    if n.suffix & ORDINAL != 0 || next.kind == template_nodes::FN_END {
        return true;
    }
    if next.kind == template_nodes::FN_ACTION {
        return !template_patterns::is_digit(next.pattern);
    }
    next.len != 1 || !base_chars::is_digit_c(base_notation::byte_at(t, next.start as usize))
}

// Whether the pattern `n` takes all digits that are there.
pub fn is_free(t: &[u8], n: Node, next: Node) -> bool
    ensures { result ≡ is_free t.now n next }
{
    n.suffix & template_patterns::SUFFIX_FM != 0 || is_next_separator(t, n, next)
}

// A number that strtol read for a field that began at `start`: with its end there, nothing was read.
#[tactic(auto, unfolding(crate::specs::Number::checked))]
fn checked(pattern: u8, start: usize, r: Strtol) -> Result<Number, Refusal>
    ensures { result ≡ checked_from pattern start r }
{
    if r.end == start {
        return Err(Refusal::NotInteger { pattern });
    }
    match i32::try_from(r.value) {
        Ok(value) if !r.overflow => Ok(Number { value, next: r.end }),
        _ => Err(Refusal::OutOfRange { pattern }),
    }
}

// A number of fixed width, after spaces.
fn fixed(s: &[u8], at: usize, width: u8, pattern: u8) -> Result<Number, Refusal>
    requires { at ≤ length s.now }
    ensures { result ≡ fixed_at s.now at width pattern }
{
    let from = base_strtol::past_spaces(s, at);
    let wide = width as usize;
    let left = s.len() - from;
    if left < wide {
        return Err(Refusal::Short {
            pattern,
            width,
            left: left as u8,
        });
    }
    let r = base_strtol::c_strtol(&s[from..from + wide], 0);
    let parsed = r.end;
    if 0 < parsed && parsed < wide {
        return Err(Refusal::Narrow {
            pattern,
            width,
            parsed: parsed as u8,
        });
    }
    let found = Strtol {
        end: from + parsed,
        ..r
    };
    checked(pattern, at, found)
}

// A number of a width, or of any width if it is free, as strtol reads it.
pub fn strtol_number(
    s: &[u8],
    at: usize,
    width: u8,
    pattern: u8,
    free: bool,
) -> Result<Number, Refusal>
    requires { at ≤ length s.now }
    ensures { Numbered s.now at (number_at s.now at width pattern free) result }
{
    if free {
        return checked(pattern, at, base_strtol::c_strtol(s, at));
    }
    fixed(s, at, width, pattern)
}

// The same. Most numbers are digits alone, and few.
pub fn parse_int_len(
    s: &[u8],
    at: usize,
    width: u8,
    pattern: u8,
    free: bool,
) -> Result<Number, Refusal>
    requires { at ≤ length s.now }
    ensures { Numbered s.now at (number_at s.now at width pattern free) result }
{
    if free && let Some(short) = base_strtol::short_number(s, at) {
        return Ok(Number {
            value: short.value as i32,
            next: short.end,
        });
    }
    strtol_number(s, at, width, pattern, free)
}

// Whether a field that holds `old`, 0 if it is absent, cannot be set to `new`.
pub fn from_char_set_int(old: i32, new: i32) -> bool
    ensures { result ≡ conflicts old new }
{
    old != 0 && old != new
}

// Past two characters, if the pattern has an ordinal suffix. `accents` is the mode that measures them.
#[tactic(auto, unfolding(crate::specs::Suffix::past_ordinal, base_accents::specs::Accents::measure_of))]
pub fn skip_th(s: &[u8], at: usize, accents: bool, suffix: u8) -> usize
    ensures { Skipped s.now at accents suffix result }
{
    if suffix & ORDINAL == 0 {
        return at;
    }
    let one = at + base_accents::measure(s, at, accents);
    one + base_accents::measure(s, one, accents)
}
