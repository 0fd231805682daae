// Characters of a text in the accents mode: a letter with its accents is one.
#![tactic(auto)]

ghost use Rattle.std.specs.Prelude.{true, ◌≡◌, ◌+◌, ◌<◌, length, drop};
ghost use Rattle.base_chars.specs.Range.{◌‥◌, ◌∈◌};
ghost use Rattle.base_accents.specs.Accents.{Counted, letter_at, mark_at, marks, usual_length};

// The bytes of U+0300 and U+036F, and of those between them at which the first byte changes.
const FIRST_LOW: u8 = 0xcc;

const FIRST_HIGH: u8 = 0xcd;

const SECOND: u8 = 0x80;

const LAST_LOW: u8 = 0xbf;

const LAST_HIGH: u8 = 0xaf;

// Whether there is a mark at a place, one of the characters U+0300 to U+036F. The second byte is asked for only after a
// first byte of a mark, as few are.
#[tactic(auto, unfolding(crate::specs::Accents::mark_at))]
pub fn is_mark(s: &[u8], at: usize) -> bool
    ensures { result ≡ mark_at s.now at }
{
    match s.get(at) {
        Some(&FIRST_LOW) => matches!(base_notation::byte_at(s, at + 1), SECOND..=LAST_LOW),
        Some(&FIRST_HIGH) => matches!(base_notation::byte_at(s, at + 1), SECOND..=LAST_HIGH),
        _ => false,
    }
}

// Whether there is a letter at a place: one of ASCII, or a character outside ASCII that is no mark.
#[tactic(auto, unfolding(crate::specs::Accents::letter_at))]
fn is_letter_at(s: &[u8], at: usize) -> bool
    ensures { result ≡ letter_at s.now at }
{
    let b = base_notation::byte_at(s, at);
    if b.is_ascii() {
        base_chars::is_alpha_c(b)
    } else {
        !is_mark(s, at)
    }
}

// The place after the marks at a place. A mark has two bytes.
#[tactic(auto, using(crate::proofs::Marks::mark_there, crate::proofs::Marks::marks_on, crate::proofs::Marks::marks_stop))]
fn past_marks(s: &[u8], at: usize) -> usize
    ensures { result ≡ at + marks (drop at s.now) }
{
    let mut i = at;
    while is_mark(s, i) {
        i += 2;
    }
    i
}

// The length of the character at a place in the accents mode: a letter has all marks right after it. A call of its own:
// what is left of `measure` is small enough to go into its callers.
#[inline(never)]
#[tactic(auto, using(crate::proofs::Measures::counted), unfolding(crate::specs::Accents::measure_of))]
pub fn whole(s: &[u8], at: usize) -> usize
    ensures { Counted true s.now at result }
{
    let n = base_chars::pg_mblen(s, at);
    if is_letter_at(s, at) {
        return past_marks(s, at + n) - at;
    }
    n
}

// The length of the character at a place in a mode, cut at the end of the text. Past the end it is 0.
#[tactic(auto, using(crate::proofs::Measures::counted), unfolding(crate::specs::Accents::measure_of))]
pub fn measure(s: &[u8], at: usize, accents: bool) -> usize
    ensures { Counted accents s.now at result }
{
    if accents {
        whole(s, at)
    } else {
        base_chars::pg_mblen(s, at)
    }
}

// The same. Most characters are a byte of ASCII before one that begins no mark: one byte in both modes.
#[tactic(auto, using(crate::proofs::Measures::counted, crate::proofs::Measures::ascii_one))]
pub fn measure_usual(s: &[u8], at: usize, accents: bool) -> usize
    ensures { Counted accents s.now at result }
{
    if at < s.len() && s[at].is_ascii() && base_notation::byte_at(s, at + 1) < FIRST_LOW {
        return 1;
    }
    measure(s, at, accents)
}

// The length of a character below U+0300 before a byte below 0xcc, which begins no mark. It is the same in both modes: 1
// for ASCII, and 2 for another. Otherwise it is `None`, and `measure` says.
#[tactic(auto, unfolding(crate::specs::Accents::usual_length))]
pub fn usual_length(s: &[u8], at: usize) -> Option<usize>
    requires { at + 1 < length s.now }
    ensures { result ≡ usual_length s.now at }
{
    match s[at] {
        0x00..=0x7f if s[at + 1] < FIRST_LOW => Some(1),
        0xc0..=0xcb if base_notation::byte_at(s, at + 2) < FIRST_LOW => Some(2),
        _ => None,
    }
}
