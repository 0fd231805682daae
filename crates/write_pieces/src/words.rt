// Words in the case of their pattern: markers of the half of the day, and names of months.
ghost use Rattle.std.specs.Prelude.{◌≡◌, ◌+◌, ◌≤◌, length};
ghost use Rattle.template_patterns.specs.declared.Case.{Case};
ghost use Rattle.write_pieces.specs.Output.{Put};
ghost use Rattle.write_pieces.specs.Words.{in_case, letter_in, marker_text, month_text};

use template_patterns::Case;

// A letter of a word in a case, the first or another.
fn letter_in(case: Case, first: bool, b: u8) -> u8
    ensures { result ≡ letter_in case first b }
{
    match case {
        Case::Capitals => base_chars::raised(b),
        Case::Small => base_chars::folded(b),
        Case::Title if first => base_chars::raised(b),
        Case::Title => base_chars::folded(b),
    }
}

// A word put into the buffer in a case.
fn put_word(word: &[u8], case: Case, out: &mut [u8], at: usize) -> usize
    requires { at + length word.now ≤ length out.old }
    ensures { Put out.old at (in_case case word.now) out.new result }
{
    for (i, b) in word.iter().enumerate() {
        out[at + i] = letter_in(case, i == 0, *b);
    }
    at + word.len()
}

// A marker put into the buffer.
pub fn put_marker(case: Case, dotted: bool, morning: bool, out: &mut [u8], at: usize) -> usize
    requires { at + length (marker_text case dotted morning) ≤ length out.old }
    ensures { Put out.old at (marker_text case dotted morning) out.new result }
{
    let half = if morning { b'A' } else { b'P' };
    let m = letter_in(case, false, b'M');
    out[at] = letter_in(case, true, half);
    if dotted {
        out[at + 1] = b'.';
        out[at + 2] = m;
        out[at + 3] = b'.';
        return at + 4;
    }
    out[at + 1] = m;
    at + 2
}

// How many letters the full name of each month has; a short name has three.
const LENGTHS: [u8; 12] = [7, 8, 5, 5, 3, 4, 4, 6, 9, 7, 8, 8];

pub fn name_length(full: bool, month: u32) -> usize
    requires { (1 ≤ month) × (month ≤ 12) }
    ensures { ((case : Case) → result ≡ length (month_text case full month)) × (result ≤ 9) }
{
    if full {
        return usize::from(LENGTHS[month as usize - 1]);
    }
    3
}

// The name of a month put into the buffer. A short name is the beginning of the full one.
pub fn put_month(full: bool, month: u32, case: Case, out: &mut [u8], at: usize) -> usize
    requires { (1 ≤ month) × (month ≤ 12) × (at + length (month_text case full month) ≤ length out.old) }
    ensures { Put out.old at (month_text case full month) out.new result }
{
    let names = template_patterns::months_full();
    let start = 9 * (month as usize - 1);
    let end = start + name_length(full, month);
    put_word(&names[start..end], case, out, at)
}
