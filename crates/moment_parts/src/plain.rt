// The moment of plain fields, which takes no other steps: a date of year, month and day alone, and a time without a clock
// of twelve, seconds of the day, milliseconds and an offset.
ghost use Rattle.std.specs.Prelude.{◌≡◌};
ghost use Rattle.read_fields.specs.Fields.{fields_of};
ghost use Rattle.moment_parts.specs.Plain.{has_day, has_plain_moment, is_plain, or_first, plain_marks, plain_parts};

use crate::Parts;
use calendar_gregorian::{month_length, pg_is_leap};
use moment_time::time_in_range;
use read_fields::field;
use read_fields::state::get;

// Whether the fields of all other steps are 0.
pub fn is_plain(f: &[i32; 24]) -> bool
    ensures { result ≡ is_plain (fields_of f.now) }
{
    get(f, field::J)
        | get(f, field::WW)
        | get(f, field::W)
        | get(f, field::DDD)
        | get(f, field::CC)
        | get(f, field::BC)
        | get(f, field::CLOCK)
        | get(f, field::SSSS)
        | get(f, field::MS)
        | get(f, field::TZSIGN)
        == 0
}

// A month or a day that is absent is the first.
#[tactic(auto, unfolding(crate::specs::Plain::or_first))]
fn or_first(value: i32) -> i32
    ensures { result ≡ or_first value }
{
    if value == 0 { 1 } else { value }
}

// The marks of a date with a year: which of month and day were read.
#[tactic(auto, unfolding(crate::specs::Plain::plain_marks))]
fn plain_marks(month: i32, day: i32) -> u8
    ensures { result ≡ plain_marks month day }
{
    match (month, day) {
        (0, 0) => 1,
        (0, _) => 5,
        (_, 0) => 3,
        _ => 7,
    }
}

// Whether a month of a year has a day. No other number than 1 to 12 is a month.
#[tactic(auto, unfolding(crate::specs::Plain::has_day))]
fn has_day(year: i32, month: i32, day: i32) -> bool
    ensures { result ≡ has_day year month day }
{
    1 <= day && day <= month_length(pg_is_leap(year), month)
}

// Whether the fields are plain, with a year above 0, and in range.
#[tactic(auto, unfolding(crate::specs::Plain::has_plain_moment))]
pub fn has_plain_moment(f: &[i32; 24]) -> bool
    ensures { result ≡ has_plain_moment (fields_of f.now) }
{
    if !is_plain(f) {
        return false;
    }
    let year = get(f, field::YEAR);
    if year < 1 {
        return false;
    }
    let month = or_first(get(f, field::MM));
    let day = or_first(get(f, field::DD));
    if !has_day(year, month, day) {
        return false;
    }
    let hour = get(f, field::HH);
    let minute = get(f, field::MI);
    let second = get(f, field::SS);
    time_in_range(hour, minute, second, get(f, field::US))
}

// The parts of that moment.
#[tactic(auto, unfolding(crate::specs::Plain::plain_parts))]
pub fn plain_parts(f: &[i32; 24]) -> Parts
    ensures { result ≡ plain_parts (fields_of f.now) }
{
    let mm = get(f, field::MM);
    let dd = get(f, field::DD);
    Parts {
        year: get(f, field::YEAR),
        month: or_first(mm),
        day: or_first(dd),
        hour: get(f, field::HH),
        minute: get(f, field::MI),
        second: get(f, field::SS),
        micros: get(f, field::US),
        precision: get(f, field::FF),
        offset: None,
        marks: plain_marks(mm, dd),
    }
}
