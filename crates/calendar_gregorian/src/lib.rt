// The proleptic Gregorian calendar: leap years, month lengths, days of the year, days since 1970-01-01.
#![tactic(auto)]

ghost use Rattle.std.specs.Prelude.{◌≡◌, ◌-◌, min, pos, nat_abs, ◌+ℤ◌};
ghost use Rattle.calendar_gregorian.specs.Gregorian.{is_leap, before_year};
ghost use Rattle.calendar_gregorian.specs.Civil.{length_of, month_of, days_before, day_of_year_ℤ, month_of_day, days_from_civil};

// Month lengths: a row for common years and one for leap years.
const PG_DAY_TAB: [[i32; 12]; 2] = [
    [31, 28, 31, 30, 31, 30, 31, 31, 30, 31, 30, 31],
    [31, 29, 31, 30, 31, 30, 31, 31, 30, 31, 30, 31],
];

// Whether a year is a leap year. The remainder of a negative year is 0 exactly if that of the year without its sign is.
pub fn pg_is_leap(y: i32) -> bool
    ensures { result ≡ is_leap (nat_abs y) }
{
    y % 4 == 0 && (y % 100 != 0 || y % 400 == 0)
}

// How many of the twelve months come before a month.
fn months_before(month: i32) -> usize
    ensures { result ≡ min (month_of month - 1) 12 }
{
    month.clamp(1, 13) as usize - 1
}

// The length of a month of 1 to 12; 0 for any other number.
pub fn month_length(leap: bool, month: i32) -> i32
    ensures { result ≡ pos (length_of leap month) }
{
    match month {
        2 if leap => 29,
        2 => 28,
        4 | 6 | 9 | 11 => 30,
        1..=12 => 31,
        _ => 0,
    }
}

// The days of the year before a month: 0 for a number below 1, the whole year for one above 12.
pub fn days_before(leap: bool, month: i32) -> i32
    ensures { result ≡ pos (days_before leap month) }
{
    let row = &PG_DAY_TAB[usize::from(leap)];
    let mut days = 0;
    for length in &row[..months_before(month)] {
        days += *length;
    }
    days
}

// The day of the year, 64 bits wide so that no day is too large.
pub fn day_of_year(year: i32, month: i32, day: i32) -> i64
    ensures { result ≡ day_of_year_ℤ year month day }
{
    i64::from(days_before(pg_is_leap(year), month)) + i64::from(day)
}

// The month of a day of the year: the first that does not end before the day, and 13 past the year's end.
pub fn month_of_day(leap: bool, day: i32) -> i32
    ensures { result ≡ pos (month_of_day leap day) }
{
    let mut end = 0;
    for (i, length) in PG_DAY_TAB[usize::from(leap)].iter().enumerate() {
        end += *length;
        if day <= end {
            return i as i32 + 1;
        }
    }
    13
}

// The days before a year, counted from the start of the year -2147484000.
// That is whole cycles of 400 years before year 0, and before every year of 32 bits.
fn days_before_year(year: i32) -> u64
    ensures { result ≡ before_year (nat_abs (year +ℤ pos 2147484000)) }
{
    let y = (i64::from(year) + 2147483999) as u64;
    366 + 365 * y + y / 4 - y / 100 + y / 400
}

// The days since 1970-01-01. From the start of -2147484000 to that of 1970 there are 784353144398 days.
// One more is taken off, since a day of the year counts from 1.
pub fn days_from_civil(year: i32, month: i32, day: i32) -> i64
    ensures { result ≡ days_from_civil year month day }
{
    days_before_year(year) as i64 - 784353144399 + day_of_year(year, month, day)
}
