// The date, from the year and the fields that were read, and which of year, month and day are set.
ghost use Rattle.std.specs.Prelude.{◌≡◌, ◌&&◌};
ghost use Rattle.calendar_julian.specs.ToDate.{j2date};
ghost use Rattle.moment_date.specs.Dates.{year_mask, whole, begun, with_julian, day_of_week, first_of_week, with_week, with_month_week, with_day, with_month, above_one, from_day_of_year, from_day_of_iso_year, counts_day_of_year, lacks_year, with_day_of_year, dated_of, part_in_range, day_in_month, date_in_range, no_such_day};

use super::Days;
use base_refusals::Refusal;
use base_wrapping::{wrapping_add, wrapping_sub};
use calendar_gregorian::{days_before, month_length, month_of_day, pg_is_leap};
use calendar_julian::{pg_isoweek2j, pg_j2date};
use moment_sums::{checked_add, checked_mul};
use moment_year::year_of;
use read_fields::{Fields, field};
use template_patterns::MODE_ISOWEEK;

// The bits of what is set.
const M_YEAR: u8 = 1;

const M_MONTH: u8 = 2;

const M_DAY: u8 = 4;

const ISO_WEEKS: i32 = MODE_ISOWEEK as i32;

// The year is set where a year or a century was read.
fn year_mask(f: Fields) -> u8
    ensures { result ≡ year_mask f }
{
    if f.values[field::YEAR] != 0 || f.values[field::CC] != 0 {
        return M_YEAR;
    }
    0
}

// At first: the year, January 1, the day of the month and of the year as they were read.
#[tactic(auto, unfolding(crate::specs::Dates::begun))]
pub fn begun(f: Fields, year: i32) -> Days
    ensures { result ≡ begun f year }
{
    let dd = f.values[field::DD];
    let ddd = f.values[field::DDD];
    let set = year_mask(f);
    Days {
        year,
        month: 1,
        day: 1,
        set,
        dd,
        ddd,
    }
}

// A whole date from a Julian day.
fn whole(jd: i32, r: Days) -> Days
    ensures { result ≡ whole (j2date jd) r }
{
    let date = pg_j2date(jd);
    Days {
        year: date.year,
        month: date.month,
        day: date.day,
        set: M_YEAR | M_MONTH | M_DAY,
        ..r
    }
}

#[tactic(auto, unfolding(crate::specs::Dates::with_julian))]
pub fn with_julian(f: Fields, r: Days) -> Days
    ensures { result ≡ with_julian f r }
{
    let j = f.values[field::J];
    if j == 0 {
        return r;
    }
    whole(j, r)
}

// The day of an ISO week: Monday if no weekday was read; Sunday is 1, Monday 2.
fn day_of_week(monday: i32, d: i32) -> i32
    ensures { result ≡ day_of_week monday d }
{
    if d == 0 {
        return monday;
    }
    if d > 1 {
        return wrapping_add(monday, wrapping_sub(d, 2));
    }
    wrapping_add(monday, 6)
}

// The first day of a week, counted from day 1.
#[tactic(auto, unfolding(crate::specs::Dates::first_of_week))]
fn first_of_week(week: i32) -> Result<i32, Refusal>
    ensures { result ≡ first_of_week week }
{
    checked_add(checked_mul(checked_add(Ok(week), -1), 7), 1)
}

// A week of the year: of the ISO year it gives the date, else the day of the year.
#[tactic(auto, unfolding(crate::specs::Dates::with_week))]
pub fn with_week(f: Fields, r: Days) -> Result<Days, Refusal>
    ensures { result ≡ with_week f r }
{
    let week = f.values[field::WW];
    if week == 0 {
        return Ok(r);
    }
    if f.values[field::MODE] == ISO_WEEKS {
        let monday = pg_isoweek2j(r.year, week);
        return Ok(whole(day_of_week(monday, f.values[field::D]), r));
    }
    let ddd = first_of_week(week)?;
    Ok(Days { ddd, ..r })
}

// A week of the month gives the day of the month.
#[tactic(auto, unfolding(crate::specs::Dates::with_month_week))]
pub fn with_month_week(f: Fields, r: Days) -> Result<Days, Refusal>
    ensures { result ≡ with_month_week f r }
{
    let week = f.values[field::W];
    if week == 0 {
        return Ok(r);
    }
    let dd = first_of_week(week)?;
    Ok(Days { dd, ..r })
}

pub fn with_day(r: Days) -> Days
    ensures { result ≡ with_day r }
{
    if r.dd == 0 {
        return r;
    }
    Days {
        day: r.dd,
        set: r.set | M_DAY,
        ..r
    }
}

pub fn with_month(f: Fields, r: Days) -> Days
    ensures { result ≡ with_month f r }
{
    let month = f.values[field::MM];
    if month == 0 {
        return r;
    }
    Days {
        month,
        set: r.set | M_MONTH,
        ..r
    }
}

// A month or day above 1 stays, any other is replaced.
fn above_one(value: i32, other: i32) -> i32
    ensures { result ≡ above_one value other }
{
    if value <= 1 { other } else { value }
}

// Month and day from the day of a Gregorian year.
#[tactic(auto, unfolding(crate::specs::Dates::from_day_of_year))]
pub fn from_day_of_year(r: Days) -> Days
    ensures { result ≡ from_day_of_year r }
{
    let leap = pg_is_leap(r.year);
    let month = month_of_day(leap, r.ddd);
    let day = wrapping_sub(r.ddd, days_before(leap, month));
    Days {
        month: above_one(r.month, month),
        day: above_one(r.day, day),
        set: r.set | (M_MONTH | M_DAY),
        ..r
    }
}

// The date of a day of an ISO year.
fn from_day_of_iso_year(r: Days) -> Days
    ensures { result ≡ from_day_of_iso_year r }
{
    let before = wrapping_sub(pg_isoweek2j(r.year, 1), 1);
    whole(wrapping_add(before, r.ddd), r)
}

// The day of the year counts where month or day is not above 1.
fn counts_day_of_year(r: Days) -> bool
    ensures { result ≡ counts_day_of_year r }
{
    r.ddd != 0 && (r.month <= 1 || r.day <= 1)
}

// It needs a year: one that is not 0, or BC.
fn lacks_year(f: Fields, r: Days) -> bool
    ensures { result ≡ lacks_year f r }
{
    r.year == 0 && f.values[field::BC] == 0
}

#[tactic(auto, unfolding(crate::specs::Dates::with_day_of_year))]
pub fn with_day_of_year(f: Fields, r: Days) -> Result<Days, Refusal>
    ensures { result ≡ with_day_of_year f r }
{
    if !counts_day_of_year(r) {
        return Ok(r);
    }
    if lacks_year(f, r) {
        return Err(Refusal::NoYear);
    }
    if f.values[field::MODE] == ISO_WEEKS {
        return Ok(from_day_of_iso_year(r));
    }
    Ok(from_day_of_year(r))
}

// The date that the fields make, each step refused in this order.
#[tactic(auto, unfolding(crate::specs::Dates::dated_of))]
pub fn dated_of(f: Fields) -> Result<Days, Refusal>
    ensures { result ≡ dated_of f }
{
    let year = year_of(f)?;
    let of_week = with_week(f, with_julian(f, begun(f, year)))?;
    let of_month_week = with_month_week(f, of_week)?;
    with_day_of_year(f, with_month(f, with_day(of_month_week)))
}

// A month or day that is set lies from 1 to its limit.
fn part_in_range(set: u8, bit: u8, value: i32, limit: i32) -> bool
    ensures { result ≡ part_in_range set bit value limit }
{
    set & bit == 0 || (1 <= value && value <= limit)
}

// Where year, month and day are all set the month has the day.
fn day_in_month(r: Days) -> bool
    ensures { result ≡ day_in_month r }
{
    r.set != M_YEAR | M_MONTH | M_DAY || r.day <= month_length(pg_is_leap(r.year), r.month)
}

#[tactic(auto, unfolding(crate::specs::Dates::date_in_range))]
pub fn date_in_range(r: Days) -> bool
    ensures { result ≡ date_in_range r }
{
    part_in_range(r.set, M_MONTH, r.month, 12)
        && part_in_range(r.set, M_DAY, r.day, 31)
        && day_in_month(r)
}

// Under the strict switch: month and day are set, the year is not, and the month never has the day. In a leap year each
// month has its most days.
#[tactic(auto, unfolding(crate::specs::Dates::no_such_day))]
pub fn no_such_day(strict: bool, set: u8, month: i32, day: i32) -> bool
    ensures { result ≡ (strict && no_such_day set month day) }
{
    strict && set == M_MONTH | M_DAY && day > month_length(true, month)
}
