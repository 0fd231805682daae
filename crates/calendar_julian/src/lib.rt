// PostgreSQL's Julian days and ISO weeks, in 32-bit arithmetic that wraps.
#![tactic(auto)]

ghost use Rattle.std.specs.Prelude.{◌≡◌, ◌<◌};
ghost use Rattle.calendar_julian.specs.ToDay.{from_march, date2j};
ghost use Rattle.calendar_julian.specs.ToDate.{with_skipped, day_from_march, j2date};
ghost use Rattle.calendar_julian.specs.Week.{j2day, week_one, isoweek2j, counted_from, week_of, week_year, date2isoweek, date2isoyear};

#[derive(Clone, Copy)]
pub struct Date {
    pub year: i32,
    pub month: i32,
    pub day: i32,
}

// The Julian day of a date whose year begins in March and is 4800 years on. March is month 4, February month 15.
fn from_march(year: i32, month: i32, day: i32) -> i32
    ensures { result ≡ from_march year month day }
{
    let century = year / 100;
    let days = year.wrapping_mul(365).wrapping_sub(32167);
    let leap_days = days
        .wrapping_add(year / 4)
        .wrapping_sub(century)
        .wrapping_add(century / 4);
    leap_days
        .wrapping_add(7834i32.wrapping_mul(month) / 256)
        .wrapping_add(day)
}

// The Julian day of a date.
pub fn pg_date2j(year: i32, month: i32, day: i32) -> i32
    ensures { result ≡ date2j year month day }
{
    if month > 2 {
        from_march(year.wrapping_add(4800), month.wrapping_add(1), day)
    } else {
        from_march(year.wrapping_add(4799), month.wrapping_add(13), day)
    }
}

// Days from March 1 of year -4800, as days from January 1 with a leap day in every fourth year:
// the leap days that centuries skip are added.
#[tactic(auto, unfolding(crate::specs::ToDate::with_skipped))]
fn with_skipped(days: u32) -> u32
    ensures { result ≡ with_skipped days }
{
    let quad = days / 146097;
    let extra = days % 146097 * 4 + 3;
    days.wrapping_add(60 + quad * 3 + extra / 146097)
}

// The day of four years as a day from March 1 of its year, plus 123.
#[tactic(auto, unfolding(crate::specs::ToDate::day_from_march))]
fn day_from_march(day: u32) -> u32
    requires { day < 1461 }
    ensures { result ≡ day_from_march day }
{
    if day * 4 / 1461 == 0 {
        (day + 306) % 366 + 123
    } else {
        (day + 305) % 365 + 123
    }
}

// The date of a Julian day.
pub fn pg_j2date(jd: i32) -> Date
    ensures { result ≡ j2date jd }
{
    let days = with_skipped(jd.cast_unsigned().wrapping_add(32044));
    let quad = days / 1461;
    let day_of_four = days % 1461;
    let year = day_of_four * 4 / 1461 + quad * 4;
    let day = day_from_march(day_of_four);
    let month = day * 2141 / 65536;
    Date {
        year: year as i32 - 4800,
        month: ((month + 10) % 12 + 1) as i32,
        day: (day - 7834 * month / 256) as i32,
    }
}

// The weekday of a Julian day, Sunday 0 to Saturday 6.
pub fn pg_j2day(date: i32) -> i32
    ensures { result ≡ j2day date }
{
    date.wrapping_add(1).rem_euclid(7)
}

// The Monday of week 1 of an ISO year.
fn week_one(year: i32) -> i32
    ensures { result ≡ week_one year }
{
    let day4 = pg_date2j(year, 1, 4);
    day4.wrapping_sub(pg_j2day(day4.wrapping_sub(1)))
}

// The Monday of a week of an ISO year.
pub fn pg_isoweek2j(year: i32, week: i32) -> i32
    ensures { result ≡ isoweek2j year week }
{
    week.wrapping_sub(1)
        .wrapping_mul(7)
        .wrapping_add(week_one(year))
}

// The year from whose week 1 a day is counted: the year before, if the day is before week 1.
fn counted_from(day: i32, year: i32) -> i32
    ensures { result ≡ counted_from day year }
{
    if day < week_one(year) {
        year.wrapping_sub(1)
    } else {
        year
    }
}

// The week of a day, counted from week 1 of a year.
fn week_of(day: i32, year: i32) -> i32
    ensures { result ≡ week_of day year }
{
    day.wrapping_sub(week_one(year)) / 7 + 1
}

// The ISO year of a day that is counted from the year `from`: `next`, if the day is past week 51 and not before
// week 1 of `next`.
fn week_year(day: i32, from: i32, next: i32) -> i32
    ensures { result ≡ week_year day from next }
{
    if week_of(day, from) < 52 || day < week_one(next) {
        from
    } else {
        next
    }
}

// The ISO week of a date.
pub fn pg_date2isoweek(year: i32, mon: i32, mday: i32) -> i32
    ensures { result ≡ date2isoweek year mon mday }
{
    let dayn = pg_date2j(year, mon, mday);
    let from = counted_from(dayn, year);
    week_of(dayn, week_year(dayn, from, year.wrapping_add(1)))
}

// The year of the ISO week of a date.
pub fn pg_date2isoyear(year: i32, mon: i32, mday: i32) -> i32
    ensures { result ≡ date2isoyear year mon mday }
{
    let dayn = pg_date2j(year, mon, mday);
    let from = counted_from(dayn, year);
    week_year(dayn, from, from.wrapping_add(1))
}
