// Goes through every day of the years 1 to 9999, and prints how many there are and a checksum of what the calendar's
// functions say of each, as compare/days.py does by another calendar.
#![tactic(auto)]

ghost use Rattle.std.specs.Prelude.{◌≡◌, ◌*◌, ◌%◌, ◌^◌};
ghost use Rattle.std.specs.Int.{w64};
ghost use Rattle.std.proofs.Common.{of_z};

use calendar_julian::Date;
use std::io;

// The Julian days of 0001-01-01 and 9999-12-31.
const FIRST: u32 = 1721426;

const LAST: u32 = 5373484;

// h times 2^40 + 435, modulo 2^64.
fn times_prime(h: u64) -> u64
    ensures { result ≡ h * 1099511628211 % 2 ^ 64 }
{
    h.wrapping_mul(1099511628211)
}

// The two's complement bits of x.
fn bits(x: i64) -> u64
    ensures { result ≡ of_z w64 x }
{
    x.cast_unsigned()
}

// The checksum h with one number more.
fn take_up(h: u64, x: i64) -> u64 {
    times_prime(h).wrapping_add(bits(x)).wrapping_add(1)
}

fn take_int(h: u64, x: i32) -> u64 {
    take_up(h, i64::from(x))
}

fn take_date(h: u64, d: Date) -> u64 {
    let number = take_int(h, calendar_julian::pg_date2j(d.year, d.month, d.day));
    take_int(take_int(take_int(number, d.year), d.month), d.day)
}

// The ISO year and week of a date, and its weekday, Monday 1.
fn take_week(h: u64, d: Date, weekday: i32) -> u64 {
    let year = take_int(h, calendar_julian::pg_date2isoyear(d.year, d.month, d.day));
    let week = take_int(
        year,
        calendar_julian::pg_date2isoweek(d.year, d.month, d.day),
    );
    take_int(week, if weekday == 0 { 7 } else { weekday })
}

// The day of the year, and the days since 1970-01-01.
fn take_counts(h: u64, d: Date) -> u64 {
    let day = take_up(h, calendar_gregorian::day_of_year(d.year, d.month, d.day));
    take_up(
        day,
        calendar_gregorian::days_from_civil(d.year, d.month, d.day),
    )
}

fn take_day(h: u64, julian_day: i32) -> u64 {
    let date = calendar_julian::pg_j2date(julian_day);
    let weekday = calendar_julian::pg_j2day(julian_day);
    let named = take_int(take_date(h, date), weekday);
    take_counts(take_week(named, date, weekday), date)
}

#[derive(Clone, Copy)]
struct Days {
    count: u64,
    checksum: u64,
}

fn all_days() -> Days {
    let mut count = 0;
    let mut checksum = 0;
    for day in FIRST..=LAST {
        checksum = take_day(checksum, day as i32);
        count += 1;
    }
    Days { count, checksum }
}

fn main(rt: HostRuntime) -> io::Result<()> {
    let Days { count, checksum } = all_days();
    println!(rt; "days {count} checksum {checksum}")
}
