// Instants and days, counted from 1970, of the parts of a moment.
ghost use Rattle.std.specs.Prelude.{◌≡◌, ◌+◌, ◌-◌, ◌/◌, ◌<◌, ◌≤◌, ◌^◌, pos, nat_abs, ◌+ℤ◌, ◌*ℤ◌};
ghost use Rattle.calendar_gregorian.specs.Civil.{days_from_civil};
ghost use Rattle.moment_instants.specs.Instant.{within, seconds_of, wall_of, less_offset, rounded, away, rounded_to, instant_of, day_of};
ghost use Rattle.moment_instants.specs.Report.{undated_report};
ghost use Rattle.moment_instants.specs.declared.epoch.Undated.TheVariants.{Unread as NoParts};

use base_refusals::Report;
use calendar_gregorian::days_from_civil;
use moment_parts::{Parts, Unread};

// Why there is no instant, or no day.
#[derive(Clone, Copy)]
pub enum Undated {
    Unread(Unread),
    // Outside 64 bits, or at one of their ends.
    InstantRange,
    // Outside 32 bits, or at one of their ends.
    DateRange,
}

impl From<Unread> for Undated {
    ghost from_gives = { λ why r. r ≡ NoParts why };

    fn from(unread: Unread) -> Undated {
        Undated::Unread(unread)
    }
}

// The ends of the 64-bit range mean the infinities. These are next to them.
const FIRST: i64 = -9223372036854775807;

const LAST: i64 = 9223372036854775806;

// The most seconds whose microseconds fit 64 bits.
const MOST_SECONDS: i64 = 9223372036854;

// January 1 of 2000, from which PostgreSQL counts.
const EPOCH_2000: i64 = 946684800000000;

// A sum, unless it is outside 64 bits or at one of their ends.
fn added(a: i64, b: i64) -> Result<i64, Undated>
    ensures { result ≡ within (a +ℤ b) }
{
    match a.checked_add(b) {
        Some(sum) if FIRST <= sum && sum <= LAST => Ok(sum),
        _ => Err(Undated::InstantRange),
    }
}

// The seconds of the day.
fn clock_seconds(hour: i32, minute: i32, second: i32) -> i64
    ensures { result ≡ hour *ℤ pos 3600 +ℤ minute *ℤ pos 60 +ℤ second }
{
    i64::from(hour) * 3600 + i64::from(minute) * 60 + i64::from(second)
}

// The days since 1970.
fn days_of(p: Parts) -> i64
    ensures { result ≡ days_from_civil p.year p.month p.day }
{
    days_from_civil(p.year, p.month, p.day)
}

// The seconds since 1970, by the wall clock.
fn seconds_of(p: Parts) -> i64
    ensures { result ≡ seconds_of p }
{
    let clock = clock_seconds(p.hour, p.minute, p.second);
    days_of(p) * 86400 + clock
}

// The microseconds of the wall clock.
pub fn wall_from_tm(p: Parts) -> Result<i64, Undated>
    ensures { result ≡ wall_of p }
{
    let seconds = seconds_of(p);
    if seconds < -MOST_SECONDS || MOST_SECONDS < seconds {
        return Err(Undated::InstantRange);
    }
    added(seconds * 1000000, i64::from(p.micros))
}

// The offset is subtracted; without one the wall clock is read as UTC.
pub fn less_offset(offset: Option<i32>, wall: i64) -> Result<i64, Undated>
    ensures { result ≡ less_offset offset wall }
{
    match offset {
        None => added(wall, 0),
        Some(seconds) => added(wall, -(i64::from(seconds) * 1000000)),
    }
}

// The microseconds of a unit of the last digit, of one to five digits of a second.
fn scale_of(digits: u32) -> u64
    requires { (1 ≤ digits) × (digits ≤ 5) }
    ensures { result ≡ 10 ^ (6 - digits) }
{
    match digits {
        1 => 100000,
        2 => 10000,
        3 => 1000,
        4 => 100,
        _ => 10,
    }
}

// A magnitude rounded to a multiple of the scale, half upwards.
fn rounded_magnitude(scale: u64, n: u64) -> u64
    requires { (0 < scale) × (n + scale / 2 < 2 ^ 63) }
    ensures { result ≡ rounded scale n }
{
    (n + scale / 2) / scale * scale
}

// A count from 2000 rounded to a multiple, half away from 2000.
fn rounded_count(scale: u64, count: i64) -> i64
    requires { (0 < scale) × (nat_abs count + scale / 2 < 2 ^ 63) }
    ensures { result ≡ away scale count }
{
    let rounded = rounded_magnitude(scale, count.unsigned_abs()) as i64;
    if count < 0 { -rounded } else { rounded }
}

// An instant rounded to one to five digits of a second; any other precision leaves it as it is.
pub fn round_to_precision(t: i64, precision: i32) -> Result<i64, Undated>
    ensures { result ≡ rounded_to precision t }
{
    if precision < 1 || 5 < precision {
        return Ok(t);
    }
    let scale = scale_of(precision as u32);
    if t < FIRST + EPOCH_2000 + (scale / 2) as i64 {
        return Err(Undated::InstantRange);
    }
    added(rounded_count(scale, t - EPOCH_2000), EPOCH_2000)
}

// The instant of a moment's parts: microseconds since 1970-01-01, UTC.
#[tactic(auto, unfolding(crate::specs::Instant::instant_of))]
pub fn instant_of(p: Parts) -> Result<i64, Undated>
    ensures { result ≡ instant_of p }
{
    let wall = wall_from_tm(p)?;
    let t = less_offset(p.offset, wall)?;
    round_to_precision(t, p.precision)
}

// The day of a moment's parts: days since 1970-01-01. The ends of the 32-bit range mean the infinities.
#[tactic(auto, unfolding(crate::specs::Instant::day_of))]
pub fn day_of(p: Parts) -> Result<i32, Undated>
    ensures { result ≡ day_of p }
{
    let days = days_of(p);
    match i32::try_from(days) {
        Ok(day) if i32::MIN < day && day < i32::MAX => Ok(day),
        _ => Err(Undated::DateRange),
    }
}

// By which number a refusal is known, with its pattern and figures.
#[tactic(auto, unfolding(crate::specs::Report::undated_report))]
pub fn report_of(why: Undated) -> Report
    ensures { result ≡ undated_report why }
{
    match why {
        Undated::Unread(why) => moment_parts::report_of(why),
        Undated::InstantRange => base_refusals::alone(17),
        Undated::DateRange => base_refusals::alone(18),
    }
}
