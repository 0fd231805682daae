// The time of day, its fraction and the offset, from the fields that were read.
#![tactic(auto)]

ghost use Rattle.std.specs.Prelude.{◌≡◌, ◌&&◌};
ghost use Rattle.moment_sums.specs.Within.{below};
ghost use Rattle.moment_time.specs.Time.{◌or◌, hour_of, minute_of, second_of, hour_of_twelve, clock_hour, micros_of, time_in_range, checked_offset};

use base_refusals::Refusal;
use base_wrapping::wrapping_add;
use moment_sums::checked_mul;
use read_fields::{Fields, field};

// A field, or another number where it is absent.
fn field_or(value: i32, other: i32) -> i32
    ensures { result ≡ value or other }
{
    if value == 0 { other } else { value }
}

#[tactic(auto, unfolding(crate::specs::Time::hour_of))]
pub fn hour_of(f: Fields) -> i32
    ensures { result ≡ hour_of f }
{
    field_or(f.values[field::HH], f.values[field::SSSS] / 3600)
}

#[tactic(auto, unfolding(crate::specs::Time::minute_of))]
pub fn minute_of(f: Fields) -> i32
    ensures { result ≡ minute_of f }
{
    field_or(f.values[field::MI], f.values[field::SSSS] % 3600 / 60)
}

#[tactic(auto, unfolding(crate::specs::Time::second_of))]
pub fn second_of(f: Fields) -> i32
    ensures { result ≡ second_of f }
{
    field_or(f.values[field::SS], f.values[field::SSSS] % 3600 % 60)
}

// An hour of the 12-hour clock: 12 AM is 0, 12 PM is 12.
#[tactic(auto, unfolding(crate::specs::Time::hour_of_twelve))]
pub fn hour_of_twelve(pm: i32, hour: i32) -> Result<i32, Refusal>
    ensures { result ≡ hour_of_twelve pm hour }
{
    match hour {
        1..=11 if pm != 0 => Ok(hour + 12),
        12 if pm == 0 => Ok(0),
        1..=12 => Ok(hour),
        _ => Err(Refusal::HourOfTwelve { hour }),
    }
}

#[tactic(auto, unfolding(crate::specs::Time::clock_hour))]
pub fn clock_hour(f: Fields) -> Result<i32, Refusal>
    ensures { result ≡ clock_hour f }
{
    let clock = f.values[field::CLOCK];
    let hour = hour_of(f);
    if clock == 12 {
        return hour_of_twelve(f.values[field::PM], hour);
    }
    Ok(hour)
}

// Milliseconds and microseconds together.
#[tactic(auto, unfolding(crate::specs::Time::micros_of))]
pub fn micros_of(f: Fields) -> Result<i32, Refusal>
    ensures { result ≡ micros_of f }
{
    let us = f.values[field::US];
    let whole = checked_mul(Ok(f.values[field::MS]), 1000)?;
    Ok(wrapping_add(whole, us))
}

// The number lies from 0 to below a limit.
fn below(value: i32, limit: u32) -> bool
    ensures { result ≡ below value limit }
{
    u32::try_from(value).is_ok_and(|n| n < limit)
}

#[tactic(auto, unfolding(crate::specs::Time::time_in_range))]
pub fn time_in_range(hour: i32, minute: i32, second: i32, micros: i32) -> bool
    ensures { result ≡ time_in_range hour minute second micros }
{
    if !below(hour, 24) || !below(minute, 60) {
        return false;
    }
    below(second, 60) && below(micros, 1000000)
}

// The hours and minutes of an offset, without its sign.
fn offset_in_range(hours: i32, minutes: i32) -> bool
    ensures { result ≡ (below hours 16 && below minutes 60) }
{
    below(hours, 16) && below(minutes, 60)
}

// The offset in seconds: hours and minutes joined, then negated if the sign is minus.
pub fn offset_of(f: Fields) -> Result<Option<i32>, Refusal>
    ensures { result ≡ checked_offset f }
{
    let sign = f.values[field::TZSIGN];
    if sign == 0 {
        return Ok(None);
    }
    let hours = f.values[field::TZH];
    let minutes = f.values[field::TZM];
    if !offset_in_range(hours, minutes) {
        return Err(Refusal::OffsetRange);
    }
    let east = (hours * 60 + minutes) * 60;
    Ok(Some(if sign < 0 { -east } else { east }))
}
