// The year, from the year, the century and AD or BC. Year 0 is 1 BC.
#![tactic(auto)]

ghost use Rattle.std.specs.Prelude.{◌≡◌, pos};
ghost use Rattle.std.specs.Int.Signed.{rem_z};
ghost use Rattle.moment_year.specs.Year.{signed_by, plain_year, year_in_century, first_of_century, year_of};

use base_refusals::Refusal;
use base_wrapping::{wrapping_add, wrapping_mul, wrapping_sub};
use moment_sums::{checked_add, checked_mul};
use read_fields::{Fields, field};

// A number with the other sign, before Christ.
fn signed_by(bc: i32, value: i32) -> i32
    ensures { result ≡ signed_by bc value }
{
    if bc == 0 {
        return value;
    }
    wrapping_sub(0, value)
}

// The last two digits of a year in a century; before Christ the centuries count backwards.
#[tactic(auto, unfolding(crate::specs::Year::year_in_century), using(moment_sums::proofs::Fits::neg_rem_fits))]
pub fn year_in_century(century: i32, year: i32) -> Result<i32, Refusal>
    ensures { result ≡ year_in_century century (rem_z year (pos 100)) }
{
    let y = year % 100;
    if y == 0 {
        if century < 0 {
            return Ok(wrapping_add(wrapping_mul(century, 100), 1));
        }
        return Ok(wrapping_mul(century, 100));
    }
    if century < 0 {
        let hundreds = checked_mul(Ok(wrapping_add(century, 1)), 100);
        return checked_add(checked_add(hundreds, -y), 1);
    }
    checked_add(checked_mul(Ok(wrapping_sub(century, 1)), 100), y)
}

// The first year of a century.
#[tactic(auto, unfolding(crate::specs::Year::first_of_century))]
pub fn first_of_century(century: i32) -> Result<i32, Refusal>
    ensures { result ≡ first_of_century century }
{
    if century < 0 {
        return checked_add(checked_mul(Ok(century), 100), 1);
    }
    checked_add(checked_mul(Ok(wrapping_sub(century, 1)), 100), 1)
}

// A year by itself.
fn plain_year(year: i32) -> i32
    ensures { result ≡ plain_year year }
{
    if year < 0 {
        return year + 1;
    }
    year
}

#[tactic(auto, unfolding(crate::specs::Year::year_of))]
pub fn year_of(f: Fields) -> Result<i32, Refusal>
    ensures { result ≡ year_of f }
{
    let year = f.values[field::YEAR];
    let cc = f.values[field::CC];
    let bc = f.values[field::BC];
    if year == 0 {
        if cc == 0 {
            return Ok(0);
        }
        return first_of_century(signed_by(bc, cc));
    }
    if cc == 0 {
        return Ok(plain_year(signed_by(bc, year)));
    }
    if f.values[field::YYSZ] < 3 {
        return year_in_century(signed_by(bc, cc), year);
    }
    Ok(plain_year(signed_by(bc, year)))
}
