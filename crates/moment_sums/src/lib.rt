// Sums and products that are refused outside 32 bits.
#![tactic(auto)]

ghost use Rattle.std.specs.Prelude.{◌≡◌, pos, ◌+ℤ◌, ◌*ℤ◌};
ghost use Rattle.moment_sums.specs.Checked.{checked, ◌plus◌, ◌times◌};

use base_refusals::Refusal;

fn sum(a: i32, b: i32) -> Result<i32, Refusal>
    ensures { result ≡ checked (a +ℤ b) }
{
    a.checked_add(b).ok_or(Refusal::FieldOverflow)
}

fn product(a: i32, factor: u16) -> Result<i32, Refusal>
    ensures { result ≡ checked (a *ℤ pos factor) }
{
    a.checked_mul(i32::from(factor))
        .ok_or(Refusal::FieldOverflow)
}

// The sum with a number that was not refused.
pub fn checked_add(a: Result<i32, Refusal>, b: i32) -> Result<i32, Refusal>
    ensures { result ≡ a plus b }
{
    sum(a?, b)
}

// The product with a number that was not refused.
pub fn checked_mul(a: Result<i32, Refusal>, factor: u16) -> Result<i32, Refusal>
    ensures { result ≡ a times factor }
{
    product(a?, factor)
}
