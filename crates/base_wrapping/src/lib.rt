// Sums, differences and products of i32 that wrap.
#![tactic(auto)]

ghost use Rattle.std.specs.Prelude.{◌≡◌};
ghost use Rattle.base_wrapping.specs.Wrap.{low32, wrap32, ◌⊕◌, ◌⊖◌, ◌⊗◌};

// The two's complement bits of x.
pub fn bits(x: i32) -> u32
    ensures { result ≡ low32 x }
{
    x.cast_unsigned()
}

// A 64-bit number cut to 32 bits, as Rust's `x as i32`.
#[tactic(auto, using(crate::proofs::Wraps::cut_is))]
pub fn wrapping_cut(x: i64) -> i32
    ensures { result ≡ wrap32 x }
{
    ((x.cast_unsigned() & 0xffff_ffff) as u32).cast_signed()
}

#[tactic(auto, using(crate::proofs::Wraps::add_is))]
pub fn wrapping_add(a: i32, b: i32) -> i32
    ensures { result ≡ a ⊕ b }
{
    a.wrapping_add(b)
}

#[tactic(auto, using(crate::proofs::Wraps::sub_is))]
pub fn wrapping_sub(a: i32, b: i32) -> i32
    ensures { result ≡ a ⊖ b }
{
    a.wrapping_sub(b)
}

#[tactic(auto, using(crate::proofs::Wraps::mul_is))]
pub fn wrapping_mul(a: i32, b: i32) -> i32
    ensures { result ≡ a ⊗ b }
{
    a.wrapping_mul(b)
}
