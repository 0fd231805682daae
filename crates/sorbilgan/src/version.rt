// The version of the functions and records. What is built for another version does not link: each version has a
// function of its own name, which the header and the Rust crate ask for.
ghost use Rattle.std.specs.Prelude.{◌≡◌};
ghost use Rattle.sorbilgan.specs.Version.{version};

pub const VERSION: u32 = 4;

pub fn sorbilgan_version() -> u32
    ensures { result ≡ version }
{
    VERSION
}

pub fn sorbilgan_version_4() -> u32
    ensures { result ≡ version }
{
    VERSION
}
