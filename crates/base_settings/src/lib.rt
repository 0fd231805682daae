// What differs from caller to caller: the limits of a template and of an input, the strict switch, the accents mode.
#![tactic(auto)]

ghost use Rattle.std.specs.Prelude.{◌≡◌};
ghost use Rattle.base_settings.specs.Bits.{accents_of, limits_of, settings_of, strict_of};
ghost use Rattle.base_settings.specs.Limits.{input_limit, pages, template_limit};

// The longest template and the longest input, in bytes.
#[derive(Clone, Copy)]
pub struct Limits {
    pub template: usize,
    pub input: usize,
}

#[derive(Clone, Copy)]
pub struct Settings {
    pub limits: Limits,
    // The strict switch: without a year, a day that its month never has is refused.
    pub strict: bool,
    // The accents mode: a letter with its accents counts as one character.
    pub accents: bool,
}

// The limits of the exercise pages, which are the greatest that there are, and those of the flash cards.
pub const PAGE_TEMPLATE: usize = 256;

pub const PAGE_INPUT: usize = 512;

pub const CARD_TEMPLATE: usize = 64;

pub const CARD_INPUT: usize = 96;

// The bits of the accents mode, of the strict switch and of the flash cards, where settings are a number.
pub const ACCENTS: u32 = 1;

pub const STRICT: u32 = 2;

pub const CARDS: u32 = 4;

fn limits_of(bits: u32) -> Limits
    ensures { result ≡ limits_of bits }
{
    if bits & CARDS == 0 {
        return Limits {
            template: PAGE_TEMPLATE,
            input: PAGE_INPUT,
        };
    }
    Limits {
        template: CARD_TEMPLATE,
        input: CARD_INPUT,
    }
}

fn strict_of(bits: u32) -> bool
    ensures { result ≡ strict_of bits }
{
    bits & STRICT != 0
}

fn accents_of(bits: u32) -> bool
    ensures { result ≡ accents_of bits }
{
    bits & ACCENTS != 0
}

// The settings that are a number's bits. Bits that mean nothing are ignored.
impl From<u32> for Settings {
    ghost from_gives = { λ bits set. set ≡ settings_of bits };

    fn from(bits: u32) -> Settings {
        Settings {
            limits: limits_of(bits),
            strict: strict_of(bits),
            accents: accents_of(bits),
        }
    }
}

// The same, as a function.
pub fn settings_of(bits: u32) -> Settings
    ensures { result ≡ settings_of bits }
{
    Settings::from(bits)
}

// The settings of the exercise pages, and of whoever names none.
pub fn pages() -> Settings
    ensures { result ≡ pages }
{
    settings_of(0)
}

// The limit of a template, and that of an input: the caller's own, and never more than the greatest.
#[tactic(auto, unfolding(crate::specs::Limits::template_limit))]
pub fn template_limit(set: Settings) -> usize
    ensures { result ≡ template_limit set }
{
    set.limits.template.min(PAGE_TEMPLATE)
}

#[tactic(auto, unfolding(crate::specs::Limits::input_limit))]
pub fn input_limit(set: Settings) -> usize
    ensures { result ≡ input_limit set }
{
    set.limits.input.min(PAGE_INPUT)
}
