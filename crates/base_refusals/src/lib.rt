// The refusals, and the numbers by which users know each.
#![tactic(auto)]

ghost use Rattle.std.specs.Prelude.{◌≡◌, pos};
ghost use Rattle.base_refusals.specs.Report.{no_pattern, report, report_of};

// Why a line is refused. A pattern is given by its number in the table of patterns.
#[derive(Clone, Copy)]
pub enum Refusal {
    // The template or the input is over its limit.
    TooLong,
    // The template or the input is not well-formed UTF-8.
    NotUtf8,
    // Patterns of Gregorian dates and of ISO weeks in one template.
    MixedDates { pattern: u8 },
    // The field was set before, to another value.
    Conflict { pattern: u8 },
    // A number of a fixed width, and fewer bytes are left.
    Short { pattern: u8, width: u8, left: u8 },
    // A number of a fixed width, and fewer of its bytes are a number.
    Narrow { pattern: u8, width: u8, parsed: u8 },
    // No number where one is read.
    NotInteger { pattern: u8 },
    // A number outside 32 bits.
    OutOfRange { pattern: u8 },
    // None of the listed words.
    NoWord { pattern: u8 },
    // Y,YYY without both of its numbers.
    NotTwoNumbers { pattern: u8 },
    // Y,YYY with a year outside 32 bits.
    YearOutOfRange { pattern: u8 },
    // A letter where an offset is read.
    ZoneLetter { pattern: u8 },
    // An hour outside 1 to 12 on the 12-hour clock.
    HourOfTwelve { hour: i32 },
    // A day of the year, and no year.
    NoYear,
    // A value outside its field's range.
    FieldOverflow,
    // Offset hours or minutes outside their range.
    OffsetRange,
}

// A refusal as numbers. Without a pattern it has 112; a figure that it does not have is 0.
#[derive(Clone, Copy)]
pub struct Report {
    pub number: u8,
    pub pattern: u8,
    pub first: i64,
    pub second: i64,
}

// No pattern: one more than the last number of the table of patterns.
pub const NO_PATTERN: u8 = 112;

// A number alone.
pub fn alone(number: u8) -> Report
    ensures { result ≡ report number no_pattern (pos 0) (pos 0) }
{
    Report {
        number,
        pattern: NO_PATTERN,
        first: 0,
        second: 0,
    }
}

// A number with a pattern.
pub fn at(pattern: u8, number: u8) -> Report
    ensures { result ≡ report number pattern (pos 0) (pos 0) }
{
    Report {
        pattern,
        ..alone(number)
    }
}

// A number with a pattern and two figures.
fn with_figures(pattern: u8, number: u8, first: u8, second: u8) -> Report
    ensures { result ≡ report number pattern (pos first) (pos second) }
{
    Report {
        first: i64::from(first),
        second: i64::from(second),
        ..at(pattern, number)
    }
}

// What a refusal reports.
impl From<Refusal> for Report {
    ghost from_gives = { λ why r. r ≡ report_of why };

    #[tactic(auto, unfolding(crate::specs::Report::report_of))]
    fn from(why: Refusal) -> Report {
        match why {
            Refusal::TooLong => alone(1),
            Refusal::NotUtf8 => alone(2),
            Refusal::MixedDates { pattern } => at(pattern, 3),
            Refusal::Conflict { pattern } => at(pattern, 4),
            Refusal::Short {
                pattern,
                width,
                left,
            } => with_figures(pattern, 5, width, left),
            Refusal::Narrow {
                pattern,
                width,
                parsed,
            } => with_figures(pattern, 6, width, parsed),
            Refusal::NotInteger { pattern } => at(pattern, 7),
            Refusal::OutOfRange { pattern } => at(pattern, 8),
            Refusal::NoWord { pattern } => at(pattern, 9),
            Refusal::NotTwoNumbers { pattern } => at(pattern, 10),
            Refusal::YearOutOfRange { pattern } => at(pattern, 11),
            Refusal::ZoneLetter { pattern } => at(pattern, 12),
            Refusal::HourOfTwelve { hour } => Report {
                first: i64::from(hour),
                ..alone(13)
            },
            Refusal::NoYear => alone(14),
            Refusal::FieldOverflow => alone(15),
            Refusal::OffsetRange => alone(16),
        }
    }
}

// The same, as a function.
pub fn report_of(why: Refusal) -> Report
    ensures { result ≡ report_of why }
{
    Report::from(why)
}
