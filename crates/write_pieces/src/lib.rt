// What is written for a pattern at a moment: a number of fixed width; or a marker of the half of the day or the name of
// a month, in the pattern's case.
#![tactic(auto)]

mod numbers;
mod output;
mod table;
mod words;

ghost use Rattle.std.specs.Prelude.{◌≡◌, true, ℕ, ◌+◌, ◌≤◌, length};
ghost use Rattle.template_patterns.specs.declared.Case.{Case};
ghost use Rattle.write_pieces.specs.Moment.{is_moment, seven_numbers};
ghost use Rattle.write_pieces.specs.Output.{Put};
ghost use Rattle.write_pieces.specs.Pieces.{found_number, piece_number, piece_of, piece_text, prefix_of, width_of};

pub use numbers::{checked, is_moment};
pub use output::put_bytes;
use template_patterns::{Case, SUFFIX_FM};

// A moment: seven numbers.
#[derive(Clone, Copy)]
pub struct Moment {
    pub year: i32,
    pub month: i32,
    pub day: i32,
    pub hour: i32,
    pub minute: i32,
    pub second: i32,
    pub micros: i32,
}

// Seven numbers that are a moment.
#[derive(Clone, Copy)]
pub struct RealMoment {
    pub moment: Moment,
    ghost is_one: { is_moment moment ≡ true },
}

// The moment of seven numbers in their order; whether it is one, `is_moment` says.
pub fn seven_numbers(
    year: i32,
    month: i32,
    day: i32,
    hour: i32,
    minute: i32,
    second: i32,
    micros: i32,
) -> Moment
    ensures { result ≡ seven_numbers year month day hour minute second micros }
{
    Moment {
        year,
        month,
        day,
        hour,
        minute,
        second,
        micros,
    }
}

// What is written for a pattern.
#[derive(Clone, Copy, PartialEq, Eq)]
pub enum Piece {
    Year,
    Month,
    Day,
    YearDay,
    WeekYear,
    Week,
    Weekday,
    Hour24,
    Hour12,
    Minute,
    Second,
    DaySecond,
    Micros,
    Marker,
    DottedMarker,
    MonthName,
    ShortMonth,
}

// The piece of a pattern, by its number in the table; none where the writer does not know the pattern.
#[tactic(auto, using(crate::proofs::PieceTable::piece_in))]
pub fn piece_of(pattern: u8) -> Option<Piece>
    ensures { found_number result ≡ piece_of pattern }
{
    table::pieces().get(usize::from(pattern)).copied().flatten()
}

// A piece by its number in the definitions: any number, or what is found for a pattern, where none is 0.
pub trait PieceNumber {
    ghost piece: { Self → ℕ };

    fn number(self) -> u8
        ensures { result ≡ piece self };
}

impl PieceNumber for u8 {
    ghost piece = { λ n. n };

    fn number(self) -> u8 {
        self
    }
}

impl PieceNumber for Option<Piece> {
    ghost piece = { found_number };

    fn number(self) -> u8 {
        match self {
            None => 0,
            Some(Piece::Year) => 1,
            Some(Piece::Month) => 2,
            Some(Piece::Day) => 3,
            Some(Piece::YearDay) => 4,
            Some(Piece::WeekYear) => 5,
            Some(Piece::Week) => 6,
            Some(Piece::Weekday) => 7,
            Some(Piece::Hour24) => 8,
            Some(Piece::Hour12) => 9,
            Some(Piece::Minute) => 10,
            Some(Piece::Second) => 11,
            Some(Piece::DaySecond) => 12,
            Some(Piece::Micros) => 13,
            Some(Piece::Marker) => 14,
            Some(Piece::DottedMarker) => 15,
            Some(Piece::MonthName) => 16,
            Some(Piece::ShortMonth) => 17,
        }
    }
}

// The prefix that the pattern of a piece needs: FM on the full name of a month, 16, none on any other number.
pub fn prefix_of<P: PieceNumber>(piece: P) -> u8
    ensures { result ≡ prefix_of (P.piece piece) }
{
    match piece.number() {
        16 => SUFFIX_FM,
        _ => 0,
    }
}

// How many bytes a piece has at every moment; 0 for the full name of a month, whose length depends on the moment.
fn width_of(piece: Piece) -> usize
    ensures { result ≡ width_of (piece_number piece) }
{
    match piece {
        Piece::Year => 4,
        Piece::Month => 2,
        Piece::Day => 2,
        Piece::YearDay => 3,
        Piece::WeekYear => 4,
        Piece::Week => 2,
        Piece::Weekday => 1,
        Piece::Hour24 => 2,
        Piece::Hour12 => 2,
        Piece::Minute => 2,
        Piece::Second => 2,
        Piece::DaySecond => 5,
        Piece::Micros => 6,
        Piece::Marker => 2,
        Piece::DottedMarker => 4,
        Piece::MonthName => 0,
        Piece::ShortMonth => 3,
    }
}

// The length of a piece's text at a moment, which is the same in every case; 0 where there is no piece.
pub fn piece_length(piece: Option<Piece>, m: RealMoment) -> usize
    ensures { ((case : Case) → result ≡ length (piece_text (found_number piece) case m.moment)) × (result ≤ 9) }
{
    match piece {
        Some(Piece::MonthName) => words::name_length(true, m.moment.month as u32),
        Some(piece) => width_of(piece),
        None => 0,
    }
}

// The text of a piece put into the buffer; nothing where there is no piece.
pub fn put_piece(
    piece: Option<Piece>,
    case: Case,
    m: RealMoment,
    out: &mut [u8],
    at: usize,
) -> usize
    requires { at + length (piece_text (found_number piece) case m.moment) ≤ length out.old }
    ensures { Put out.old at (piece_text (found_number piece) case m.moment) out.new result }
{
    match piece {
        Some(Piece::Marker) => words::put_marker(case, false, m.moment.hour < 12, out, at),
        Some(Piece::DottedMarker) => words::put_marker(case, true, m.moment.hour < 12, out, at),
        Some(Piece::MonthName) => words::put_month(true, m.moment.month as u32, case, out, at),
        Some(Piece::ShortMonth) => words::put_month(false, m.moment.month as u32, case, out, at),
        Some(piece) => output::put_number(numbers::number_of(piece, m), width_of(piece), out, at),
        None => at,
    }
}
