// The numbers of a moment.
ghost use Rattle.std.specs.Prelude.{◌≡◌, false, MatchOption};
ghost use Rattle.write_pieces.specs.Moment.{is_moment, within};
ghost use Rattle.write_pieces.specs.Pieces.{number_of, piece_number};

use crate::{Moment, Piece, RealMoment};

// Whether a number is from low to high.
fn in_range(low: i32, high: i32, x: i32) -> bool
    ensures { result ≡ within low high x }
{
    (low..=high).contains(&x)
}

// Whether seven numbers are a moment.
#[tactic(auto, unfolding(crate::specs::Moment::is_moment))]
pub fn is_moment(m: Moment) -> bool
    ensures { result ≡ is_moment m }
{
    let days = calendar_gregorian::month_length(calendar_gregorian::pg_is_leap(m.year), m.month);
    in_range(1, 9999, m.year)
        && in_range(1, days, m.day)
        && in_range(0, 23, m.hour)
        && in_range(0, 59, m.minute)
        && in_range(0, 59, m.second)
        && in_range(0, 999999, m.micros)
}

// Seven numbers as a moment, if they are one.
pub fn checked(m: Moment) -> Option<RealMoment>
    ensures { MatchOption result (is_moment m ≡ false) (λ known. known.moment ≡ m) }
{
    if is_moment(m) {
        return Some(RealMoment { moment: m });
    }
    None
}

// The number of a piece that is one: no marker, and no name of a month.
pub fn number_of(piece: Piece, m: RealMoment) -> u32
    ensures { result ≡ number_of (piece_number piece) m.moment }
{
    let m = m.moment;
    match piece {
        Piece::Year => m.year as u32,
        Piece::Month => m.month as u32,
        Piece::Day => m.day as u32,
        Piece::YearDay => calendar_gregorian::day_of_year(m.year, m.month, m.day) as u32,
        Piece::WeekYear => calendar_julian::pg_date2isoyear(m.year, m.month, m.day) as u32,
        Piece::Week => calendar_julian::pg_date2isoweek(m.year, m.month, m.day) as u32,
        Piece::Weekday => calendar_julian::pg_date2j(m.year, m.month, m.day) as u32 % 7 + 1,
        Piece::Hour24 => m.hour as u32,
        Piece::Hour12 => (m.hour as u32 + 11) % 12 + 1,
        Piece::Minute => m.minute as u32,
        Piece::Second => m.second as u32,
        Piece::DaySecond => m.hour as u32 * 3600 + m.minute as u32 * 60 + m.second as u32,
        _ => m.micros as u32,
    }
}
