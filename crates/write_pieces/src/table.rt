// The piece of each pattern, in table order. A constant that is lent is a table that is there before a call.
ghost use Rattle.std.specs.Prelude.{◌≡◌, map};
ghost use Rattle.write_pieces.specs.Pieces.{found_number};
ghost use Rattle.write_pieces.specs.Tables.{letter_of, piece_table};

use crate::Piece;

const PIECES: &[Option<Piece>; 112] = &[
    None, // A.D.
    Some(Piece::DottedMarker), // A.M.
    None, // AD
    Some(Piece::Marker), // AM
    None, // B.C.
    None, // BC
    None, // CC
    None, // DAY
    Some(Piece::YearDay), // DDD
    Some(Piece::Day), // DD
    None, // DY
    None, // Day
    None, // Dy
    None, // D
    None, // FF1
    None, // FF2
    None, // FF3
    None, // FF4
    None, // FF5
    None, // FF6
    None, // FX
    Some(Piece::Hour24), // HH24
    Some(Piece::Hour12), // HH12
    Some(Piece::Hour12), // HH
    None, // IDDD
    Some(Piece::Weekday), // ID
    Some(Piece::Week), // IW
    Some(Piece::WeekYear), // IYYY
    None, // IYY
    None, // IY
    None, // I
    None, // J
    Some(Piece::Minute), // MI
    Some(Piece::Month), // MM
    Some(Piece::MonthName), // MONTH
    Some(Piece::ShortMonth), // MON
    None, // MS
    Some(Piece::MonthName), // Month
    Some(Piece::ShortMonth), // Mon
    None, // OF
    Some(Piece::DottedMarker), // P.M.
    Some(Piece::Marker), // PM
    None, // Q
    None, // RM
    Some(Piece::DaySecond), // SSSSS
    None, // SSSS
    Some(Piece::Second), // SS
    None, // TZH
    None, // TZM
    None, // TZ
    Some(Piece::Micros), // US
    None, // WW
    None, // W
    None, // Y,YYY
    Some(Piece::Year), // YYYY
    None, // YYY
    None, // YY
    None, // Y
    None, // a.d.
    Some(Piece::DottedMarker), // a.m.
    None, // ad
    Some(Piece::Marker), // am
    None, // b.c.
    None, // bc
    None, // cc
    None, // day
    Some(Piece::YearDay), // ddd
    Some(Piece::Day), // dd
    None, // dy
    None, // d
    None, // ff1
    None, // ff2
    None, // ff3
    None, // ff4
    None, // ff5
    None, // ff6
    None, // fx
    Some(Piece::Hour24), // hh24
    Some(Piece::Hour12), // hh12
    Some(Piece::Hour12), // hh
    None, // iddd
    Some(Piece::Weekday), // id
    Some(Piece::Week), // iw
    Some(Piece::WeekYear), // iyyy
    None, // iyy
    None, // iy
    None, // i
    None, // j
    Some(Piece::Minute), // mi
    Some(Piece::Month), // mm
    Some(Piece::MonthName), // month
    Some(Piece::ShortMonth), // mon
    None, // ms
    None, // of
    Some(Piece::DottedMarker), // p.m.
    Some(Piece::Marker), // pm
    None, // q
    None, // rm
    Some(Piece::DaySecond), // sssss
    None, // ssss
    Some(Piece::Second), // ss
    None, // tzh
    None, // tzm
    None, // tz
    Some(Piece::Micros), // us
    None, // ww
    None, // w
    None, // y,yyy
    Some(Piece::Year), // yyyy
    None, // yyy
    None, // yy
    None, // y
];

#[tactic(auto, unfolding(crate::specs::Tables::piece_table, crate::specs::Pieces::piece_of))]
pub fn pieces() -> &'static [Option<Piece>; 112]
    ensures { map (λ piece. letter_of (found_number piece)) result.now ≡ piece_table }
{
    PIECES
}
