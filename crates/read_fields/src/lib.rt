// What reading each pattern does, as a table of tasks, and the fields that are read.
#![tactic(auto)]

pub mod field;
pub mod state;
pub mod table;

ghost use Rattle.std.specs.Prelude.{◌≡◌};
ghost use Rattle.read_fields.specs.Tasks.{kind_of};

use base_refusals::Refusal;

// What is read so far: a number for each field, 0 where it is absent.
#[derive(Clone, Copy)]
pub struct Fields {
    pub values: [i32; 24],
}

// The place in the input that reading has come to, how many skipped spaces may still pay for literals, and whether FX
// was read: 0 if not. A number and not a bool, so that a copy is of whole registers.
#[derive(Clone, Copy)]
pub struct Place {
    pub at: usize,
    pub extra: usize,
    pub fx: usize,
}

// How a pattern was read into fields that are lent, and the place after it.
#[derive(Clone, Copy)]
pub struct Outcome {
    pub verdict: Result<(), Refusal>,
    pub place: Place,
}

// The verdict, the fields and the place together.
#[derive(Clone, Copy)]
pub struct Reading {
    pub verdict: Result<(), Refusal>,
    pub fields: Fields,
    pub place: Place,
}

// What a pattern reads: nothing, FX, a number, a word, a number that is dropped, a year with a comma, an offset, or the
// minutes of one.
#[derive(Clone, Copy, PartialEq, Eq)]
pub enum Kind {
    Nothing,
    Exact,
    Number,
    Word,
    Dropped,
    CommaYear,
    Offset,
    OffsetMinutes,
}

// A kind by its number. Any other number means that nothing is read.
impl From<usize> for Kind {
    ghost from_gives = { λ k kind. kind ≡ kind_of k };

    fn from(k: usize) -> Kind {
        match k {
            1 => Kind::Exact,
            2 => Kind::Number,
            3 => Kind::Word,
            4 => Kind::Dropped,
            5 => Kind::CommaYear,
            6 => Kind::Offset,
            7 => Kind::OffsetMinutes,
            _ => Kind::Nothing,
        }
    }
}

// The same of a number of 32 bits.
impl From<u32> for Kind {
    ghost from_gives = { λ k kind. kind ≡ kind_of k };

    fn from(k: u32) -> Kind {
        Kind::from(k as usize)
    }
}

// What reading a pattern does. The kind is a number: that of a `Kind`, as `Kind::Word as usize`, or any other. The
// operand is the width of a number, or the number of a word list. Kind, field and rule are whole registers, so that no
// copy packs them into one.
#[derive(Clone, Copy)]
pub struct Task {
    pub kind: usize,
    pub field: usize,
    pub rule: usize,
    pub operand: u8,
}
