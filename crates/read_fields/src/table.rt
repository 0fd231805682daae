// What reading each pattern does, in table order.
ghost use Rattle.std.specs.Prelude.{◌≡◌, map};
ghost use Rattle.template_patterns.specs.Patterns.{pattern_of};
ghost use Rattle.template_patterns.specs.Search.{count_from};
ghost use Rattle.read_fields.specs.Tasks.{Assigned, row_of};

use crate::Task;

// The rules for a number. PLAIN keeps it as it is and notes nothing.
pub const PLAIN: usize = 0;

pub const HOUR12: usize = 1;

pub const MILLIS: usize = 2;

pub const MICROS: usize = 3;

pub const FRACTION: usize = 4;

pub const ISO_DAY: usize = 5;

pub const WHOLE_YEAR: usize = 6;

pub const PART_YEAR: usize = 7;

// The rules for a word; by any other the odd entries of its list are 1.
pub const ODD_HOUR12: usize = 1;

pub const MONTH: usize = 2;

pub const WEEKDAY: usize = 3;

pub const ROMAN_MONTH: usize = 4;

// The rules for an offset that differ from OF's: hours alone, and a letter refused.
pub const HOURS: usize = 0;

pub const NO_LETTER: usize = 2;

// The word lists, as a task's operand; any other number is the full names of the months.
pub const MONTHS_ABBREV: u8 = 1;

pub const DAYS_FULL: u8 = 2;

pub const DAYS_ABBREV: u8 = 3;

pub const AM_PM: u8 = 4;

pub const AM_PM_LONG: u8 = 5;

pub const AD_BC: u8 = 6;

pub const AD_BC_LONG: u8 = 7;

pub const ROMAN_MONTHS: u8 = 8;

// A pattern's task and its date mode in one number: the mode, the task's operand, rule, kind and field have 2, 4, 4, 3
// and 5 bits.
const ROWS: &[u32; 112] = &[
    0x0706c, // A.D.
    0x05162, // A.M.
    0x0606c, // AD
    0x04162, // AM
    0x0706c, // B.C.
    0x0606c, // BC
    0x0204f, // CC
    0x02366, // DAY
    0x13048, // DDD
    0x12047, // DD
    0x03366, // DY
    0x02366, // Day
    0x03366, // Dy
    0x11046, // D
    0x01451, // FF1
    0x02451, // FF2
    0x03451, // FF3
    0x04451, // FF4
    0x05451, // FF5
    0x06451, // FF6
    0x00020, // FX
    0x02041, // HH24
    0x02141, // HH12
    0x02141, // HH
    0x23048, // IDDD
    0x21546, // ID
    0x2204d, // IW
    0x2464b, // IYYY
    0x2374b, // IYY
    0x2274b, // IY
    0x2174b, // I
    0x01050, // J
    0x02043, // MI
    0x12049, // MM
    0x10269, // MONTH
    0x11269, // MON
    0x0324a, // MS
    0x10269, // Month
    0x11269, // Mon
    0x021d5, // OF
    0x05162, // P.M.
    0x04162, // PM
    0x01080, // Q
    0x18469, // RM
    0x05045, // SSSSS
    0x04045, // SSSS
    0x02044, // SS
    0x020d5, // TZH
    0x020f6, // TZM
    0x022d5, // TZ
    0x06351, // US
    0x1204d, // WW
    0x1104e, // W
    0x146ab, // Y,YYY
    0x1464b, // YYYY
    0x1374b, // YYY
    0x1274b, // YY
    0x1174b, // Y
    0x0706c, // a.d.
    0x05162, // a.m.
    0x0606c, // ad
    0x04162, // am
    0x0706c, // b.c.
    0x0606c, // bc
    0x0204f, // cc
    0x02366, // day
    0x13048, // ddd
    0x12047, // dd
    0x03366, // dy
    0x11046, // d
    0x01451, // ff1
    0x02451, // ff2
    0x03451, // ff3
    0x04451, // ff4
    0x05451, // ff5
    0x06451, // ff6
    0x00020, // fx
    0x02041, // hh24
    0x02141, // hh12
    0x02141, // hh
    0x23048, // iddd
    0x21546, // id
    0x2204d, // iw
    0x2464b, // iyyy
    0x2374b, // iyy
    0x2274b, // iy
    0x2174b, // i
    0x01050, // j
    0x02043, // mi
    0x12049, // mm
    0x10269, // month
    0x11269, // mon
    0x0324a, // ms
    0x021d5, // of
    0x05162, // p.m.
    0x04162, // pm
    0x01080, // q
    0x18469, // rm
    0x05045, // sssss
    0x04045, // ssss
    0x02044, // ss
    0x020d5, // tzh
    0x020f6, // tzm
    0x022d5, // tz
    0x06351, // us
    0x1204d, // ww
    0x1104e, // w
    0x146ab, // y,yyy
    0x1464b, // yyyy
    0x1374b, // yyy
    0x1274b, // yy
    0x1174b, // y
];

#[tactic(auto, unfolding(crate::specs::Tasks::task_of))]
fn rows() -> &'static [u32; 112]
    ensures { result.now ≡ map row_of (count_from 0 112) }
{
    ROWS
}

// The row of a pattern, 0 past the table.
fn row_of(pattern: u8) -> u32
    ensures { result ≡ row_of pattern }
{
    rows().get(usize::from(pattern)).copied().unwrap_or(0)
}

// The date mode of a pattern.
pub fn mode_at(pattern: u8) -> u8
    ensures { result ≡ (pattern_of pattern).mode }
{
    (row_of(pattern) / 65536) as u8
}

// What reading a pattern does.
pub fn task_at(pattern: u8) -> Task
    ensures { Assigned pattern result }
{
    let x = row_of(pattern);
    Task {
        kind: (x / 32 % 8) as usize,
        field: (x % 32) as usize,
        rule: (x / 256 % 16) as usize,
        operand: (x / 4096 % 16) as u8,
    }
}
