// Answers as records of 64-bit numbers. Each function fills the record and returns its first entry: 0, or the number of
// the refusal.
#![tactic(auto)]

ghost use Rattle.std.specs.Prelude.{◌++◌, Ok, pos, replicate};
ghost use Rattle.sorbilgan_records.specs.Records.{Recorded, day_record, instant_record, parts_record, report_entries, value_record};
ghost use Rattle.moment_parts.specs.Parts.{moment_of, then_fields};
ghost use Rattle.read_fields.specs.Fields.{fields_of};

use base_refusals::{NO_PATTERN, Refusal, Report};
use moment_instants::Undated;
use moment_parts::{Parts, Unread};
use read_fields::Fields;

pub fn put_value(r: Report, value: i64, out: &mut [i64; 5]) -> u8
    ensures { Recorded (value_record r value) out.new result }
{
    *out = [
        i64::from(r.number),
        i64::from(r.pattern),
        r.first,
        r.second,
        value,
    ];
    r.number
}

#[tactic(auto, unfolding(crate::specs::Records::instant_record))]
pub fn put_instant(instant: Result<i64, Undated>, out: &mut [i64; 5]) -> u8
    ensures { Recorded (instant_record instant) out.new result }
{
    match instant {
        Ok(micros) => put_value(base_refusals::alone(0), micros, out),
        Err(why) => put_value(moment_instants::report_of(why), 0, out),
    }
}

#[tactic(auto, unfolding(crate::specs::Records::instant_record, crate::specs::Records::day_record))]
pub fn put_day(day: Result<i32, Undated>, out: &mut [i64; 5]) -> u8
    ensures { Recorded (day_record day) out.new result }
{
    put_instant(day.map(i64::from), out)
}

// A moment's parts. Before the marks stand 1 where there is an offset, and its seconds east.
#[tactic(auto, unfolding(crate::specs::Records::parts_record))]
fn put_moment(p: Parts, out: &mut [i64; 15]) -> u8
    ensures { Recorded (parts_record (Ok p)) out.new result }
{
    let (zoned, offset) = match p.offset {
        None => (0, 0),
        Some(seconds) => (1, i64::from(seconds)),
    };
    *out = [
        0,
        i64::from(NO_PATTERN),
        0,
        0,
        i64::from(p.year),
        i64::from(p.month),
        i64::from(p.day),
        i64::from(p.hour),
        i64::from(p.minute),
        i64::from(p.second),
        i64::from(p.micros),
        i64::from(p.precision),
        zoned,
        offset,
        i64::from(p.marks),
    ];
    0
}

// A refusal has no parts.
fn put_refusal(r: Report, out: &mut [i64; 15]) -> u8
    ensures { Recorded (report_entries r ++ replicate 11 (pos 0)) out.new result }
{
    *out = [0; 15];
    out[0] = i64::from(r.number);
    out[1] = i64::from(r.pattern);
    out[2] = r.first;
    out[3] = r.second;
    r.number
}

#[tactic(auto, unfolding(crate::specs::Records::parts_record))]
pub fn put_parts(answer: Result<Parts, Unread>, out: &mut [i64; 15]) -> u8
    ensures { Recorded (parts_record answer) out.new result }
{
    match answer {
        Ok(p) => put_moment(p, out),
        Err(why) => put_refusal(moment_parts::report_of(why), out),
    }
}

// The moment that any fields make. It is a function of its own, so that a call with plain fields saves no registers.
fn put_made(strict: bool, f: &[i32; 24], out: &mut [i64; 15]) -> u8
    ensures { Recorded (parts_record (moment_of strict (fields_of f.now))) out.new result }
{
    put_parts(moment_parts::moment_of(strict, Fields { values: *f }), out)
}

// The moment that fields make. Plain fields need no answer in between. After the store to `out[0]` they are read again,
// which costs less than keeping them all since the test.
fn put_fields(strict: bool, f: &[i32; 24], out: &mut [i64; 15]) -> u8
    ensures { Recorded (parts_record (moment_of strict (fields_of f.now))) out.new result }
{
    if !moment_parts::is_plain(f) {
        return put_made(strict, f, out);
    }
    if moment_parts::has_plain_moment(f) {
        out[0] = 0;
        return put_moment(moment_parts::plain_parts(f), out);
    }
    put_made(strict, f, out)
}

// What a verdict and the fields that were read make.
#[tactic(auto, unfolding(crate::specs::Records::parts_record, moment_parts::specs::Parts::moment_of))]
pub fn put_read(
    strict: bool,
    verdict: Result<(), Refusal>,
    f: &[i32; 24],
    out: &mut [i64; 15],
) -> u8
    ensures { Recorded (parts_record (then_fields strict verdict (fields_of f.now))) out.new result }
{
    match verdict {
        Ok(()) => put_fields(strict, f, out),
        Err(why) => put_refusal(moment_parts::report_of(Unread::By(why)), out),
    }
}
