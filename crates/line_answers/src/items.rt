// The items of an answer. Each function puts its part at `at` and gives the place after it.
ghost use Rattle.std.specs.Prelude.{[], ◌∷◌, ◌≤◌, length};
ghost use Rattle.moment_parts.specs.Patterns.{pattern_name};
ghost use Rattle.line_buffers.specs.Decimal.{decimal};
ghost use Rattle.line_buffers.specs.Output.{Put};
ghost use Rattle.line_answers.specs.Items.{item, numbers, report_text};
ghost use Rattle.line_answers.specs.Answers.{accepted, moment_text, offset_text};
ghost use Rattle.line_answers.specs.Lines.{Answered};

use base_refusals::{NO_PATTERN, Report};
use moment_parts::Parts;

fn put_number(value: i64, out: &mut [u8], at: usize) -> usize
    ensures { Put out.old at (item (decimal value)) out.new result }
{
    let next = line_buffers::put_byte(b' ', out, at);
    line_buffers::put_decimal(value, out, next)
}

fn put_int(value: i32, out: &mut [u8], at: usize) -> usize
    ensures { Put out.old at (item (decimal value)) out.new result }
{
    put_number(i64::from(value), out, at)
}

pub fn put_item(text: &[u8], out: &mut [u8], at: usize) -> usize
    ensures { Put out.old at (item text.now) out.new result }
{
    let next = line_buffers::put_byte(b' ', out, at);
    line_buffers::put_bytes(text, out, next)
}

// The number of what is no refusal.
pub fn put_accepted(out: &mut [u8], at: usize) -> usize
    ensures { Put out.old at (accepted []) out.new result }
{
    line_buffers::put_byte(b'0', out, at)
}

// An instant or a day.
pub fn put_value(value: i64, out: &mut [u8], at: usize) -> usize
    ensures { Answered out.old at (accepted (item (decimal value))) out.new result }
{
    let next = put_accepted(out, at);
    put_number(value, out, next)
}

fn put_offset(offset: Option<i32>, out: &mut [u8], at: usize) -> usize
    ensures { (Put out.old at (item (offset_text offset)) out.new result) × (length (offset_text offset) ≤ 20) }
{
    match offset {
        None => put_item(b"none", out, at),
        Some(seconds) => put_int(seconds, out, at),
    }
}

fn put_date(year: i32, month: i32, day: i32, out: &mut [u8], at: usize) -> usize
    ensures { Put out.old at (numbers (year ∷ month ∷ day ∷ [])) out.new result }
{
    let after_year = put_int(year, out, at);
    let after_month = put_int(month, out, after_year);
    put_int(day, out, after_month)
}

fn put_time(hour: i32, minute: i32, second: i32, micros: i32, out: &mut [u8], at: usize) -> usize
    ensures { Put out.old at (numbers (hour ∷ minute ∷ second ∷ micros ∷ [])) out.new result }
{
    let after_hour = put_int(hour, out, at);
    let after_minute = put_int(minute, out, after_hour);
    let after_second = put_int(second, out, after_minute);
    put_int(micros, out, after_second)
}

// The parts of a moment.
pub fn put_moment(p: Parts, out: &mut [u8], at: usize) -> usize
    ensures { Answered out.old at (moment_text p) out.new result }
{
    let number = put_accepted(out, at);
    let date = put_date(p.year, p.month, p.day, out, number);
    let time = put_time(p.hour, p.minute, p.second, p.micros, out, date);
    let precision = put_int(p.precision, out, time);
    let east = p.offset;
    let offset = put_offset(east, out, precision);
    put_number(i64::from(p.marks), out, offset)
}

// A pattern by its name, which fills its row up to a space, or `-` for none.
fn put_pattern(pattern: u8, out: &mut [u8], at: usize) -> usize
    ensures { Put out.old at (item (pattern_name pattern)) out.new result }
{
    if pattern >= NO_PATTERN {
        return put_item(b"-", out, at);
    }
    let names = template_patterns::dch_names();
    let from = 5 * usize::from(pattern);
    let row = &names[from..from + 5];
    let len = line_buffers::find(row, 0, b' ');
    put_item(&row[0..len], out, at)
}

pub fn put_report(r: Report, out: &mut [u8], at: usize) -> usize
    ensures { Answered out.old at (report_text r) out.new result }
{
    let number = line_buffers::put_decimal(i64::from(r.number), out, at);
    let pattern = put_pattern(r.pattern, out, number);
    let first = put_number(r.first, out, pattern);
    put_number(r.second, out, first)
}
