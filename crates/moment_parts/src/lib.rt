// The parts of a moment from the fields that a template read: do_to_timestamp of PostgreSQL's formatting.c.
#![tactic(auto)]

mod plain;

ghost use Rattle.std.specs.Prelude.{◌≡◌, ◌&&◌, ◌≤◌, length};
ghost use Rattle.read_fields.specs.Fields.{fields_of, no_fields};
ghost use Rattle.base_chars.specs.Utf8.{well_formed};
ghost use Rattle.template_nodes.specs.Bytes.{nodes_in};
ghost use Rattle.moment_parts.specs.Parts.{Makes, checked_moment, moment_of, parts_by, parts_of, then_fields};
ghost use Rattle.moment_parts.specs.Report.{unread_report};
ghost use Rattle.moment_parts.specs.declared.Unread.TheVariants.{By};

use base_refusals::{Refusal, Report};
use base_settings::Settings;
use moment_date::{Days, date_in_range, dated_of, no_such_day};
use moment_time::{clock_hour, micros_of, minute_of, offset_of, second_of, time_in_range};
pub use plain::{has_plain_moment, is_plain, plain_parts};
use read_fields::{Fields, field};
use template_nodes::{NODE, NODES};

// The marks say which of year, month and day are set (bits 1, 2 and 4).
#[derive(Clone, Copy)]
pub struct Parts {
    pub year: i32,
    pub month: i32,
    pub day: i32,
    pub hour: i32,
    pub minute: i32,
    pub second: i32,
    pub micros: i32,
    pub precision: i32,
    // Seconds east of UTC.
    pub offset: Option<i32>,
    pub marks: u8,
}

// Why there are no parts.
#[derive(Clone, Copy)]
pub enum Unread {
    By(Refusal),
    // Strict: month and day without a year, and the month never has the day.
    NoSuchDay,
}

impl From<Refusal> for Unread {
    ghost from_gives = { λ why r. r ≡ By why };

    fn from(why: Refusal) -> Unread {
        Unread::By(why)
    }
}

// By which number a refusal is known, with its pattern and figures.
#[tactic(auto, unfolding(crate::specs::Report::unread_report))]
pub fn report_of(why: Unread) -> Report
    ensures { result ≡ unread_report why }
{
    match why {
        Unread::By(refusal) => base_refusals::report_of(refusal),
        Unread::NoSuchDay => base_refusals::alone(25),
    }
}

// The moment of a date, an hour and microseconds. The checks in order: date, under the strict switch the day without a
// year, time, offset.
#[tactic(auto, unfolding(crate::specs::Parts::checked_moment))]
pub fn checked_moment(
    strict: bool,
    f: Fields,
    r: Days,
    hour: i32,
    micros: i32,
) -> Result<Parts, Unread>
    ensures { result ≡ checked_moment strict f r hour micros }
{
    let precision = f.values[field::FF];
    let minute = minute_of(f);
    let second = second_of(f);
    if !date_in_range(r) {
        return Err(Refusal::FieldOverflow.into());
    }
    if no_such_day(strict, r.set, r.month, r.day) {
        return Err(Unread::NoSuchDay);
    }
    if !time_in_range(hour, minute, second, micros) {
        return Err(Refusal::FieldOverflow.into());
    }
    let offset = offset_of(f)?;
    Ok(Parts {
        year: r.year,
        month: r.month,
        day: r.day,
        hour,
        minute,
        second,
        micros,
        precision,
        offset,
        marks: r.set,
    })
}

// The moment that the fields make: the hour, the date and the fraction, each refused in this order.
#[tactic(auto, unfolding(crate::specs::Parts::moment_of))]
pub fn moment_of(strict: bool, f: Fields) -> Result<Parts, Unread>
    ensures { result ≡ moment_of strict f }
{
    let hour = clock_hour(f)?;
    let date = dated_of(f)?;
    let micros = micros_of(f)?;
    checked_moment(strict, f, date, hour, micros)
}

// The answer once the fields are read.
fn answered(strict: bool, verdict: Result<(), Refusal>, f: Fields) -> Result<Parts, Unread>
    ensures { result ≡ then_fields strict verdict f }
{
    verdict?;
    moment_of(strict, f)
}

// What is read of an input that is UTF-8 and within its limit goes into fields that are lent, all absent at first.
fn fields_within(c: &[u8], t: &[u8], s: &[u8], f: &mut [i32; 24]) -> Result<(), Refusal>
    requires { (length s.now ≤ 512) × (fields_of f.old ≡ no_fields) }
    ensures { Makes result (fields_of f.new) (nodes_in c.now) t.now s.now }
{
    let read = read_input::dch_from_char(c, t, s, f);
    read.verdict
}

// The fields of an input by the nodes that any bytes hold. t is the template that they were made from.
#[tactic(auto, unfolding(crate::specs::Parts::parts_by, crate::specs::Parts::parts_read, base_settings::specs::Limits::input_limit))]
pub fn fields_by(
    set: Settings,
    c: &[u8],
    t: &[u8],
    s: &[u8],
    f: &mut [i32; 24],
) -> Result<(), Refusal>
    requires { fields_of f.old ≡ no_fields }
    ensures { then_fields set.strict result (fields_of f.new) ≡ parts_by set (nodes_in c.now) t.now s.now }
{
    let limit = base_settings::input_limit(set);
    if limit < s.len() {
        return Err(Refusal::TooLong);
    }
    if !base_chars::is_utf8(s) {
        return Err(Refusal::NotUtf8);
    }
    fields_within(c, t, s, f)
}

fn are_utf8(t: &[u8], s: &[u8]) -> bool
    ensures { result ≡ (well_formed t.now && well_formed s.now) }
{
    base_chars::is_utf8(t) && base_chars::is_utf8(s)
}

// The fields of an input by a template.
#[tactic(auto, unfolding(crate::specs::Parts::parts_of))]
pub fn fields_of(set: Settings, t: &[u8], s: &[u8], f: &mut [i32; 24]) -> Result<(), Refusal>
    requires { fields_of f.old ≡ no_fields }
    ensures { then_fields set.strict result (fields_of f.new) ≡ parts_of set t.now s.now }
{
    if base_settings::template_limit(set) < t.len() || base_settings::input_limit(set) < s.len() {
        return Err(Refusal::TooLong);
    }
    if !are_utf8(t, s) {
        return Err(Refusal::NotUtf8);
    }
    let mut nodes = [0u8; NODES];
    let end = NODE * template_nodes::parse_format(set.accents, t, &mut nodes);
    fields_within(&nodes[..end], t, s, f)
}

// The parts of an input by the nodes that any bytes hold, and by a template.
pub fn parts_by(set: Settings, c: &[u8], t: &[u8], s: &[u8]) -> Result<Parts, Unread>
    ensures { result ≡ parts_by set (nodes_in c.now) t.now s.now }
{
    let mut values = [0; 24];
    let verdict = fields_by(set, c, t, s, &mut values);
    answered(set.strict, verdict, Fields { values })
}

pub fn to_timestamp_parts(set: Settings, t: &[u8], s: &[u8]) -> Result<Parts, Unread>
    ensures { result ≡ parts_of set t.now s.now }
{
    let mut values = [0; 24];
    let read = fields_of(set, t, s, &mut values);
    answered(set.strict, read, Fields { values })
}
