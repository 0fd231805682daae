// A question: its name, the numbers or the text that it asks about, and its answer.
ghost use Rattle.std.specs.Prelude.{◌≡◌, true, ◌∷◌, ◌≤◌, length};
ghost use Rattle.line_buffers.specs.Decimal.{decimal};
ghost use Rattle.line_buffers.specs.Output.{Put};
ghost use Rattle.template_nodes.specs.Template.{nodes_of};
ghost use Rattle.replay.specs.declared.questions.Values.TheVariants.{One};
ghost use Rattle.replay.specs.Answers.{answer_to, date_values, field_text, fields_text, flag, line_text, mode_of, named_text, node_text, nodes_text, of_mblen, of_numbers, of_one, of_strtol, of_three, of_two, of_utf8, template_text, unknown, values_of, values_text};

use calendar_julian::Date;
use line_answers::Mode;
use line_buffers::{put_byte, put_decimal};
use line_questions::{Numbers, read_bytes, read_numbers, read_place};
use template_nodes::{NODES, Node};

// The most bytes of a text, of a template, and of a line.
const TEXT: usize = 512;

const TEMPLATE: usize = 256;

const LINE: usize = 1024;

// The numbers of an answer.
#[derive(Clone, Copy)]
enum Values {
    One(i64),
    Three(i64, i64, i64),
}

fn one(n: i32) -> Values
    ensures { result ≡ One n }
{
    Values::One(i64::from(n))
}

// Whether something is so: 1 or 0.
fn flag_of(b: bool) -> Values
    ensures { result ≡ One (flag b) }
{
    Values::One(i64::from(b))
}

fn of_date(d: Date) -> Values
    ensures { result ≡ date_values d }
{
    Values::Three(i64::from(d.year), i64::from(d.month), i64::from(d.day))
}

// Questions about a day, by its Julian number, or about a year.
#[tactic(auto, unfolding(crate::specs::Answers::of_one))]
fn of_one(name: &[u8], n: i32) -> Option<Values>
    ensures { result ≡ of_one name.now n }
{
    match name {
        b"j2date" => Some(of_date(calendar_julian::pg_j2date(n))),
        b"j2day" => Some(one(calendar_julian::pg_j2day(n))),
        b"is_leap" => Some(flag_of(calendar_gregorian::pg_is_leap(n))),
        _ => None,
    }
}

// The question about a week of a year.
#[tactic(auto, unfolding(crate::specs::Answers::of_two))]
fn of_two(name: &[u8], year: i32, week: i32) -> Option<Values>
    ensures { result ≡ of_two name.now year week }
{
    match name {
        b"isoweek2j" => Some(one(calendar_julian::pg_isoweek2j(year, week))),
        _ => None,
    }
}

// Questions about a date.
#[tactic(auto, unfolding(crate::specs::Answers::of_three))]
fn of_three(name: &[u8], y: i32, m: i32, d: i32) -> Option<Values>
    ensures { result ≡ of_three name.now y m d }
{
    match name {
        b"date2j" => Some(one(calendar_julian::pg_date2j(y, m, d))),
        b"date2isoweek" => Some(one(calendar_julian::pg_date2isoweek(y, m, d))),
        b"date2isoyear" => Some(one(calendar_julian::pg_date2isoyear(y, m, d))),
        b"days_from_civil" => Some(Values::One(calendar_gregorian::days_from_civil(y, m, d))),
        _ => None,
    }
}

fn of_numbers(name: &[u8], n: Numbers) -> Option<Values>
    ensures { result ≡ of_numbers name.now n }
{
    let v = n.values;
    let count = n.count;
    match count {
        1 => of_one(name, v[0]),
        2 => of_two(name, v[0], v[1]),
        3 => of_three(name, v[0], v[1], v[2]),
        _ => None,
    }
}

// The number at a place of a text, the place after it, and whether it is past 64 bits.
fn of_strtol(line: &[u8], from: usize) -> Option<Values>
    ensures { result ≡ of_strtol line.now from }
{
    let Ok(start) = read_place(line, from) else {
        return None;
    };
    let mut text = [0u8; TEXT];
    let count = read_bytes(line, start.end, &mut text)?;
    let n = base_strtol::c_strtol(&text[0..count], start.at);
    Some(Values::Three(n.value, n.end as i64, i64::from(n.overflow)))
}

// The length of the character at a place of a text.
fn of_mblen(line: &[u8], from: usize) -> Option<Values>
    ensures { result ≡ of_mblen line.now from }
{
    let Ok(place) = read_place(line, from) else {
        return None;
    };
    let mut text = [0u8; TEXT];
    let count = read_bytes(line, place.end, &mut text)?;
    Some(Values::One(base_chars::pg_mblen(&text[0..count], place.at) as i64))
}

// Whether a text is well-formed.
fn of_utf8(line: &[u8], from: usize) -> Option<Values>
    ensures { result ≡ of_utf8 line.now from }
{
    let mut text = [0u8; TEXT];
    let count = read_bytes(line, from, &mut text)?;
    Some(flag_of(base_chars::is_utf8(&text[0..count])))
}

// The numbers that answer a question whose name ends at `end`; none where it is unknown or malformed.
#[tactic(auto, unfolding(crate::specs::Answers::values_of))]
fn values_of(name: &[u8], line: &[u8], end: usize) -> Option<Values>
    ensures { result ≡ values_of name.now line.now end }
{
    match name {
        b"strtol" => of_strtol(line, end),
        b"mblen" => of_mblen(line, end),
        b"utf8" => of_utf8(line, end),
        _ => of_numbers(name, read_numbers(line, end)),
    }
}

// The answer to a question that is unknown or malformed.
pub fn unknown(out: &mut [u8], at: usize) -> usize
    ensures { Put out.old at unknown out.new result }
{
    put_byte(b'?', out, at)
}

// A number after a separator.
fn put_after(separator: u8, value: i64, out: &mut [u8], at: usize) -> usize
    ensures { Put out.old at (separator ∷ decimal value) out.new result }
{
    let next = put_byte(separator, out, at);
    put_decimal(value, out, next)
}

fn put_values(values: Option<Values>, out: &mut [u8], at: usize) -> usize
    ensures { Put out.old at (values_text values) out.new result }
{
    let Some(numbers) = values else {
        return unknown(out, at);
    };
    match numbers {
        Values::One(a) => put_decimal(a, out, at),
        Values::Three(a, b, c) => {
            let first = put_decimal(a, out, at);
            let second = put_after(b' ', b, out, first);
            put_after(b' ', c, out, second)
        }
    }
}

fn put_field(n: u16, out: &mut [u8], at: usize) -> usize
    ensures { Put out.old at (field_text n) out.new result }
{
    put_after(b':', i64::from(n), out, at)
}

fn put_fields(node: Node, out: &mut [u8], at: usize) -> usize
    ensures { Put out.old at (fields_text node) out.new result }
{
    let start = put_field(u16::from(node.start), out, at);
    let len = put_field(node.len, out, start);
    let pattern = put_field(u16::from(node.pattern), out, len);
    put_field(u16::from(node.suffix), out, pattern)
}

// A node, and a space before it unless it is the first.
fn put_node(first: bool, node: Node, out: &mut [u8], at: usize) -> usize
    ensures { Put out.old at (node_text first node) out.new result }
{
    let kind = i64::from(node.kind);
    if first {
        let next = put_decimal(kind, out, at);
        return put_fields(node, out, next);
    }
    let next = put_after(b' ', kind, out, at);
    put_fields(node, out, next)
}

fn put_nodes(t: &[u8], out: &mut [u8], at: usize) -> usize
    requires { length t.now ≤ 256 }
    ensures { Put out.old at (nodes_text true (nodes_of t.now)) out.new result }
{
    let mut nodes = [0u8; NODES];
    let count = template_nodes::parse_format(false, t, &mut nodes);
    let mut next = at;
    for i in 0..count {
        next = put_node(i == 0, template_nodes::node_at(&nodes, i), out, next);
    }
    next
}

// The nodes of a template.
fn put_template(line: &[u8], from: usize, out: &mut [u8], at: usize) -> usize
    ensures { Put out.old at (template_text line.now from) out.new result }
{
    let mut text = [0u8; TEMPLATE];
    let Some(count) = read_bytes(line, from, &mut text) else {
        return unknown(out, at);
    };
    put_nodes(&text[0..count], out, at)
}

// The line program's answer in a mode.
fn put_line(mode: Mode, line: &[u8], from: usize, out: &mut [u8], at: usize) -> usize
    ensures { Put out.old at (line_text mode line.now from) out.new result }
{
    let mut text = [0u8; LINE];
    let Some(count) = read_bytes(line, from, &mut text) else {
        return unknown(out, at);
    };
    line_answers::answer(mode, &text[0..count], out, at)
}

// The mode of a question that asks what the line program answers.
#[tactic(auto, unfolding(crate::specs::Answers::mode_of))]
fn mode_of(name: &[u8]) -> Option<Mode>
    ensures { result ≡ mode_of name.now }
{
    match name {
        b"parts_line" => Some(Mode::Parts),
        b"instant_line" => Some(Mode::Instant),
        b"date_line" => Some(Mode::Date),
        b"write_line" => Some(Mode::Write),
        _ => None,
    }
}

// The answer to a question with a name that ends at `end`.
fn put_named(name: &[u8], line: &[u8], end: usize, out: &mut [u8], at: usize) -> usize
    ensures { Put out.old at (named_text name.now line.now end) out.new result }
{
    if name == b"parse".as_slice() {
        return put_template(line, end, out, at);
    }
    match mode_of(name) {
        Some(mode) => put_line(mode, line, end, out, at),
        None => put_values(values_of(name, line, end), out, at),
    }
}

// Puts the answer to a question, and gives the place after it.
pub fn answer(line: &[u8], out: &mut [u8], at: usize) -> usize
    ensures { Put out.old at (answer_to line.now) out.new result }
{
    let end = line_buffers::find(line, 0, b' ');
    put_named(&line[0..end], line, end, out, at)
}
