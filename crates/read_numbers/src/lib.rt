// Patterns that read a number, and a year with a comma.
#![tactic(auto)]

mod years;

ghost use Rattle.std.specs.Prelude.{List, ◌≡◌, ◌<◌, ◌≤◌, ◌^◌, ℤ, pos, length};
ghost use Rattle.read_integers.specs.Number.{Found as Numbered, Inside};
ghost use Rattle.base_wrapping.specs.Wrap.{◌⊗◌};
ghost use Rattle.read_fields.specs.Fields.{fields_of, read_into};
ghost use Rattle.read_numbers.specs.Numbers.{kept, missing, near_if_short, noted, number_of, read_dropped, read_number, stored_number, sunday_first, with_number};

use base_refusals::Refusal;
use read_fields::{Kind, Outcome, Place, Task, field, state, table};
use read_integers::Number;
use template_nodes::Node;

fn power_of_ten(k: usize) -> i32
    requires { k < 6 }
    ensures { result ≡ pos (10 ^ k) }
{
    match k {
        0 => 1,
        1 => 10,
        2 => 100,
        3 => 1000,
        4 => 10000,
        _ => 100000,
    }
}

// What a number that was read from n bytes is multiplied by, where it is the first digits of a width.
fn missing(width: usize, n: usize) -> i32
    requires { width ≤ 6 }
    ensures { result ≡ missing width n }
{
    if n == 0 {
        1
    } else {
        power_of_ten(width.saturating_sub(n))
    }
}

fn scaled(z: i32, width: usize, n: usize) -> i32
    requires { width ≤ 6 }
    ensures { result ≡ z ⊗ missing width n }
{
    base_wrapping::wrapping_mul(z, missing(width, n))
}

// A year of fewer than four digits is put near 2020.
fn near_if_short(z: i32, n: usize) -> i32
    ensures { result ≡ near_if_short z n }
{
    if n < 4 {
        years::adjust_partial_year(z)
    } else {
        z
    }
}

// An ISO weekday as one that counts from Sunday.
fn sunday_first(z: i32) -> i32
    ensures { result ≡ sunday_first z }
{
    let d = base_wrapping::wrapping_add(z, 1);
    if d > 7 { 1 } else { d }
}

// What a field keeps of a number that was read from n bytes.
#[tactic(auto, unfolding(crate::specs::Numbers::kept))]
fn kept(rule: usize, z: i32, n: usize) -> i32
    ensures { result ≡ kept rule z n }
{
    match rule {
        table::MILLIS => scaled(z, 3, n),
        table::MICROS | table::FRACTION => scaled(z, 6, n),
        table::ISO_DAY => sunday_first(z),
        table::PART_YEAR => near_if_short(z, n),
        _ => z,
    }
}

// What else is set: the clock of 12 hours, the digits of the year or of the fraction.
#[tactic(auto, unfolding(crate::specs::Numbers::noted))]
fn noted(rule: usize, width: u8, f: &mut [i32; 24])
    ensures { fields_of f.new ≡ noted rule width (fields_of f.old) }
{
    match rule {
        table::HOUR12 => state::put(f, field::CLOCK, 12),
        table::WHOLE_YEAR => state::put(f, field::YYSZ, 4),
        table::PART_YEAR => state::put(f, field::YYSZ, i32::from(width)),
        table::FRACTION => state::put(f, field::FF, i32::from(width)),
        _ => {}
    }
}

// A number that was read from n bytes goes into its field.
pub fn put_number(task: Task, z: i32, n: usize, f: &mut [i32; 24])
    requires { task.field < 24 }
    ensures { fields_of f.new ≡ with_number task z n (fields_of f.old) }
{
    state::put(f, task.field, kept(task.rule, z, n));
    noted(task.rule, task.operand, f);
}

// A number goes into its field, unless that was set to another value; an ordinal suffix is skipped.
#[tactic(auto, unfolding(crate::specs::Numbers::stored_number))]
fn stored_number(
    s: &[u8],
    n: Node,
    task: Task,
    number: Result<Number, Refusal>,
    f: &mut [i32; 24],
    p: Place,
) -> Outcome
    requires { (task.field < 24) × Inside s.now p.at number }
    ensures { read_into result f.new ≡ stored_number s.now n task number (fields_of f.old) p }
{
    match number {
        Err(why) => state::refuse(why, p),
        Ok(Number { value, next }) => {
            if state::holds_other(f, task.field, value) {
                return state::refuse(Refusal::Conflict { pattern: n.pattern }, p);
            }
            put_number(task, value, next - p.at, f);
            state::read(state::at_place(p, read_integers::skip_th(s, next, n.accents, n.suffix)))
        }
    }
}

// The number at a place: with a comma, or of a width.
fn number_at(s: &[u8], n: Node, free: bool, task: Task, at: usize) -> Result<Number, Refusal>
    requires { at ≤ length s.now }
    ensures { Numbered s.now at (number_of s.now n free task at) result }
{
    if Kind::from(task.kind) == Kind::CommaYear {
        return years::comma_year(s, at, n.pattern);
    }
    read_integers::parse_int_len(s, at, task.operand, n.pattern, free)
}

pub fn read_number(
    s: &[u8],
    n: Node,
    free: bool,
    task: Task,
    f: &mut [i32; 24],
    p: Place,
) -> Outcome
    requires { (task.field < 24) × (p.at ≤ length s.now) }
    ensures { read_into result f.new ≡ read_number s.now n free task (fields_of f.old) p }
{
    let number = number_at(s, n, free, task, p.at);
    stored_number(s, n, task, number, f, p)
}

// A number that is read and dropped: the fields stay, whatever they hold.
#[tactic(auto, unfolding(read_integers::specs::Number::number_at, crate::specs::Numbers::dropped_number))]
pub fn read_dropped(s: &[u8], n: Node, free: bool, task: Task, p: Place) -> Outcome
    requires { p.at ≤ length s.now }
    ensures { (values : List ℤ) → read_into result values ≡ read_dropped s.now n free task (fields_of values) p }
{
    match read_integers::parse_int_len(s, p.at, task.operand, n.pattern, free) {
        Err(why) => state::refuse(why, p),
        Ok(number) => {
            let next = read_integers::skip_th(s, number.next, n.accents, n.suffix);
            state::read(state::at_place(p, next))
        }
    }
}
