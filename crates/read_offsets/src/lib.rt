// Patterns that read an offset: TZ, OF, TZH and TZM.
#![tactic(auto)]

ghost use Rattle.std.specs.Prelude.{◌&&◌, ◌≡◌, ◌<◌, ◌≤◌, eqb, length};
ghost use Rattle.base_chars.specs.Class.{is_letter};
ghost use Rattle.read_fields.specs.Fields.{fields_of, read_into};
ghost use Rattle.read_fields.specs.Tasks.{no_letter};
ghost use Rattle.read_offsets.specs.Offsets.{Signed, colon_minutes, is_sign, read_offset, read_offset_minutes, sign_of, stored_offset, with_sign};

use base_refusals::Refusal;
use read_fields::{Outcome, Place, Task, field, state, table};
use read_integers::Number;
use template_nodes::Node;

fn is_sign(b: u8) -> bool
    ensures { result ≡ is_sign b }
{
    matches!(b, b'+' | b'-' | b' ')
}

// The sign of an offset: the one at the place; else a minus one byte back, which was skipped as a separator; else plus.
#[tactic(auto, unfolding(crate::specs::Offsets::sign_of))]
fn sign_of(s: &[u8], p: Place) -> i32
    ensures { result ≡ sign_of s.now p }
{
    let at = p.at;
    let b = base_notation::byte_at(s, at);
    if is_sign(b) {
        return if b == b'-' { -1 } else { 1 };
    }
    if p.extra > 0 && at > 0 && base_notation::byte_at(s, at - 1) == b'-' {
        -1
    } else {
        1
    }
}

fn past_sign(s: &[u8], at: usize) -> usize
    requires { at ≤ length s.now }
    ensures { Signed s.now at result }
{
    if is_sign(base_notation::byte_at(s, at)) {
        at + 1
    } else {
        at
    }
}

// A number of an offset goes into its field, unless that was set to another value.
#[tactic(auto, unfolding(crate::specs::Offsets::stored_offset))]
fn stored_offset(
    n: Node,
    k: usize,
    number: Result<Number, Refusal>,
    f: &mut [i32; 24],
    p: Place,
) -> Outcome
    requires { k < 24 }
    ensures { read_into result f.new ≡ stored_offset n k number (fields_of f.old) p }
{
    match number {
        Err(why) => state::refuse(why, p),
        Ok(Number { value, next }) => {
            if state::holds_other(f, k, value) {
                return state::refuse(Refusal::Conflict { pattern: n.pattern }, p);
            }
            state::put(f, k, value);
            state::read(state::at_place(p, next))
        }
    }
}

// The minutes after a colon, where both are read.
#[tactic(auto, unfolding(crate::specs::Offsets::colon_minutes))]
fn colon_minutes(s: &[u8], n: Node, free: bool, rule: usize, f: &mut [i32; 24], p: Place) -> Outcome
    ensures { read_into result f.new ≡ colon_minutes s.now n free rule (fields_of f.old) p }
{
    if rule == table::HOURS || base_notation::byte_at(s, p.at) != b':' {
        return state::read(p);
    }
    let number = read_integers::strtol_number(s, p.at + 1, 2, n.pattern, free);
    stored_offset(n, field::TZM, number, f, p)
}

// Whether the byte is a letter, which TZ refuses.
fn is_zone_letter(rule: usize, b: u8) -> bool
    ensures { result ≡ (eqb rule no_letter && is_letter b) }
{
    rule == table::NO_LETTER && base_chars::is_alpha_c(b)
}

// A letter is refused before the sign is read.
#[tactic(auto, unfolding(crate::specs::Offsets::read_offset, crate::specs::Offsets::then_minutes))]
pub fn read_offset(
    s: &[u8],
    n: Node,
    free: bool,
    task: Task,
    f: &mut [i32; 24],
    p: Place,
) -> Outcome
    requires { p.at ≤ length s.now }
    ensures { read_into result f.new ≡ read_offset s.now n free task (fields_of f.old) p }
{
    let at = p.at;
    if is_zone_letter(task.rule, base_notation::byte_at(s, at)) {
        return state::refuse(Refusal::ZoneLetter { pattern: n.pattern }, p);
    }
    state::put(f, field::TZSIGN, sign_of(s, p));
    let number = read_integers::strtol_number(s, past_sign(s, at), 2, n.pattern, free);
    let hours = stored_offset(n, field::TZH, number, f, p);
    if hours.verdict.is_err() {
        return hours;
    }
    colon_minutes(s, n, free, task.rule, f, hours.place)
}

// The sign is plus if none was read.
fn with_sign(f: &mut [i32; 24])
    ensures { fields_of f.new ≡ with_sign (fields_of f.old) }
{
    if state::get(f, field::TZSIGN) == 0 {
        state::put(f, field::TZSIGN, 1);
    }
}

// Minutes alone.
pub fn read_offset_minutes(s: &[u8], n: Node, free: bool, f: &mut [i32; 24], p: Place) -> Outcome
    requires { p.at ≤ length s.now }
    ensures { read_into result f.new ≡ read_offset_minutes s.now n free (fields_of f.old) p }
{
    let number = read_integers::strtol_number(s, p.at, 2, n.pattern, free);
    with_sign(f);
    stored_offset(n, field::TZM, number, f, p)
}
