// What a pattern reads.
ghost use Rattle.std.specs.Prelude.{not, ◌≡◌, ◌<◌, ◌≤◌, length};
ghost use Rattle.read_literals.specs.Literals.{Payable, entered_by};
ghost use Rattle.read_input.specs.Reader.{Went, action_read, mixes, performed, with_mode};
ghost use Rattle.read_fields.specs.Fields.{fields_of, read_into};
ghost use Rattle.read_fields.specs.Tasks.{Assigned, exact, kind_of, same_kind, task_of};

use base_refusals::Refusal;
use read_fields::{Kind, Outcome, Place, Task, field, state, table};
use template_nodes::Node;

// By the kind of its task.
#[tactic(auto, unfolding(crate::specs::Reader::performed))]
fn performed(s: &[u8], n: Node, free: bool, task: Task, f: &mut [i32; 24], p: Place) -> Outcome
    requires { (task.field < 24) × (p.at ≤ length s.now) }
    ensures { read_into result f.new ≡ performed s.now n free task (fields_of f.old) p }
{
    match Kind::from(task.kind) {
        Kind::Number | Kind::CommaYear => read_numbers::read_number(s, n, free, task, f, p),
        Kind::Word => read_words::read_word(s, n, task, f, p),
        Kind::Exact => state::read(read_literals::exact(p)),
        Kind::Dropped => read_numbers::read_dropped(s, n, free, task, p),
        Kind::Offset => read_offsets::read_offset(s, n, free, task, f, p),
        Kind::OffsetMinutes => read_offsets::read_offset_minutes(s, n, free, f, p),
        Kind::Nothing => state::read(p),
    }
}

// Whether a pattern has a date mode, and another was set before.
pub fn mixes(new: u8, old: i32) -> bool
    ensures { result ≡ mixes new old }
{
    new != template_patterns::MODE_NONE && read_integers::from_char_set_int(old, i32::from(new))
}

pub fn with_mode(new: u8, f: &mut [i32; 24])
    ensures { fields_of f.new ≡ with_mode new (fields_of f.old) }
{
    if new != template_patterns::MODE_NONE {
        state::put(f, field::MODE, i32::from(new));
    }
}

// The date mode is tested before anything is read. What a refused pattern has put into the fields is left open.
#[tactic(auto, unfolding(crate::specs::Reader::action_read, crate::specs::Reader::past_spaces))]
fn action_read(
    t: &[u8],
    s: &[u8],
    n: Node,
    next: Node,
    task: Task,
    f: &mut [i32; 24],
    p: Place,
) -> Outcome
    requires { Assigned n.pattern task × (p.at ≤ length s.now) × (length s.now ≤ 512) }
    ensures { Went (action_read t.now s.now n next (fields_of f.old) p) result f.new }
{
    let mode = table::mode_at(n.pattern);
    if mixes(mode, state::get(f, field::MODE)) {
        return state::refuse(Refusal::MixedDates { pattern: n.pattern }, p);
    }
    let free = read_integers::is_free(t, n, next);
    with_mode(mode, f);
    let r = performed(s, n, free, task, f, p);
    match r.verdict {
        Err(why) => state::refuse(why, p),
        Ok(()) => state::read(read_literals::past_field(s, r.place)),
    }
}

// A pattern, with the spaces before it.
#[tactic(auto, using(read_literals::proofs::Literals::entered_within))]
pub fn pattern_read(t: &[u8], s: &[u8], n: Node, next: Node, f: &mut [i32; 24], p: Place) -> Outcome
    requires { Payable s.now p × (p.at ≤ length s.now) × (length s.now ≤ 512) }
    ensures { Went (action_read t.now s.now n next (fields_of f.old) (entered_by s.now (not (same_kind (kind_of (task_of n.pattern).kind) exact)) p)) result f.new }
{
    let task = table::task_at(n.pattern);
    let q = read_literals::entered(s, Kind::from(task.kind) != Kind::Exact, p);
    action_read(t, s, n, next, task, f, q)
}
