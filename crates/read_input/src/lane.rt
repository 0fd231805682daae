// The lane: literals, and patterns whose number is digits alone, one node after another.
//
// Nearly all that is read goes this way. A number that has its width in digits is the same whether the width is free or
// fixed, so what follows the pattern is looked up for other counts alone. A digit right at the place says that no
// spaces are before the number. At anything else (an ordinal suffix, FX, a space or a sign before the number, a word, a
// number past nine digits, a field that was set to another value, mixed date modes) the lane ends before the node, and
// has changed nothing for it: `pattern_read` reads that node, and the lane goes on after it.
ghost use Rattle.std.specs.Prelude.{false, ◌||◌, ◌≡◌, ◌+◌, ◌<◌, ◌≤◌, eqb, length, get_or};
ghost use Rattle.template_nodes.specs.Bytes.{nodes_in};
ghost use Rattle.template_nodes.specs.Template.{end_node};
ghost use Rattle.read_literals.specs.Literals.{Payable, entered_by, literal_passed};
ghost use Rattle.read_integers.specs.Suffix.{is_free, ordinal};
ghost use Rattle.read_fields.specs.Tasks.{Assigned, kind_of, number};
ghost use Rattle.read_input.specs.Lane.{CharsRead, LaneRead, NodeTook, NumberPut, Took, passed_at};

use crate::actions;
use base_strtol::Short;
use read_fields::{Kind, Place, Task, field, state, table};
use read_integers::ORDINAL;
use template_nodes::{FN_ACTION, FN_CHAR, NODE, Node};

// The next node, and the place before it.
#[derive(Clone, Copy)]
pub struct Passed {
    pub next: usize,
    pub place: Place,
}

// The same where no skipped space is left.
fn reached(next: usize, at: usize) -> Passed
    ensures { result ≡ passed_at next at }
{
    let place = Place {
        at,
        extra: 0,
        fx: 0,
    };
    Passed { next, place }
}

// A number that was read from n bytes goes into its field, with the pattern's date mode; unless the field or the mode
// was set to another value. Most numbers are put as they are.
#[tactic(auto, unfolding(read_numbers::specs::Numbers::kept, read_numbers::specs::Numbers::noted))]
fn number_put(mode: u8, task: Task, z: i32, n: usize, f: &mut [i32; 24]) -> bool
    requires { task.field < 24 }
    ensures { NumberPut mode task z n f.old result f.new }
{
    if actions::mixes(mode, state::get(f, field::MODE)) || state::holds_other(f, task.field, z) {
        return false;
    }
    actions::with_mode(mode, f);
    if task.rule == table::PLAIN {
        state::put(f, task.field, z);
        return true;
    }
    read_numbers::put_number(task, z, n, f);
    true
}

// Whether node i reads so many digits, where there are no more: they are as many as its width, or it takes all.
#[tactic(auto, using(template_nodes::proofs::Encoding::nodes_length))]
fn takes(c: &[u8], t: &[u8], i: usize, n: Node, width: usize, count: usize) -> bool
    requires { i < length (nodes_in c.now) }
    ensures { result ≡ (eqb count width || is_free t.now n (get_or (nodes_in c.now) (i + 1) end_node)) }
{
    count == width || read_integers::is_free(t, n, template_nodes::node_at(c, i + 1))
}

// A pattern that reads a number, where it is digits alone: the place after it, if the lane takes it.
fn number_taken(
    c: &[u8],
    t: &[u8],
    s: &[u8],
    i: usize,
    n: Node,
    task: Task,
    f: &mut [i32; 24],
    p: Place,
) -> Option<Place>
    requires { (i < length (nodes_in c.now)) × (length s.now ≤ 512) × Assigned n.pattern task × (kind_of task.kind ≡ number) × (ordinal n.suffix ≡ false) × (p.fx ≡ 0) }
    ensures { Took t.now s.now n (get_or (nodes_in c.now) (i + 1) end_node) f.old p result f.new }
{
    let Short { value, end } = base_strtol::short_number(s, p.at)?;
    let count = end - p.at;
    if !takes(c, t, i, n, task.operand as usize, count) {
        return None;
    }
    if !number_put(table::mode_at(n.pattern), task, value as i32, count, f) {
        return None;
    }
    let after = Place {
        at: end,
        extra: 0,
        fx: 0,
    };
    Some(read_literals::past_field(s, after))
}

// A pattern, node i: the place after it, if the lane takes it.
fn pattern_taken(
    c: &[u8],
    t: &[u8],
    s: &[u8],
    i: usize,
    n: Node,
    f: &mut [i32; 24],
    p: Place,
) -> Option<Place>
    requires { (i < length (nodes_in c.now)) × (length s.now ≤ 512) }
    ensures { Took t.now s.now n (get_or (nodes_in c.now) (i + 1) end_node) f.old p result f.new }
{
    if n.suffix & ORDINAL != 0 || p.fx != 0 {
        return None;
    }
    let task = table::task_at(n.pattern);
    if Kind::from(task.kind) != Kind::Number {
        return None;
    }
    number_taken(c, t, s, i, n, task, f, p)
}

// Characters from a node on, one after another, where no skipped space can pay for them.
fn chars_passed(c: &[u8], s: &[u8], from: usize, place: Place) -> Passed
    requires { (from ≤ length (nodes_in c.now)) × (from ≡ 0 → ⊥) × (place.extra ≡ 0) × (place.fx ≡ 0) }
    ensures { CharsRead s.now (nodes_in c.now) from place result }
{
    let count = c.len() / NODE;
    let mut at = place.at;
    for i in from..count {
        if s.len() <= at {
            return reached(i, at);
        }
        let n = template_nodes::node_at(c, i);
        if n.kind != FN_CHAR {
            return reached(i, at);
        }
        at += base_accents::measure_usual(s, at, n.accents);
    }
    reached(count, at)
}

// A literal, node i, and the characters after it.
#[tactic(auto, using(template_nodes::proofs::Encoding::nodes_length))]
fn literal_taken(c: &[u8], s: &[u8], i: usize, n: Node, p: Place) -> Passed
    requires { (i < length (nodes_in c.now)) × Payable s.now p × (p.at ≤ length s.now) × (length s.now ≤ 512) }
    ensures { CharsRead s.now (nodes_in c.now) (i + 1) (literal_passed s.now n (entered_by s.now (eqb i 0) p)) result }
{
    let q = read_literals::literal_read(s, n, i == 0, p);
    if n.kind == FN_CHAR && q.extra == 0 && q.fx == 0 {
        return chars_passed(c, s, i + 1, q);
    }
    Passed {
        next: i + 1,
        place: q,
    }
}

// Node i: a pattern, or a literal and the characters after it. None where a pattern is left.
#[tactic(auto, using(template_nodes::proofs::Encoding::nodes_length))]
fn node_taken(c: &[u8], t: &[u8], s: &[u8], i: usize, f: &mut [i32; 24], p: Place) -> Option<Passed>
    requires { (i < length (nodes_in c.now)) × (i ≡ 0 → p.extra ≡ 0) × Payable s.now p × (p.at < length s.now) × (length s.now ≤ 512) }
    ensures { NodeTook t.now s.now (nodes_in c.now) i f.old p result f.new }
{
    let n = template_nodes::node_at(c, i);
    if n.kind == FN_ACTION {
        let place = pattern_taken(c, t, s, i, n, f, p)?;
        return Some(Passed { next: i + 1, place });
    }
    Some(literal_taken(c, s, i, n, p))
}

// One node after another from a node on, up to a pattern that the lane leaves, or the end of the input or of the nodes.
pub fn lane(c: &[u8], t: &[u8], s: &[u8], f: &mut [i32; 24], from: usize, place: Place) -> Passed
    requires { (from ≤ length (nodes_in c.now)) × (from ≡ 0 → place.extra ≡ 0) × Payable s.now place × (length s.now ≤ 512) }
    ensures { LaneRead t.now s.now (nodes_in c.now) from place f.old result f.new }
{
    let count = c.len() / NODE;
    let mut p = place;
    let mut i = from;
    while i < count {
        if s.len() <= p.at {
            return Passed { next: i, place: p };
        }
        let Some(passed) = node_taken(c, t, s, i, f, p) else {
            return Passed { next: i, place: p };
        };
        p = passed.place;
        i = passed.next;
    }
    Passed { next: i, place: p }
}
