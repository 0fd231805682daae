// Where reading is in the input: spaces that are skipped, and literals of the template.
#![tactic(auto)]

ghost use Rattle.std.specs.Prelude.{true, ◌≡◌, ◌≤◌, length};
ghost use Rattle.read_literals.specs.Literals.{Payable, past_field, blank_passed, char_passed, entered_by, literal_passed, place, skipped};

use read_fields::Place;
use template_nodes::Node;

// Past the spaces, which pay for literals to come.
#[tactic(auto, using(crate::proofs::Literals::spaces_few))]
pub fn spaces_skipped(s: &[u8], p: Place) -> Place
    requires { (p.extra ≤ 512) × (length s.now ≤ 512) }
    ensures { result ≡ skipped s.now p }
{
    let at = p.at;
    let next = base_strtol::past_spaces(s, at);
    let extra = p.extra + (next - at);
    Place {
        at: next,
        extra,
        fx: 0,
    }
}

// A space or separator of the template takes one of the input, or a skipped space.
#[tactic(auto, unfolding(base_chars::specs::Class::class_of))]
fn blank_passed(s: &[u8], p: Place) -> Place
    requires { p.at ≤ length s.now }
    ensures { result ≡ blank_passed s.now p }
{
    let at = p.at;
    let extra = p.extra;
    if base_chars::is_blank(base_notation::byte_at(s, at)) {
        return Place {
            at: at + 1,
            extra,
            fx: 0,
        };
    }
    Place {
        at,
        extra: extra.saturating_sub(1),
        fx: 0,
    }
}

// One character of the input, as the literal's mode measures it.
fn char_passed(s: &[u8], n: Node, p: Place) -> Place
    requires { p.at ≤ length s.now }
    ensures { result ≡ char_passed s.now n p }
{
    let at = p.at;
    Place {
        at: at + base_accents::measure(s, at, n.accents),
        ..p
    }
}

#[tactic(auto, unfolding(crate::specs::Literals::literal_passed))]
pub fn literal_passed(s: &[u8], n: Node, p: Place) -> Place
    requires { p.at ≤ length s.now }
    ensures { result ≡ literal_passed s.now n p }
{
    if p.fx != 0 {
        return char_passed(s, n, p);
    }
    if n.kind == template_nodes::FN_SEPARATOR || n.kind == template_nodes::FN_SPACE {
        return blank_passed(s, p);
    }
    let extra = p.extra;
    if extra == 0 {
        return char_passed(s, n, p);
    }
    Place {
        extra: extra - 1,
        ..p
    }
}

// FX was read.
pub fn exact(p: Place) -> Place
    ensures { result ≡ place p.at p.extra true }
{
    Place { fx: 1, ..p }
}

// After a field.
pub fn past_field(s: &[u8], p: Place) -> Place
    requires { length s.now ≤ 512 }
    ensures { result ≡ past_field s.now p }
{
    if p.fx != 0 {
        return p;
    }
    spaces_skipped(s, Place { extra: 0, ..p })
}

// Before a node: spaces are skipped where they may be, unless FX was read.
pub fn entered(s: &[u8], skip: bool, p: Place) -> Place
    requires { Payable s.now p × (length s.now ≤ 512) }
    ensures { result ≡ entered_by s.now skip p }
{
    if skip && p.fx == 0 {
        spaces_skipped(s, p)
    } else {
        p
    }
}

// A literal, with the spaces before it. Most are plain characters for which no skipped space can pay.
#[tactic(auto, unfolding(crate::specs::Literals::literal_passed), using(crate::proofs::Literals::entered_within))]
pub fn literal_read(s: &[u8], n: Node, first: bool, p: Place) -> Place
    requires { Payable s.now p × (p.at ≤ length s.now) × (length s.now ≤ 512) }
    ensures { result ≡ literal_passed s.now n (entered_by s.now first p) }
{
    if !first && n.kind == template_nodes::FN_CHAR && p.extra == 0 {
        return char_passed(s, n, p);
    }
    literal_passed(s, n, entered(s, first, p))
}
