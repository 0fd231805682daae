// The template compiler: parse_format of PostgreSQL's formatting.c for dates.
#![tactic(auto)]

mod kinds;
mod marks;

ghost use Rattle.std.specs.Prelude.{◌≡◌, ◌+◌, ◌*◌, ◌/◌, ◌%◌, ◌<◌, ◌≤◌, true, false, [], ◌∷◌, length, get_or};
ghost use Rattle.base_notation.specs.Choice.{when◌then◌else◌};
ghost use Rattle.std.proofs.lemmas.List.Edits.{sets};
ghost use Rattle.template_patterns.specs.Affixes.{affix_length};
ghost use Rattle.template_patterns.specs.Search.{pattern_at};
ghost use Rattle.template_nodes.specs.Template.{Placed, Stepped, char_at, end_node, in_mode, is_quoted_char, literal, literal_at, nodes_by, pattern, skip};
ghost use Rattle.template_nodes.specs.Elements.{Made, Rested, element_from, element_in, named_at, nowhere, rest_at};
ghost use Rattle.template_nodes.specs.Bytes.{Parsed, Put, bytes_of, mode_bit, nodes_in};

pub use marks::has_lone_mark;
use template_patterns::Found;

// The kinds of a node.
pub const FN_END: u8 = 0;

pub const FN_ACTION: u8 = 1;

pub const FN_CHAR: u8 = 2;

pub const FN_SEPARATOR: u8 = 3;

pub const FN_SPACE: u8 = 4;

// A pattern with the bits of its prefix and suffix, or one literal character. `start` and `len` say where its name or
// its bytes are in the template; `pattern` is its number in the table; `accents` is the mode that it was made in.
#[derive(Clone, Copy)]
pub struct Node {
    pub len: u16,
    pub start: u8,
    pub kind: u8,
    pub pattern: u8,
    pub suffix: u8,
    pub accents: bool,
}

// What comes after the last node.
const END: Node = Node {
    len: 0,
    start: 0,
    kind: FN_END,
    pattern: 0,
    suffix: 0,
    accents: false,
};

// The bit of the accents mode in the last byte of a node, above those of prefixes and suffixes.
const MODE: u8 = 128;

// The bytes of a node, and of the most nodes that a template of 256 bytes has.
pub const NODE: usize = 6;

pub const NODES: usize = 1536;

// One step through a template: the node that it made, if any, where it ended, and whether it ended in quotes.
#[derive(Clone, Copy)]
pub struct Step {
    pub made: Option<Node>,
    pub next: usize,
    pub quoted: bool,
}

fn skipped(next: usize, quoted: bool) -> Step
    ensures { result ≡ skip next quoted }
{
    Step {
        made: None,
        next,
        quoted,
    }
}

// The node of a literal.
fn literal(accents: bool, start: usize, len: usize, kind: u8) -> Node
    requires { (start < 256) × (len ≤ 256) }
    ensures { result ≡ in_mode accents (literal kind start len) }
{
    Node {
        start: start as u8,
        len: len as u16,
        kind,
        pattern: 0,
        suffix: 0,
        accents,
    }
}

// One character as a node.
fn char_at(accents: bool, t: &[u8], at: usize, kind: u8, quoted: bool) -> Step
    requires { (at < length t.now) × (length t.now ≤ 256) }
    ensures { Stepped at (char_at accents t.now at kind quoted) result }
{
    let n = base_accents::measure_usual(t, at, accents);
    let node = literal(accents, at, n, kind);
    Step {
        made: Some(node),
        next: at + n,
        quoted,
    }
}

// Where the literal character is: after a backslash, unless the backslash is the character itself. In quotes it is
// that as the last byte, outside quotes everywhere but before a quote.
#[tactic(auto, unfolding(crate::specs::Template::char_place), using(base_notation::proofs::Bytes::byte_within))]
fn char_place(t: &[u8], at: usize, quoted: bool) -> usize
    requires { at < length t.now }
    ensures { Placed t.now at quoted result }
{
    if t[at] != b'\\' {
        return at;
    }
    if quoted {
        if at + 1 < t.len() {
            return at + 1;
        }
        return at;
    }
    if base_notation::byte_at(t, at + 1) == b'"' {
        return at + 1;
    }
    at
}

// A quote, or one literal character.
#[tactic(auto, using(crate::proofs::Steps::at_quote, crate::proofs::Steps::at_literal))]
fn literal_step(accents: bool, t: &[u8], at: usize, quoted: bool) -> Step
    requires { (at < length t.now) × (length t.now ≤ 256) }
    ensures { Stepped at (literal_at accents t.now at quoted) result }
{
    if t[at] == b'"' {
        return skipped(at + 1, !quoted);
    }
    let place = char_place(t, at, quoted);
    char_at(
        accents,
        t,
        place,
        kinds::literal_kind(quoted, t[place]),
        quoted,
    )
}

fn past_affix(at: usize, bit: u8) -> usize
    requires { at ≤ 512 }
    ensures { result ≡ at + affix_length bit }
{
    if bit == 0 { at } else { at + 2 }
}

// A pattern in a template: where its name is, its number in the table, and the bits of its prefix and suffix.
#[derive(Clone, Copy)]
pub struct Pattern {
    pub start: u8,
    pub len: u16,
    pub number: u8,
    pub bits: u8,
}

// What is outside quotes at a place: a pattern, and where what comes after it is; or, where none is found, the place of
// the literal, after a prefix that is dropped.
#[derive(Clone, Copy)]
pub struct Element {
    pub pattern: Option<Pattern>,
    pub next: usize,
}

fn no_pattern(next: usize) -> Element
    ensures { result ≡ nowhere next }
{
    Element {
        pattern: None,
        next,
    }
}

// A pattern whose name is at a place, and the suffix after it.
fn named(t: &[u8], at: usize, prefix: u8, found: Found) -> Element
    requires { (at ≤ 255) × (found.number < 112) × (1 ≤ found.len) × (found.len ≤ 5) }
    ensures { Made at (named_at t.now at prefix found) result }
{
    let end = at + found.len;
    let suffix = template_patterns::fmt_suffix_search(t, end, false);
    let pattern = Pattern {
        start: at as u8,
        len: found.len as u16,
        number: found.number as u8,
        bits: prefix | suffix,
    };
    Element {
        pattern: Some(pattern),
        next: past_affix(end, suffix),
    }
}

// The node of a pattern.
fn action(accents: bool, p: Pattern) -> Node
    ensures { result ≡ in_mode accents (pattern p.start p.len p.number p.bits) }
{
    Node {
        start: p.start,
        len: p.len,
        kind: FN_ACTION,
        pattern: p.number,
        suffix: p.bits,
        accents,
    }
}

// A pattern, or none, after a prefix.
#[tactic(auto, using(template_patterns::proofs::Search::found_range))]
fn element_after(t: &[u8], at: usize, prefix: u8) -> Element
    requires { (at < length t.now) × (length t.now ≤ 256) }
    ensures { Made at (element_in (pattern_at t.now at) t.now at prefix) result }
{
    match template_patterns::fmt_index_search(t, at) {
        Some(found) => named(t, at, prefix, found),
        None => no_pattern(at),
    }
}

// What is at a place. In quotes there is no pattern.
fn element_at(t: &[u8], at: usize, quoted: bool) -> Element
    requires { (at < length t.now) × (length t.now ≤ 256) }
    ensures { Made at (element_from t.now at quoted) result }
{
    if quoted {
        return no_pattern(at);
    }
    let prefix = template_patterns::fmt_suffix_search(t, at, true);
    let start = past_affix(at, prefix);
    if start < t.len() {
        return element_after(t, start, prefix);
    }
    no_pattern(start)
}

// A literal, or nothing at the end.
fn rest_step(accents: bool, t: &[u8], at: usize, quoted: bool) -> Step
    requires { length t.now ≤ 256 }
    ensures { Rested (length t.now) at (rest_at accents t.now at quoted) result }
{
    if at < t.len() {
        return literal_step(accents, t, at, quoted);
    }
    skipped(at, quoted)
}

// Whether a character in quotes is just that: neither the end of them nor a backslash.
fn is_quoted_char(t: &[u8], at: usize, quoted: bool) -> bool
    requires { at < length t.now }
    ensures { result ≡ is_quoted_char t.now at quoted }
{
    quoted && t[at] != b'"' && t[at] != b'\\'
}

// The last byte of a node: the bits of its prefix and suffix, and that of its mode.
fn last_byte(suffix: u8, accents: bool) -> u8
    ensures { result ≡ suffix % mode_bit + (when accents then mode_bit else 0) }
{
    let bits = suffix % MODE;
    if accents { bits + MODE } else { bits }
}

// Puts the six bytes of a node into the array of nodes.
fn put_node(out: &mut [u8], i: usize, node: Node)
    requires { 6 * i + 6 ≤ length out.old }
    ensures { out.new ≡ sets out.old (6 * i) (bytes_of node) }
{
    let at = NODE * i;
    let [high, low] = node.len.to_be_bytes();
    out[at] = node.start;
    out[at + 1] = high;
    out[at + 2] = low;
    out[at + 3] = node.kind;
    out[at + 4] = node.pattern;
    out[at + 5] = last_byte(node.suffix, node.accents);
}

// Puts the node of a step, if it made one. The result is how many nodes there are then.
fn put_made(out: &mut [u8], i: usize, s: Step) -> usize
    requires { (6 * i + 6 ≤ length out.old) × (i ≤ 256) }
    ensures { Put s out.old out.new i result }
{
    if let Some(node) = s.made {
        put_node(out, i, node);
        return i + 1;
    }
    i
}

// Node i of any bytes, END after the last.
pub fn node_at(c: &[u8], i: usize) -> Node
    ensures { result ≡ get_or (nodes_in c.now) i end_node }
{
    if i < c.len() / NODE {
        let at = NODE * i;
        return Node {
            start: c[at],
            len: u16::from_be_bytes([c[at + 1], c[at + 2]]),
            kind: c[at + 3],
            pattern: c[at + 4],
            suffix: c[at + 5] % MODE,
            accents: MODE <= c[at + 5],
        };
    }
    END
}

// Puts the bytes of a template's nodes into the buffer; the result is how many nodes they are. `accents` is the mode.
pub fn parse_format(accents: bool, t: &[u8], out: &mut [u8]) -> usize
    requires { (length t.now ≤ 256) × (1536 ≤ length out.old) }
    ensures { Parsed (nodes_by accents t.now) out.old out.new result }
{
    let mut n: usize = 0;
    let mut at: usize = 0;
    let mut quoted = false;
    while at < t.len() {
        if is_quoted_char(t, at, quoted) {
            let len = base_accents::measure_usual(t, at, accents);
            put_node(out, n, literal(accents, at, len, FN_CHAR));
            n += 1;
            at += len;
        } else if kinds::is_single(t, at, quoted) {
            put_node(out, n, literal(accents, at, 1, kinds::single_kind(t[at])));
            n += 1;
            at += 1;
        } else if t[at] == b'"' {
            at += 1;
            quoted = !quoted;
        } else {
            let e = element_at(t, at, quoted);
            if let Some(pattern) = e.pattern {
                put_node(out, n, action(accents, pattern));
                n += 1;
                at = e.next;
            } else {
                let s = rest_step(accents, t, e.next, quoted);
                n = put_made(out, n, s);
                at = s.next;
                quoted = s.quoted;
            }
        }
    }
    n
}
