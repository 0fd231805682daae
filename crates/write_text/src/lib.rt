// Writing a moment by a template.
#![tactic(auto)]

ghost use Rattle.std.specs.Prelude.{◌≡◌, ◌+◌, ◌≤◌, length};
ghost use Rattle.std.proofs.lemmas.List.Edits.{sets};
ghost use Rattle.template_nodes.specs.Bytes.{nodes_in};
ghost use Rattle.write_pieces.specs.Output.{Put};
ghost use Rattle.write_text.specs.Report.{unwritten_report};
ghost use Rattle.write_text.specs.Text.{literal_text, node_text};
ghost use Rattle.write_text.specs.Writer.{Wrote, WroteBy, first_unwritten, is_written, named, nodes_limit, text_in};

use base_refusals::{NO_PATTERN, Report};
use base_settings::Settings;
use template_nodes::{FN_ACTION, NODE, NODES, Node};
use write_pieces::{Moment, RealMoment};

// Why nothing is written.
#[derive(Clone, Copy)]
pub enum Unwritten {
    TooLong,
    NotUtf8,
    // The pattern is not known, or is written only with another prefix or suffix, or none.
    NotWritten { pattern: u8 },
    // A year outside 1 to 9999, or no such moment.
    NoMoment,
    // The buffer is shorter than the text.
    NoRoom { needed: u32 },
}

// By which number a refusal is known, with its pattern and figure.
#[tactic(auto, unfolding(crate::specs::Report::unwritten_report))]
pub fn report_of(why: Unwritten) -> Report
    ensures { result ≡ unwritten_report why }
{
    match why {
        Unwritten::TooLong => base_refusals::alone(1),
        Unwritten::NotUtf8 => base_refusals::alone(2),
        Unwritten::NotWritten { pattern } => base_refusals::at(pattern, 19),
        Unwritten::NoMoment => base_refusals::alone(20),
        Unwritten::NoRoom { needed } => Report {
            number: 21,
            pattern: NO_PATTERN,
            first: i64::from(needed),
            second: 0,
        },
    }
}

// Whether a node is written: a literal, or a known pattern with its piece's prefix and no suffix.
fn is_written(n: Node) -> bool
    ensures { result ≡ is_written n }
{
    if n.kind != FN_ACTION {
        return true;
    }
    let piece = write_pieces::piece_of(n.pattern);
    piece.is_some() && n.suffix == write_pieces::prefix_of(piece)
}

// A pattern as a refusal names it.
fn named(pattern: u8) -> u8
    ensures { result ≡ named pattern }
{
    pattern.min(NO_PATTERN)
}

// The first pattern that is not written, of the nodes that the bytes hold.
fn first_unwritten(c: &[u8]) -> Option<u8>
    ensures { result ≡ first_unwritten (nodes_in c.now) }
{
    for i in 0..c.len() / NODE {
        let n = template_nodes::node_at(c, i);
        if !is_written(n) {
            return Some(named(n.pattern));
        }
    }
    None
}

// The bytes of a literal that the template has.
fn literal_length(t: &[u8], n: Node) -> usize
    ensures { (result ≡ length (literal_text t.now n)) × (result ≤ 65535) }
{
    t.len()
        .saturating_sub(usize::from(n.start))
        .min(usize::from(n.len))
}

// The length of a node's text at a moment.
fn node_length(t: &[u8], n: Node, m: RealMoment) -> usize
    ensures { (result ≡ length (node_text t.now m.moment n)) × (result ≤ 65535) }
{
    if n.kind != FN_ACTION {
        return literal_length(t, n);
    }
    write_pieces::piece_length(write_pieces::piece_of(n.pattern), m)
}

// The length of the text at a moment.
fn text_length(c: &[u8], t: &[u8], m: RealMoment) -> usize
    requires { length c.now ≤ 1536 }
    ensures { (result ≡ length (text_in c.now t.now m.moment)) × (result ≤ 16776960) }
{
    let mut total = 0;
    for i in 0..c.len() / NODE {
        total += node_length(t, template_nodes::node_at(c, i), m);
    }
    total
}

// The text of a literal put into the buffer.
fn put_literal(t: &[u8], n: Node, out: &mut [u8], at: usize) -> usize
    requires { at + length (literal_text t.now n) ≤ length out.old }
    ensures { Put out.old at (literal_text t.now n) out.new result }
{
    let len = literal_length(t, n);
    if len == 0 {
        return at;
    }
    let start = usize::from(n.start);
    let end = start + len;
    write_pieces::put_bytes(&t[start..end], out, at)
}

// The text of a node put into the buffer.
fn put_node(t: &[u8], n: Node, m: RealMoment, out: &mut [u8], at: usize) -> usize
    requires { at + length (node_text t.now m.moment n) ≤ length out.old }
    ensures { Put out.old at (node_text t.now m.moment n) out.new result }
{
    if n.kind != FN_ACTION {
        return put_literal(t, n, out, at);
    }
    let piece = write_pieces::piece_of(n.pattern);
    write_pieces::put_piece(piece, template_patterns::case_of(n.pattern), m, out, at)
}

// The text of all nodes put into the buffer, from its start on.
fn put_nodes(c: &[u8], t: &[u8], m: RealMoment, out: &mut [u8])
    requires { length (text_in c.now t.now m.moment) ≤ length out.old }
    ensures { out.new ≡ sets out.old 0 (text_in c.now t.now m.moment) }
{
    let mut at = 0;
    for i in 0..c.len() / NODE {
        let n = template_nodes::node_at(c, i);
        at = put_node(t, n, m, out, at);
    }
}

// The bytes of the most nodes that a template within its limit has.
fn nodes_limit(set: Settings) -> usize
    ensures { result ≡ nodes_limit set }
{
    NODE * base_settings::template_limit(set)
}

// Writes by the nodes that any bytes hold. t is the template that they were made from.
pub fn write_by(
    set: Settings,
    c: &[u8],
    t: &[u8],
    m: Moment,
    out: &mut [u8],
) -> Result<usize, Unwritten>
    ensures { WroteBy set c.now t.now m out.old out.new result }
{
    if nodes_limit(set) < c.len() {
        return Err(Unwritten::TooLong);
    }
    if let Some(pattern) = first_unwritten(c) {
        return Err(Unwritten::NotWritten { pattern });
    }
    let Some(m) = write_pieces::checked(m) else {
        return Err(Unwritten::NoMoment);
    };
    let needed = text_length(c, t, m);
    if out.len() < needed {
        return Err(Unwritten::NoRoom {
            needed: needed as u32,
        });
    }
    put_nodes(c, t, m, out);
    Ok(needed)
}

// Writes the text of a moment into the buffer. What follows the text stays; on refusal the whole buffer does. The text
// is the same in both modes of characters, so the template is compiled without accents.
pub fn write(set: Settings, t: &[u8], m: Moment, out: &mut [u8]) -> Result<usize, Unwritten>
    ensures { Wrote set t.now m out.old out.new result }
{
    if base_settings::template_limit(set) < t.len() {
        return Err(Unwritten::TooLong);
    }
    if !base_chars::is_utf8(t) {
        return Err(Unwritten::NotUtf8);
    }
    let mut nodes = [0u8; NODES];
    let end = NODE * template_nodes::parse_format(false, t, &mut nodes);
    write_by(set, &nodes[..end], t, m, out)
}
