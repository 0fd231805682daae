// Accent marks that count alone in a compiled template.
ghost use Rattle.std.specs.Prelude.{◌≡◌};
ghost use Rattle.template_nodes.specs.Joined.{has_lone_mark, is_mark};
ghost use Rattle.template_nodes.specs.Bytes.{nodes_in};

use crate::{FN_ACTION, NODE, Node, node_at};

// Whether a node is a mark that counts alone.
fn is_lone_mark(t: &[u8], n: Node) -> bool
    ensures { result ≡ is_mark t.now n }
{
    n.kind != FN_ACTION && base_accents::is_mark(t, usize::from(n.start))
}

// Whether a mark counts alone in the template that was compiled to these bytes. Any bytes are taken for nodes.
pub fn has_lone_mark(c: &[u8], t: &[u8]) -> bool
    ensures { result ≡ has_lone_mark t.now (nodes_in c.now) }
{
    let count = c.len() / NODE;
    for i in 0..count {
        if is_lone_mark(t, node_at(c, i)) {
            return true;
        }
    }
    false
}
