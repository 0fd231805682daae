// Reading an input by the nodes of a template: dch_from_char of PostgreSQL's formatting.c.
#![tactic(auto)]

mod actions;
mod lane;

ghost use Rattle.std.specs.Prelude.{◌≡◌, ◌≤◌, length};
ghost use Rattle.template_nodes.specs.Bytes.{nodes_in};
ghost use Rattle.read_input.specs.Reader.{Went, read_all};
ghost use Rattle.read_fields.specs.Fields.{fields_of, no_fields};

use read_fields::{Outcome, Place, state};
use template_nodes::NODE;

// The nodes that any bytes hold, one after another, until the input or the nodes end or a node is refused. What they read
// goes into fields that are lent, all absent at first. t is the template that the nodes were made from.
pub fn dch_from_char(c: &[u8], t: &[u8], s: &[u8], f: &mut [i32; 24]) -> Outcome
    requires { (length s.now ≤ 512) × (fields_of f.old ≡ no_fields) }
    ensures { Went (read_all t.now s.now (nodes_in c.now)) result f.new }
{
    let mut p = Place {
        at: 0,
        extra: 0,
        fx: 0,
    };
    let mut i: usize = 0;
    while i < c.len() / NODE {
        let lane::Passed { next, place } = lane::lane(c, t, s, f, i, p);
        if c.len() / NODE <= next {
            return state::read(place);
        }
        if s.len() <= place.at {
            return state::read(place);
        }
        let n = template_nodes::node_at(c, next);
        let following = next + 1;
        let node_after = template_nodes::node_at(c, following);
        let r = actions::pattern_read(t, s, n, node_after, f, place);
        if let Err(_) = r.verdict {
            return r;
        }
        p = r.place;
        i = following;
    }
    state::read(p)
}
