// Marks that count alone in a compiled template.
ghost use Rattle.std.specs.Prelude.{◌≡◌};
ghost use Rattle.base_notation.specs.Choice.{when◌then◌else◌};
ghost use Rattle.template_nodes.specs.Bytes.{nodes_in};
ghost use Rattle.template_nodes.specs.Joined.{has_lone_mark};

// 1 where a mark counts alone in the template t that was compiled to these nodes, else 0. Any bytes are taken for
// nodes.
pub fn sorbilgan_has_lone_mark(nodes: &[u8], t: &[u8]) -> u8
    ensures { result ≡ (when has_lone_mark t.now (nodes_in nodes.now) then 1 else 0) }
{
    u8::from(template_nodes::has_lone_mark(nodes, t))
}
