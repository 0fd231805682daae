// The kind of a literal by its first byte.
ghost use Rattle.std.specs.Prelude.{◌≡◌, true, not, ◌&&◌, ◌<◌, length};
ghost use Rattle.base_notation.specs.Choice.{when◌then◌else◌};
ghost use Rattle.base_notation.specs.Text.{byte_at};
ghost use Rattle.template_nodes.specs.Template.{character, is_single, kind_of};

use crate::{FN_CHAR, FN_SEPARATOR, FN_SPACE};

#[tactic(auto, unfolding(crate::specs::Template::kind_of))]
pub fn kind_of(b: u8) -> u8
    ensures { result ≡ kind_of b }
{
    if base_chars::is_separator_char(b) {
        return FN_SEPARATOR;
    }
    if base_chars::is_space_c(b) {
        return FN_SPACE;
    }
    FN_CHAR
}

// The kind of a literal: in quotes a plain character, outside by its first byte.
pub fn literal_kind(quoted: bool, b: u8) -> u8
    ensures { result ≡ (when quoted then character else kind_of b) }
{
    if quoted {
        return FN_CHAR;
    }
    kind_of(b)
}

// Whether a byte outside quotes is a space, or a separator but for a quote, and so a node by itself. Only bytes below
// 64 are asked for: letters begin at 65.
#[tactic(auto, using(crate::proofs::Singles::singles))]
pub fn is_single(t: &[u8], at: usize, quoted: bool) -> bool
    requires { at < length t.now }
    ensures { result ≡ (not quoted && is_single (byte_at t.now at)) }
{
    if quoted {
        return false;
    }
    base_chars::in_set(0xfc00fffb00003e00, 0, t[at])
}

// The kind of such a byte: the spaces come before the separators.
#[tactic(auto, using(crate::proofs::Singles::single_kind))]
pub fn single_kind(b: u8) -> u8
    requires { is_single b ≡ true }
    ensures { result ≡ kind_of b }
{
    if b <= b' ' {
        return FN_SPACE;
    }
    FN_SEPARATOR
}
