// Texts put into a lent buffer from a place on; the answer is the place after them.
ghost use Rattle.std.specs.Prelude.{◌+◌, ◌≤◌, length};
ghost use Rattle.base_strtol.specs.Decimal.{decimal};
ghost use Rattle.write_pieces.specs.Output.{Put};

// A text. Most have one byte, of a literal, and need no loop.
pub fn put_bytes(text: &[u8], out: &mut [u8], at: usize) -> usize
    requires { at + length text.now ≤ length out.old }
    ensures { Put out.old at text.now out.new result }
{
    if text.len() == 1 {
        out[at] = text[0];
        return at + 1;
    }
    for (i, b) in text.iter().enumerate() {
        out[at + i] = *b;
    }
    at + text.len()
}

// The last `width` digits of a number, filled with zeros, from the last on.
pub fn put_number(n: u32, width: usize, out: &mut [u8], at: usize) -> usize
    requires { at + width ≤ length out.old }
    ensures { Put out.old at (decimal width n) out.new result }
{
    let mut rest = n;
    for i in (0..width).rev() {
        out[at + i] = b'0' + (rest % 10) as u8;
        rest /= 10;
    }
    at + width
}
