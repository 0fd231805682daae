// Answers, put into a lent buffer from a place on. What does not fit is left off; the result is the place after what
// was put.
ghost use Rattle.std.specs.Prelude.{◌≡◌, [], ◌∷◌, ◌<◌, length, drop};
ghost use Rattle.line_buffers.specs.Output.{Put};
ghost use Rattle.line_buffers.specs.Decimal.{digits, decimal};

pub fn put_byte(b: u8, out: &mut [u8], at: usize) -> usize
    ensures { Put out.old at (b ∷ []) out.new result }
{
    put_bytes(&[b], out, at)
}

pub fn put_bytes(text: &[u8], out: &mut [u8], at: usize) -> usize
    ensures { Put out.old at text.now out.new result }
{
    if at >= out.len() {
        return at;
    }
    let n = text.len().min(out.len() - at);
    out[at..at + n].copy_from_slice(&text[..n]);
    at + n
}

// The digits of a number, at the end of `text`, which has room for all of them; the result is where they begin.
fn digits_of(n: u64, text: &mut [u8; 20]) -> usize
    ensures { (result < 20) × (drop result text.new ≡ digits n) }
{
    let mut rest = n;
    for first in (0..20).rev() {
        text[first] = b'0' + (rest % 10) as u8;
        rest /= 10;
        if rest == 0 {
            return first;
        }
    }
    unreachable!()
}

fn put_digits(n: u64, out: &mut [u8], at: usize) -> usize
    ensures { Put out.old at (digits n) out.new result }
{
    let mut text = [0u8; 20];
    let first = digits_of(n, &mut text);
    put_bytes(&text[first..], out, at)
}

pub fn put_decimal(value: i64, out: &mut [u8], at: usize) -> usize
    ensures { Put out.old at (decimal value) out.new result }
{
    let start = if value < 0 {
        put_byte(b'-', out, at)
    } else {
        at
    };
    put_digits(value.unsigned_abs(), out, start)
}
