// The items of a line: numbers, and bytes in hexadecimal digits.
#![tactic(auto)]

ghost use Rattle.std.specs.Prelude.{◌≡◌, ◌<◌, ⊤, MatchOption};
ghost use Rattle.line_numbers.specs.Numbers.{number_of, narrowed, int_of, hex_digit, bytes_of};
ghost use Rattle.line_buffers.specs.Output.{Put};

use line_buffers::put_byte;

// An item as a number of 64 bits, as strtol reads it to the item's end.
#[tactic(auto, unfolding(crate::specs::Numbers::number_of))]
pub fn read_number(text: &[u8]) -> Option<i64>
    ensures { result ≡ number_of text.now }
{
    let n = base_strtol::c_strtol(text, 0);
    if n.overflow || n.end == 0 || n.end != text.len() {
        return None;
    }
    Some(n.value)
}

#[tactic(auto, unfolding(crate::specs::Numbers::narrowed))]
fn narrow(n: i64) -> Option<i32>
    ensures { result ≡ narrowed n }
{
    i32::try_from(n).ok()
}

// An item as a number of 32 bits.
#[tactic(auto, unfolding(crate::specs::Numbers::narrow))]
pub fn read_int(text: &[u8]) -> Option<i32>
    ensures { result ≡ int_of text.now }
{
    narrow(read_number(text)?)
}

// The value of a hexadecimal digit.
#[tactic(auto, unfolding(crate::specs::Numbers::hex_digit))]
fn hex_digit(b: u8) -> Option<u8>
    ensures value { result ≡ hex_digit b }
    ensures below { MatchOption result ⊤ (λ d. d < 16) }
{
    match b {
        b'0'..=b'9' => Some(b - b'0'),
        b'a'..=b'f' => Some(b - b'a' + 10),
        b'A'..=b'F' => Some(b - b'A' + 10),
        _ => None,
    }
}

// Puts the bytes of pairs of hexadecimal digits, up to the first pair that is none.
pub fn put_hex(text: &[u8], out: &mut [u8], at: usize) -> usize
    ensures { Put out.old at (bytes_of text.now) out.new result }
{
    let mut next = at;
    for pair in text.chunks_exact(2) {
        let Some(high) = hex_digit(pair[0]) else {
            return next;
        };
        let Some(low) = hex_digit(pair[1]) else {
            return next;
        };
        next = put_byte(high * 16 + low, out, next);
    }
    next
}
