// Lines in a buffer that is read into again and again: the unfinished one at its end moves to the front before the
// next read.
ghost use Rattle.std.specs.Prelude.{◌≡◌};
ghost use Rattle.std.proofs.Math.Seq.{slice};
ghost use Rattle.line_buffers.specs.Input.{Found, Keeps, too_long};
ghost use Rattle.line_buffers.specs.Output.{Put};

// The first place from `from` on at which `b` is; the end where it is at none.
pub fn find(s: &[u8], from: usize, b: u8) -> usize
    ensures { Found s.now from b result }
{
    for i in from..s.len() {
        if s[i] == b {
            return i;
        }
    }
    from.max(s.len())
}

// Moves the bytes from `from` to `to` to the front; the result is their number.
pub fn move_down(buf: &mut [u8], from: usize, to: usize) -> usize
    ensures { Put buf.old 0 (slice from to buf.old) buf.new result }
{
    let end = to.min(buf.len());
    if from >= end {
        return 0;
    }
    buf.copy_within(from..end, 0);
    end - from
}

fn too_long(size: usize, from: usize, to: usize, long: bool) -> bool
    ensures { result ≡ too_long size from to long }
{
    long || (from == 0 && size <= to)
}

// Keeps the unfinished line from `from` to `to` in front of the buffer, for the next read; `long` says whether its
// beginning was left off before. The result is the number of bytes kept. None says that the line is longer than the
// buffer; nothing is kept of it.
pub fn keep(buf: &mut [u8], from: usize, to: usize, long: bool) -> Option<usize>
    ensures { Keeps buf.old from to long buf.new result }
{
    if too_long(buf.len(), from, to, long) {
        return None;
    }
    Some(move_down(buf, from, to))
}
