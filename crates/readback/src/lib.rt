// Writing a moment and reading it back: the promise that both keep, as the contract of one function.
#![tactic(auto)]

ghost use Rattle.std.specs.Prelude.{◌≡◌, Ok, length};
ghost use Rattle.readback.specs.ReadBack.{WroteAndRead, read_again};

use base_settings::Settings;
use moment_instants::Undated;
use moment_parts::{Parts, Unread};
use write_pieces::Moment;
use write_text::Unwritten;

// What is read again: the text's length, and the three answers to it.
#[derive(Clone, Copy)]
pub struct Again {
    pub length: usize,
    pub parts: Result<Parts, Unread>,
    pub instant: Result<i64, Undated>,
    pub day: Result<i32, Undated>,
}

// A text's length, and the three answers to it.
fn read_by_all(set: Settings, t: &[u8], text: &[u8]) -> Again
    ensures { Ok result ≡ read_again set t.now text.now (Ok (length text.now)) }
{
    Again {
        length: text.len(),
        parts: moment_parts::to_timestamp_parts(set, t, text),
        instant: moment_instants::to_timestamp_text(set, t, text),
        day: moment_instants::to_date_text(set, t, text),
    }
}

// Writes a moment by a template into the buffer, and reads the text by the same template, by all three answers; or
// why nothing was written.
pub fn write_and_read(
    set: Settings,
    t: &[u8],
    m: Moment,
    out: &mut [u8],
) -> Result<Again, Unwritten>
    ensures { WroteAndRead set t.now m out.old out.new result }
{
    let n = write_text::write(set, t, m, out)?;
    Ok(read_by_all(set, t, &out[..n]))
}
