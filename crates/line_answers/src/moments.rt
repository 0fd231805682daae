// Lines "template TAB year month day hour minute second microsecond", answered with the text of the moment.
ghost use Rattle.std.specs.Prelude.{◌≡◌, ◌≤◌, length};
ghost use Rattle.line_answers.specs.Items.{item};
ghost use Rattle.line_answers.specs.Answers.{accepted};
ghost use Rattle.line_answers.specs.Moments.{moment_of, seven_of};
ghost use Rattle.line_answers.specs.Lines.{Answered, pair_answer};
ghost use Rattle.line_answers.specs.declared.Mode.TheVariants.{Write};

use crate::items::{put_accepted, put_item, put_report};
use write_pieces::Moment;

// The longest text that can be read back.
const TEXT: usize = 512;

// The numbers of a moment.
const NUMBERS: usize = 7;

// Seven numbers with a space between two; all zeros, which are no moment, for anything else.
fn seven_of(s: &[u8]) -> [i32; NUMBERS]
    ensures { result ≡ seven_of s.now }
{
    let mut values = [0i32; NUMBERS];
    let mut at = 0;
    for value in &mut values {
        if s.len() < at {
            return [0i32; NUMBERS];
        }
        let end = line_buffers::find(s, at, b' ');
        let Some(n) = line_numbers::read_int(&s[at..end]) else {
            return [0i32; NUMBERS];
        };
        *value = n;
        at = end + 1;
    }
    if at <= s.len() {
        return [0i32; NUMBERS];
    }
    values
}

fn moment_of(s: &[u8]) -> Moment
    ensures { result ≡ moment_of s.now }
{
    let v = seven_of(s);
    write_pieces::seven_numbers(v[0], v[1], v[2], v[3], v[4], v[5], v[6])
}

// A text within its limit.
fn put_text(text: &[u8], out: &mut [u8], at: usize) -> usize
    requires { length text.now ≤ 512 }
    ensures { Answered out.old at (accepted (item text.now)) out.new result }
{
    let next = put_accepted(out, at);
    put_item(text, out, next)
}

pub fn text(t: &[u8], s: &[u8], out: &mut [u8], at: usize) -> usize
    ensures { Answered out.old at (pair_answer Write t.now s.now) out.new result }
{
    let mut buffer = [0u8; TEXT];
    match write_text::write(base_settings::pages(), t, moment_of(s), &mut buffer) {
        Ok(len) => put_text(&buffer[0..len], out, at),
        Err(why) => put_report(write_text::report_of(why), out, at),
    }
}
