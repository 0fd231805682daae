// Answers the lines of a text, in a mode that has a name.
#![tactic(auto)]

mod modes;

ghost use Rattle.line_texts.specs.Texts.{AnswersLine, AnswersLines};

use line_answers::Mode;
pub use modes::choice_of;

// Room for any answer: the longest is a 0, a space, a text of 512 bytes and the newline.
const LONGEST: usize = 515;

// The lines of a text that are answered: `from` is where the next one begins, `at` where the answers end. `long` says
// that the beginning of the next line was left off.
#[derive(Clone, Copy)]
pub struct Done {
    pub from: usize,
    pub at: usize,
    pub long: bool,
}

// Answers one line; `long` says that its beginning was left off.
pub fn answer_line(mode: Mode, line: &[u8], long: bool, out: &mut [u8], at: usize) -> usize
    ensures { AnswersLine mode long line.now out.old at out.new result }
{
    if long {
        let end = line_answers::answer_too_long(out, at);
        return line_buffers::put_byte(b'\n', out, end);
    }
    let end = line_answers::answer(mode, line, out, at);
    line_buffers::put_byte(b'\n', out, end)
}

// Answers the lines that end in a text, from the front of the buffer on, while there is room for one more answer.
pub fn answer_lines(mode: Mode, text: &[u8], long: bool, out: &mut [u8]) -> Done
    ensures { AnswersLines mode long text.now out.old out.new result }
{
    let mut s = Done {
        from: 0,
        at: 0,
        long,
    };
    let mut end = line_buffers::find(text, 0, b'\n');
    while end < text.len() {
        if out.len() - s.at < LONGEST {
            return s;
        }
        let from = s.from;
        let next = answer_line(mode, &text[from..end], s.long, out, s.at);
        s = Done {
            from: end + 1,
            at: next,
            long: false,
        };
        end = line_buffers::find(text, end + 1, b'\n');
    }
    s
}
