// The answer to a line of input, by the mode.
#![tactic(auto)]

mod answers;
mod items;
mod moments;

ghost use Rattle.std.specs.Prelude.{◌≡◌};
ghost use Rattle.line_answers.specs.Lines.{Answered, answer_line, counted, pair_answer, too_long_answer, whole_answer, without_return};

use base_refusals::Refusal;

// What a line is answered with.
#[derive(Clone, Copy)]
pub enum Mode {
    // Lines "template TAB input": the parts of the moment that is read, its instant, or its day.
    Parts,
    Instant,
    Date,
    // Lines "template TAB moment": the text.
    Write,
}

// A template and an input at their limits, and the TAB between them.
const LINE: usize = 769;

// How many bytes of a line count where a moment is written: a carriage return at the end is no part of the line.
#[tactic(auto, unfolding(crate::specs::Lines::without_return))]
fn without_return(line: &[u8]) -> usize
    ensures { result ≡ without_return line.now }
{
    match line {
        [front @ .., b'\r'] => front.len(),
        _ => line.len(),
    }
}

// How many count in a mode.
#[tactic(auto, unfolding(crate::specs::Lines::counted))]
fn counted(mode: Mode, line: &[u8]) -> usize
    ensures { result ≡ counted mode line.now }
{
    match mode {
        Mode::Parts | Mode::Instant | Mode::Date => line.len(),
        Mode::Write => without_return(line),
    }
}

fn answer_pair(mode: Mode, t: &[u8], s: &[u8], out: &mut [u8], at: usize) -> usize
    ensures { Answered out.old at (pair_answer mode t.now s.now) out.new result }
{
    match mode {
        Mode::Parts => answers::parts(t, s, out, at),
        Mode::Instant => answers::instant(t, s, out, at),
        Mode::Date => answers::day(t, s, out, at),
        Mode::Write => moments::text(t, s, out, at),
    }
}

// The line is cut at its first TAB; without one nothing follows the template.
fn answer_whole(mode: Mode, line: &[u8], out: &mut [u8], at: usize) -> usize
    ensures { Answered out.old at (whole_answer mode line.now) out.new result }
{
    let len = line.len();
    if LINE < len {
        return answer_too_long(out, at);
    }
    let cut = line_buffers::find(line, 0, b'\t');
    if cut < len {
        return answer_pair(mode, &line[0..cut], &line[cut + 1..], out, at);
    }
    answer_pair(mode, line, b"", out, at)
}

// Puts the answer to a line at `at` and gives the place after it.
pub fn answer(mode: Mode, line: &[u8], out: &mut [u8], at: usize) -> usize
    ensures { Answered out.old at (answer_line mode line.now) out.new result }
{
    let len = counted(mode, line);
    answer_whole(mode, &line[0..len], out, at)
}

// The answer to a line that is too long; of such a line the beginning may have been left off.
pub fn answer_too_long(out: &mut [u8], at: usize) -> usize
    ensures { Answered out.old at too_long_answer out.new result }
{
    items::put_report(base_refusals::report_of(Refusal::TooLong), out, at)
}
