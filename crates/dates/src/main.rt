// Reads lines and answers each with a line, by the mode that its argument names. The answers to all lines that were
// read are written before more is read. What cannot be read or written is reported on standard error, and ends the
// program. Output that nobody reads any longer ends it too, without a report.
#![tactic(auto)]

ghost use Rattle.std.specs.Prelude.{◌≤◌, ◌<◌, ⊤, IfOk, MatchOption, length, drop};
ghost use Rattle.line_texts.specs.Texts.{NoneLeft, longest};

use line_answers::Mode;
use std::env::{Env, FillError};
use std::fmt::InlineText;
use std::io;
use std::io::{ErrorKind, Read};
use std::process::ExitCode;

// The bytes of the input's buffer and of the answers'.
const BUFFER: usize = 65536;

// The status where nobody reads the output any longer: the one that a shell gives a program that SIGPIPE ended.
const CLOSED: u8 = 141;

// Why no more is read and answered: nobody reads the output any longer, or what failed was reported.
#[derive(Clone, Copy)]
enum Stop {
    Closed,
    Reported,
}

// What is left between two reads: the bytes kept of an unfinished line, none where its beginning was left off, and how
// many reads may come. A proved loop has to end, and nothing says that the input does: so the reads are counted.
#[derive(Clone, Copy)]
struct State {
    kept: Option<usize>,
    reads: u64,
}

// What is left of a text: its lines before `from` are answered. `long` says that the next line began before the text.
#[derive(Clone, Copy)]
struct Rest {
    from: usize,
    long: bool,
}

// Says on standard error what failed, and why in the system's words, without the error's number.
fn report(rt: &impl Eprint, what: &str, error: io::Error) {
    let text = InlineText::<128>::of(error);
    let words = text.as_str();
    let why = match words.split_once(" (os error ") {
        Some((why, _)) => why,
        None => words,
    };
    let _ = eprintln!(rt; "dates: {what}: {why}");
}

// Reads after the bytes that are kept. The result is where the input ends in its buffer.
fn read_on(
    rt: &impl Eprint,
    reader: &mut impl Read,
    input: &mut [u8],
    kept: usize,
) -> Result<usize, Stop>
    requires { kept ≤ length input.old }
    ensures { IfOk result (λ end. end ≤ length input.new) }
{
    match reader.read(&mut input[kept..]) {
        Ok(count) => Ok(kept + count),
        Err(error) => {
            report(rt, "standard input", error);
            Err(Stop::Reported)
        }
    }
}

// Writes answers.
fn write_out(rt: &(impl Print + Eprint), answers: &[u8]) -> Result<(), Stop> {
    match rt.write_all(answers) {
        Ok(()) => Ok(()),
        Err(error) => {
            if error.kind() == ErrorKind::BrokenPipe {
                return Err(Stop::Closed);
            }
            report(rt, "standard output", error);
            Err(Stop::Reported)
        }
    }
}

// Answers the lines that end in a text, a buffer full of answers at a time. Unless it fails, none of them is left.
fn answer_text(
    rt: &(impl Print + Eprint),
    mode: Mode,
    text: &[u8],
    long: bool,
    out: &mut [u8],
) -> Result<Rest, Stop>
    requires { longest ≤ length out.old }
    ensures { IfOk result (λ rest. NoneLeft (drop rest.from text.now)) }
{
    let mut s = Rest { from: 0, long };
    while s.from < text.len() {
        let from = s.from;
        let a = line_texts::answer_lines(mode, &text[from..], s.long, out);
        let at = a.at;
        write_out(rt, &out[0..at])?;
        if a.from == 0 {
            return Ok(s);
        }
        s = Rest {
            from: from + a.from,
            long: a.long,
        };
    }
    Ok(s)
}

// Reads once and answers the lines that end there. At the end of the input no read is left.
fn turn(
    rt: &(impl Print + Eprint),
    reader: &mut impl Read,
    mode: Mode,
    input: &mut [u8],
    out: &mut [u8],
    s: State,
) -> Result<State, Stop>
    requires { MatchOption s.kept ⊤ (λ n. n ≤ length input.old) × (longest ≤ length out.old) × (0 < s.reads) }
    ensures { IfOk result (λ t. MatchOption t.kept ⊤ (λ n. n ≤ length input.new) × (t.reads < s.reads)) }
{
    let kept = s.kept.unwrap_or(0);
    let end = read_on(rt, reader, input, kept)?;
    if end == kept {
        return Ok(State { reads: 0, ..s });
    }
    let rest = answer_text(rt, mode, &input[0..end], s.kept.is_none(), out)?;
    Ok(State {
        kept: line_buffers::keep(input, rest.from, end, rest.long),
        reads: s.reads - 1,
    })
}

// Answers the last line, where it has no newline.
fn answer_last(
    rt: &(impl Print + Eprint),
    mode: Mode,
    line: &[u8],
    long: bool,
    out: &mut [u8],
) -> Result<(), Stop> {
    if !long && line.is_empty() {
        return Ok(());
    }
    let end = line_texts::answer_line(mode, line, long, out, 0);
    write_out(rt, &out[0..end])
}

// Answers all lines.
fn answer_all(
    rt: &(impl Input + Print + Eprint),
    mode: Mode,
    input: &mut [u8],
    out: &mut [u8],
) -> Result<(), Stop>
    requires { longest ≤ length out.old }
{
    let mut reader = rt.reader();
    let mut s = State {
        kept: Some(0),
        reads: u64::MAX,
    };
    while s.reads > 0 {
        s = turn(rt, &mut reader, mode, input, out, s)?;
    }
    let kept = s.kept.unwrap_or(0);
    answer_last(rt, mode, &input[0..kept], s.kept.is_none(), out)
}

// The mode that the one argument names, and parts without any. An argument longer than the buffer is read as an empty
// name.
fn chosen(rt: &impl Env) -> Option<Mode> {
    let mut name = [0u8; 16];
    if !matches!(rt.arg(2, &mut name), Err(FillError::NotPresent)) {
        return None;
    }
    match rt.arg(1, &mut name) {
        Ok(len) => line_texts::choice_of(&name[0..len]),
        Err(FillError::TooLong) => line_texts::choice_of(b""),
        Err(FillError::NotPresent) => Some(Mode::Parts),
    }
}

fn main(rt: HostRuntime) -> ExitCode {
    let Some(mode) = chosen(&rt) else {
        let _ = eprintln!(rt; "dates: the one argument is parts, instant, date or write");
        return ExitCode::SUCCESS;
    };
    let mut input = [0u8; BUFFER];
    let mut output = [0u8; BUFFER];
    match answer_all(&rt, mode, &mut input, &mut output) {
        Err(Stop::Closed) => ExitCode::from(CLOSED),
        Err(Stop::Reported) | Ok(()) => ExitCode::SUCCESS,
    }
}
