// Answers questions about the ported functions: each line of standard input is one, and its answer is a line. A
// question that is unknown or malformed is answered by `?`. Output that nobody reads any longer ends the program.
#![tactic(auto)]

mod questions;

ghost use Rattle.std.specs.Prelude.{◌≤◌, ◌<◌, ⊤, IfOk, MatchOption, length};

use std::io::{ErrorKind, Read};
use std::process::ExitCode;

// The bytes of the input's buffer and of the answers'.
const BUFFER: usize = 65536;

// Room for any answer: the longest is that of `parse`, 256 nodes of 15 bytes, and its newline.
const LONGEST: usize = 4096;

// The status where nobody reads the output any longer: the one that a shell gives a program that SIGPIPE ended.
const CLOSED: u8 = 141;

// Nobody reads the answers any longer.
#[derive(Clone, Copy)]
struct Closed;

// Where the answers to the lines of a text end: in the text, and in the buffer. `long` says that the next line began
// before the text.
#[derive(Clone, Copy)]
struct Answered {
    from: usize,
    at: usize,
    long: bool,
}

// What is left between two reads: the bytes kept of an unfinished line, none where it is too long, the answers not yet
// written, and how many reads may come. A proved loop has to end, and nothing says that the input does: so the reads
// are counted.
#[derive(Clone, Copy)]
struct State {
    kept: Option<usize>,
    at: usize,
    reads: u64,
}

// Reads after the bytes that are kept; the answer is the end of all. What cannot be read ends the input.
fn read_on(reader: &mut impl Read, input: &mut [u8], kept: usize) -> usize
    requires { kept ≤ length input.old }
    ensures { result ≤ length input.new }
{
    match reader.read(&mut input[kept..]) {
        Ok(count) => kept + count,
        Err(_) => kept,
    }
}

// Writes answers. A failure is ignored unless it is that nobody reads them any longer.
fn write_out(rt: &impl Print, answers: &[u8]) -> Result<(), Closed> {
    match rt.write_all(answers) {
        Ok(()) => Ok(()),
        Err(error) => {
            if error.kind() == ErrorKind::BrokenPipe {
                return Err(Closed);
            }
            Ok(())
        }
    }
}

// Writes the answers out where there may be no room for one more. The result is where the next one begins.
fn make_room(rt: &impl Print, out: &[u8], at: usize) -> Result<usize, Closed>
    requires { at ≤ length out.now }
    ensures { IfOk result (λ at. at ≤ length out.now) }
{
    if LONGEST <= out.len() - at {
        return Ok(at);
    }
    write_out(rt, &out[0..at])?;
    Ok(0)
}

// Answers one line; one that is too long is no question. The result is where the answers end in their buffer.
fn answer_line(
    rt: &impl Print,
    line: &[u8],
    long: bool,
    out: &mut [u8],
    at: usize,
) -> Result<usize, Closed>
    requires { at ≤ length out.old }
    ensures { IfOk result (λ end. end ≤ length out.new) }
{
    let from = make_room(rt, out, at)?;
    if long {
        let end = questions::unknown(out, from);
        return Ok(line_buffers::put_byte(b'\n', out, end));
    }
    let end = questions::answer(line, out, from);
    Ok(line_buffers::put_byte(b'\n', out, end))
}

// Answers the lines that end in a text.
fn answer_lines(
    rt: &impl Print,
    text: &[u8],
    long: bool,
    out: &mut [u8],
    at: usize,
) -> Result<Answered, Closed>
    requires { at ≤ length out.old }
    ensures { IfOk result (λ a. a.at ≤ length out.new) }
{
    let mut s = Answered { from: 0, at, long };
    let mut end = line_buffers::find(text, 0, b'\n');
    while end < text.len() {
        let from = s.from;
        let next = answer_line(rt, &text[from..end], s.long, out, s.at)?;
        s = Answered {
            from: end + 1,
            at: next,
            long: false,
        };
        end = line_buffers::find(text, end + 1, b'\n');
    }
    Ok(s)
}

// Reads once and answers the lines that end there. At the end of the input no read is left.
fn turn(
    rt: &impl Print,
    reader: &mut impl Read,
    input: &mut [u8],
    out: &mut [u8],
    s: State,
) -> Result<State, Closed>
    requires { MatchOption s.kept ⊤ (λ n. n ≤ length input.old) × (s.at ≤ length out.old) × (0 < s.reads) }
    ensures { IfOk result (λ t. MatchOption t.kept ⊤ (λ n. n ≤ length input.new) × (t.at ≤ length out.new) × (t.reads < s.reads)) }
{
    let kept = s.kept.unwrap_or(0);
    let end = read_on(reader, input, kept);
    if end == kept {
        return Ok(State { reads: 0, ..s });
    }
    let a = answer_lines(rt, &input[0..end], s.kept.is_none(), out, s.at)?;
    Ok(State {
        kept: line_buffers::keep(input, a.from, end, a.long),
        at: a.at,
        reads: s.reads - 1,
    })
}

// Answers the last line, where it has no newline.
fn answer_last(
    rt: &impl Print,
    line: &[u8],
    long: bool,
    out: &mut [u8],
    at: usize,
) -> Result<usize, Closed>
    requires { at ≤ length out.old }
    ensures { IfOk result (λ end. end ≤ length out.new) }
{
    if !long && line.is_empty() {
        return Ok(at);
    }
    answer_line(rt, line, long, out, at)
}

// Answers all lines.
fn answer_all(rt: &(impl Input + Print), input: &mut [u8], out: &mut [u8]) -> Result<(), Closed> {
    let mut reader = rt.reader();
    let mut s = State {
        kept: Some(0),
        at: 0,
        reads: u64::MAX,
    };
    while s.reads > 0 {
        s = turn(rt, &mut reader, input, out, s)?;
    }
    let kept = s.kept.unwrap_or(0);
    let end = answer_last(rt, &input[0..kept], s.kept.is_none(), out, s.at)?;
    write_out(rt, &out[0..end])
}

fn main(rt: HostRuntime) -> ExitCode {
    let mut input = [0u8; BUFFER];
    let mut output = [0u8; BUFFER];
    match answer_all(&rt, &mut input, &mut output) {
        Err(Closed) => ExitCode::from(CLOSED),
        Ok(()) => ExitCode::SUCCESS,
    }
}
