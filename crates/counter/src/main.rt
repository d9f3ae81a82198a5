// The counter program (01, "The sheet program"): a sheet on standard input, its answers on standard output. The answers go out piece by
// piece, so that a sheet may be answered by more bytes than are held at a time.
//
// A sheet that cannot be read to its end is not run, and after a failed write nothing more is written. Either is said on standard error.
// The exit status says nothing: whoever starts the program with the argument `report` is told by a last line on standard error that the sheet
// was read and every answer written. That line missing, for whatever reason, means that they were not.
#![tactic(auto)]

ghost use Rattle.std.specs.Prelude.{OnOk};
ghost use Rattle.std.specs.Io.{ReadsAtMost};
ghost use Rattle.std.specs.Io.KnownBytes.{Appends};

use sheet::Piece;
use std::env::{Env, FillError};
use std::io::{Error, ErrorKind, Read, Write};
use std::time::{Clock, Duration};
use std::{fmt, str};

// A proved loop has to end, and nothing says that the other end of a pipe ever does something. So the loops below count their turns, up to a
// number that no run uses up.
const TURNS: u64 = u64::MAX;

// Why not every answer of a sheet was written.
#[derive(Drop)]
enum Failure {
    // an error on the way, after which nobody knows how the sheet goes on
    Unread(Error),
    Unwritten(Error),
    // a write that took nothing, and named no error
    Untaken,
}

impl fmt::Display for Failure {
    fn fmt<W: fmt::Write>(&self, f: &mut fmt::Formatter<W>) -> fmt::Result {
        let mut space = [0u8; 256];
        match self {
            Failure::Unread(error) => {
                write!(f, "the sheet cannot be read: {}", reason(error, &mut space))
            }
            Failure::Unwritten(error) => {
                write!(
                    f,
                    "the answers cannot be written: {}",
                    reason(error, &mut space)
                )
            }
            Failure::Untaken => write!(f, "the answers cannot be written: nothing was taken"),
        }
    }
}

// The system's words for an error, without the number that std puts behind them.
fn reason<'a>(error: &Error, space: &'a mut [u8; 256]) -> &'a str {
    let mut rest = &mut space[..];
    let _ = write!(rest, "{error}");
    let left = rest.len();
    let n = space.len().saturating_sub(left);
    let said = str::from_utf8(&space[..n]).unwrap_or("");
    said.split_once(" (os error ")
        .map_or(said, |(words, _)| words)
}

// Lets another read or write follow one that failed where a signal came in between, or where the other end of the pipe is not ready: it is given about a
// millisecond, so that waiting for it leaves the processor free. None follows any other error.
fn try_again(rt: &impl Clock, error: Error) -> Result<(), Error> {
    match error.kind() {
        ErrorKind::Interrupted => Ok(()),
        ErrorKind::WouldBlock => {
            rt.sleep(Duration::from_millis(1));
            Ok(())
        }
        _ => Err(error),
    }
}

// Reads until the input ends or `sheet` is full, and gives how many bytes were read.
fn read_sheet(rt: &impl Clock, input: &mut impl Read, sheet: &mut [u8]) -> Result<usize, Failure>
    ensures { ReadsAtMost result sheet.new }
{
    let mut done: usize = 0;
    for _ in 0..TURNS {
        if sheet.len() <= done {
            return Ok(done);
        }
        match input.read(&mut sheet[done..]) {
            Ok(0) => return Ok(done),
            Ok(n) => done += n,
            Err(error) => try_again(rt, error).map_err(Failure::Unread)?,
        }
    }
    Err(Failure::Unread(Error::from(ErrorKind::TimedOut)))
}

// Writes all of `answers`. A write that takes nothing and names no error might do so for ever, and so counts as a failure.
fn write_answers<W: Write>(rt: &impl Clock, output: &mut W, answers: &[u8]) -> Result<(), Failure>
    ensures { OnOk result (Appends (W.contents output.old) (W.contents output.new) answers.now) }
{
    let mut rest = answers;
    for _ in 0..TURNS {
        if rest.is_empty() {
            return Ok(());
        }
        match output.write(rest) {
            Ok(0) => return Err(Failure::Untaken),
            Ok(n) => rest = &rest[n..],
            Err(error) => try_again(rt, error).map_err(Failure::Unwritten)?,
        }
    }
    Err(Failure::Unwritten(Error::from(ErrorKind::TimedOut)))
}

// Writes the answers to a sheet: piece by piece, each from where the one before it ended, until the sheet is over.
fn answer(rt: &impl Clock, output: &mut impl Write, sheet: &[u8]) -> Result<(), Failure> {
    let mut out = [0u8; 65536];
    let mut piece = Piece {
        state: state::blank(),
        next: 0,
        written: 0,
    };
    // Where a piece begins only the one before it tells.
    while piece.next < sheet.len() {
        piece = sheet::next_piece(piece.state, sheet, piece.next, &mut out);
        write_answers(rt, output, &out[..piece.written])?;
    }
    Ok(())
}

// Reads a sheet and writes its answers.
fn serve(rt: &impl Clock, input: &mut impl Read, output: &mut impl Write) -> Result<(), Failure> {
    // One byte more than a sheet has at the most, so that one that is too long is told from one that is not.
    let mut sheet = [0u8; 65537];
    let n = read_sheet(rt, input, &mut sheet)?;
    answer(rt, output, &sheet[..n])
}

// Whether the program was started with the one argument `report`.
fn is_reporting(rt: &impl Env) -> bool {
    let mut word = [0u8; 6];
    let Ok(n) = rt.arg(1, &mut word) else {
        return false;
    };
    let mut more = [0u8; 1];
    let is_last = matches!(rt.arg(2, &mut more), Err(FillError::NotPresent));
    is_last && matches!(&word[..n], b"report")
}

fn main(rt: HostRuntime) {
    match serve(&rt, &mut rt.stdin(), &mut rt.stdout()) {
        Ok(()) => {
            if is_reporting(&rt) {
                let _ = eprintln!(rt; "counter: complete");
            }
        }
        Err(failure) => {
            let _ = eprintln!(rt; "counter: {failure}");
        }
    }
}
