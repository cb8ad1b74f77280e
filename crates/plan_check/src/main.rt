// The check program (document 01, "The check program"): one file from standard input, one answer to standard output. What is printed is
// proved in report, and what is read as the file in input. An input that cannot be read to its end has no verdict: nothing is printed, and
// standard error says so, as it does of an answer that cannot be written.
#![tactic(auto)]

ghost use Rattle.std.specs.Prelude.{◌≡◌, OnOk};
ghost use Rattle.std.specs.Io.KnownBytes.{Appends};
ghost use Rattle.spec_calls.specs.Printing.{program_text};
ghost use Rattle.plan_check.specs.Answering.{Answers};

use std::error::Error;
use std::io::{Read, Write};
use std::{fmt, io};

// Why a check did not answer: the input cannot be read to its end, or the answer cannot be written.
#[derive(Clone, Copy, Debug, PartialEq, Eq)]
enum CheckError {
    Unread,
    Unwritten,
}

impl fmt::Display for CheckError {
    fn fmt<W: fmt::Write>(&self, f: &mut fmt::Formatter<W>) -> fmt::Result {
        match self {
            CheckError::Unread => write!(f, "the input cannot be read"),
            CheckError::Unwritten => write!(f, "the answer cannot be written"),
        }
    }
}

impl Error for CheckError {}

// Writes `text` to `output`. It is the only write there is to it, and its `requires` says that `text` is all of document 01's text for `file`,
// and nothing else.
fn print<W: Write>(output: &mut W, file: &[u8], text: &[u8]) -> io::Result<()>
    requires { text.now ≡ program_text file.now }
    ensures { OnOk result (Appends (W.contents output.old) (W.contents output.new) (program_text file.now)) }
{
    output.write_all(text)
}

// Prints the answer for `file`.
fn answer<W: Write>(output: &mut W, file: &[u8]) -> io::Result<()>
    ensures { OnOk result (Appends (W.contents output.old) (W.contents output.new) (program_text file.now)) }
{
    let mut text = [0u8; host_report::TEXT];
    let size = host_report::answer(file, &mut text);
    print(output, file, &text[..size])
}

// Reads a file from `input`, and prints its answer to `output`.
fn check<R: Read, W: Write>(input: &mut R, output: &mut W) -> Result<(), CheckError>
    ensures { Answers (R.remaining input.old) (W.contents output.old) (W.contents output.new) result }
{
    let mut bytes = [0u8; host_input::ROOM];
    let n = host_input::read(input, &mut bytes).map_err(|_| CheckError::Unread)?;
    answer(output, &bytes[..n]).map_err(|_| CheckError::Unwritten)
}

// A check that did not answer says so on standard error, and the status is 0 all the same. Nothing can be done where that write fails.
fn main(rt: HostRuntime) {
    if let Err(e) = check(&mut rt.stdin(), &mut rt.stdout()) {
        let _ = eprintln!(rt; "plan_check: {e}");
    }
}
