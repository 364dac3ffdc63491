// The program `opening`: hand-in text from standard input is opened, and the answer goes to standard output.
#![tactic(auto)]

ghost use Rattle.std.specs.Prelude.{◌≡◌, ◌≤◌, length, OnOk};
ghost use Rattle.std.specs.Io.KnownBytes.{Appends};
ghost use Rattle.report.specs.Report.{report};
ghost use Rattle.opening.specs.Input.{Answers, Inside, IsFrom, IsQuiet, step_of};

use std::io::{Read, Write};
use std::{fmt, io};

// What a read into the buffer answered: that it failed, or how many bytes it read. A failed read is not the end of the input, and 0 bytes are.
fn judge(got: io::Result<usize>, buffer: &[u8]) -> io::Result<usize>
    ensures { result ≡ step_of got (length buffer.now) }
{
    Ok(got?.min(buffer.len()))
}

// Reads until the input ends or the buffer is full: how many bytes were read, or that a read failed. It counts them itself, since it fills room that is lent:
// the library's `read_to_end` fills a vector, on the heap.
fn read_input<R: Read>(reader: &mut R, text: &mut [u8]) -> io::Result<usize>
    ensures inside { Inside result (length text.old) }
    ensures length { length text.new ≡ length text.old }
    ensures bytes { IsFrom (R.remaining reader.old) result text.new }
{
    let mut n = 0;
    while n < text.len() {
        let got = reader.read(&mut text[n..]);
        match judge(got, &text[n..])? {
            0 => break,
            count => n += count,
        }
    }
    Ok(n)
}

// Opens a text, and writes the answer.
fn print<W: Write>(writer: &mut W, text: &[u8]) -> io::Result<()>
    ensures { OnOk result (Appends (W.contents writer.old) (W.contents writer.new) (report text.now)) }
{
    let mut output = [0u8; 1024];
    let n = report::report(text, &mut output);
    writer.write_all(&output[..n])
}

// Which of the two failed, and why.
#[derive(Clone, Copy)]
enum Failure {
    Reading(io::Error),
    Writing(io::Error),
}

// By hand: the derive that would write it is of the package thiserror, which would be needed for this alone.
impl fmt::Display for Failure {
    fn fmt<W: fmt::Write>(&self, f: &mut fmt::Formatter<W>) -> fmt::Result {
        match self {
            Failure::Reading(error) => write!(f, "standard input: {error}"),
            Failure::Writing(error) => write!(f, "standard output: {error}"),
        }
    }
}

// Reads the input and prints its answer. A text of 40001 bytes is refused, so room for as many is enough.
fn run<R: Read, W: Write>(reader: &mut R, writer: &mut W, text: &mut [u8]) -> Result<(), Failure>
    ensures answer { 40001 ≤ length text.old → Answers result (R.remaining reader.old) (W.contents writer.old) (W.contents writer.new) }
    ensures quiet { IsQuiet result (W.contents writer.old) (W.contents writer.new) }
{
    let n = read_input(reader, text).map_err(Failure::Reading)?;
    print(writer, &text[..n]).map_err(Failure::Writing)
}

// If a read or the write failed, standard error says so.
fn main(rt: HostRuntime) {
    let mut text = [0u8; 40001];
    if let Err(failure) = run(&mut rt.reader(), &mut io::writer(&rt), &mut text) {
        let _ = eprintln!(rt; "{failure}");
    }
}
