// The program: a file comes in, the report of its check goes out as digits, and behind it, if asked, the tests (C15).
#![tactic(auto)]

ghost use Rattle.std.specs.Prelude.{true, ◌↔◌, ◌≡◌, ◌+◌, ◌≤◌, ◌<◌, List, ℕ, length, take, drop, IfOk, OnOk, OnErr};
ghost use Rattle.std.specs.Io.{ReadsAtMost};
ghost use Rattle.std.specs.Io.KnownBytes.{Appends, Consumes, IsAtEnd, ReadConsumes};
ghost use Rattle.vdcheck.specs.Printing.{TestsAsked, output_of};

use printing::{Printout, printed};
use std::env::{Env, FillError};
use std::io;
use std::io::{Read, Write};

mod printing;

// One read, into the buffer from index `from` on. None at the input's end.
fn receive_some<R: Read>(reader: &mut R, buffer: &mut [u8], from: usize) -> io::Result<usize>
    requires { from ≤ length buffer.old }
    ensures within { IfOk result (λ n. from + n ≤ length buffer.new) }
    ensures kept { take from buffer.new ≡ take from buffer.old }
    ensures bytes { ReadConsumes (R.remaining reader.old) (R.remaining reader.new) result (drop from buffer.new) }
{
    reader.read(&mut buffer[from..])
}

// Reads until the input ends, the buffer is full, or a read fails (C15.4). After a failed read the reader has given some of its bytes.
fn receive<R: Read>(reader: &mut R, buffer: &mut [u8]) -> io::Result<usize>
    ensures within { ReadsAtMost result buffer.new }
    ensures bytes { IfOk result (λ n. Consumes (R.remaining reader.old) (R.remaining reader.new) (take n buffer.new)) }
    ensures end { IfOk result (λ n. n < length buffer.new → IsAtEnd (R.remaining reader.new)) }
    ensures failed { OnErr result ((bytes : List ℕ) × Consumes (R.remaining reader.old) (R.remaining reader.new) bytes) }
{
    let mut length: usize = 0;
    // A read gives as many bytes as it has, so no range counts them.
    while length < buffer.len() {
        let more = receive_some(reader, buffer, length)?;
        if more == 0 {
            break;
        }
        length += more;
    }
    Ok(length)
}

// Whether the program is asked for the tests (C15.2), by how many arguments it has, its own name among them, and its first.
fn tests_asked(count: usize, argument: &[u8]) -> bool
    ensures { (result ≡ true) ↔ TestsAsked count argument.now }
{
    count == 2 && argument == b"--tests".as_slice()
}

// How many arguments there are, the program's own name among them. No contract can say how many a program was given, so this one has none.
fn argument_count<R: Env>(rt: &R) -> usize {
    for i in 0..usize::MAX {
        if let Err(FillError::NotPresent) = rt.arg(i, &mut []) {
            return i;
        }
    }
    usize::MAX
}

// The length of the first argument, which is put at the buffer's start; 0 if it is longer than the buffer or there is none.
fn first_argument<R: Env>(rt: &R, buffer: &mut [u8]) -> usize
    ensures { result ≤ length buffer.new }
{
    rt.arg(1, buffer).unwrap_or(0)
}

// The line, and behind it, if asked, the tests in decimal on a line of their own (C15.8).
fn print<W: Write>(out: &mut W, printout: &Printout, tests: bool) -> io::Result<()>
    ensures { OnOk result (Appends (W.contents out.old) (W.contents out.new) (output_of printout.now.line printout.now.tests tests)) }
{
    out.write_all(&printout.line)?;
    if tests {
        let tests = printout.tests;
        writeln!(out, "{tests}")?;
    }
    Ok(())
}

// No report where the arguments are others or a read fails (C15.5); the reason where the output can't be written (C15.6); the tests if asked (C15.8).
// It ends with status 0 in any case (C15.9).
fn main(rt: HostRuntime) {
    let mut argument = [0u8; 7];
    let length = first_argument(&rt, &mut argument);
    let count = argument_count(&rt);
    let tests = tests_asked(count, &argument[..length]);
    if count > 1 && !tests {
        let _ = eprintln!(rt; "vdcheck: usage: vdcheck [--tests] < FILE");
        return;
    }
    // One byte more than the longest file has: a longer input fills it, and is too long.
    let mut buffer = [0u8; 32769];
    let length = match receive(&mut rt.stdin(), &mut buffer) {
        Ok(length) => length,
        Err(error) => {
            let _ = eprintln!(rt; "vdcheck: standard input: {error}");
            return;
        }
    };
    let printout = printed(&buffer[..length]);
    if let Err(error) = print(&mut io::writer(&rt), &printout, tests) {
        let _ = eprintln!(rt; "vdcheck: standard output: {error}");
    }
}
