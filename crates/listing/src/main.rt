#![tactic(auto)]

// The listing program: a text from standard input, its listing to standard output. What goes wrong with either is told on standard error.
ghost use Rattle.std.specs.Prelude.{◌≡◌, ◌+◌, ◌≤◌, length, take, IfOk, Ok};
ghost use Rattle.report.specs.Listing.{listing_done};
ghost use Rattle.solve.specs.Program.{print_into, listing_room};

use sections::Sizes;
use std::env::{Env, FillError};
use std::io;
use std::io::{IsTerminal, Read, Stdin, Write};

// One byte more than a text may have.
const ROOM: usize = Sizes::TEXT + 1;

// One read, behind the bytes that came before: how many bytes it brought, 0 at the end of the text.
fn read_on(input: Stdin, text: &mut [u8], done: usize) -> io::Result<usize>
    requires { done ≤ length text.old }
    ensures { IfOk result (λ count. done + count ≤ length text.old) }
{
    let mut input = input;
    input.read(&mut text[done..])
}

// Reads until the buffer is full, the text ends or a read fails, and then it is not the whole text. A pipe may hand the text over in parts.
fn read_text(input: Stdin, text: &mut [u8]) -> io::Result<usize>
    ensures { IfOk result (λ count. (count ≤ length text.new) × (count ≡ length (take count text.new))) }
{
    let mut done = 0;
    while done < text.len() {
        let count = read_on(input, text, done)?;
        if count == 0 {
            break;
        }
        done += count;
    }
    Ok(done)
}

// Puts the listing of a text at the front of a buffer that has room for any, and returns its length. By the theorem `every_text_is_listed` of
// solve/proofs/Listed.antt there is one.
fn fill(text: &[u8], out: &mut [u8]) -> usize
    requires { listing_room ≤ length out.old }
    ensures { listing_done (Ok result) out.new ≡ print_into out.old text.now }
{
    solve::list_text(text, out).unwrap()
}

// The system's words for an error, without the number that is printed behind them.
fn words(said: &str) -> &str {
    match said.split_once(" (os error ") {
        Some((words, _)) => words,
        None => said,
    }
}

// Says on standard error what went wrong with a standard file. Where nothing can be said the program just ends.
fn fail(rt: &HostRuntime, file: &str, error: &io::Error) -> io::Result<()> {
    let said = format!(in rt.alloc(); "{error}")?;
    eprintln!(rt; "listing: standard {file}: {}", words(said.as_str()))
}

// Writes the listing of a text, or says why it could not be written whole.
fn list(rt: &HostRuntime, text: &[u8]) {
    let mut out = [0u8; 4096];
    let n = fill(text, &mut out);
    if let Err(error) = rt.stdout().write_all(&out[..n]) {
        fail(rt, "output", &error).ok();
    }
}

fn tell_usage(rt: &HostRuntime) {
    eprintln!(rt;
        "usage: listing < DECK (no arguments; a deck that is typed here ends with Ctrl-D)"
    ).ok();
}

// Nothing is listed that was not read whole; what is longer than a text may be is refused whatever follows.
fn list_input(rt: &HostRuntime) {
    let mut text = [0u8; ROOM];
    match read_text(rt.stdin(), &mut text) {
        Ok(n) => list(rt, &text[..n]),
        Err(error) => {
            fail(rt, "input", &error).ok();
        }
    }
}

// Whether the program was called with an argument.
fn has_argument(rt: &HostRuntime) -> bool {
    !matches!(rt.arg(1, &mut []), Err(FillError::NotPresent))
}

fn main(rt: HostRuntime) {
    if has_argument(&rt) {
        tell_usage(&rt);
        return;
    }
    if rt.stdin().is_terminal() {
        tell_usage(&rt);
    }
    list_input(&rt);
}
