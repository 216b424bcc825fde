// The table program (01, "The table program"): a table on standard input, its answers on standard output. Where the input cannot be read, or the answers cannot be
// written, it says so on standard error, and its status is 1; nothing else is said there.
#![tactic(auto)]

mod input;

use input::read_input;
use std::fs::{File, OpenFile};
use std::io::{Cursor, ErrorKind, Write};
use std::process::ExitCode;
use std::rt::Files;
use std::{fs, io};
use whole::answer_whole;

// Where standard output is a file, waits until its device has what was written: of a file over a network, a system may tell only then that there was no room.
// Where the file may not be opened once more, or knows no such wait, this is not asked.
fn settle<R: Files>(rt: &R) -> io::Result<()> {
    match fs::metadata(rt, "/dev/stdout") {
        Ok(kind) if kind.is_file() => {}
        _ => return Ok(()),
    }
    match File::options().write(true).open(rt, "/dev/stdout") {
        Ok(file) => match file.sync_all() {
            Err(e) if e.kind() != ErrorKind::InvalidInput => Err(e),
            _ => Ok(()),
        },
        Err(_) => Ok(()),
    }
}

// Writes all of it, or says why not; also where the system has a fault to report at the end.
fn print<R: Files + Print>(rt: &R, answers: &[u8]) -> io::Result<()> {
    rt.write_all(answers)?;
    settle(rt)
}

// The system's own words, without the number that std writes behind them.
fn words(text: &str) -> &str {
    match text.split_once(" (os error ") {
        Some((words, _)) => words,
        None => text,
    }
}

// Says what failed and why, in one line. Where that cannot be said, the status still tells.
fn fail(rt: &impl Eprint, what: &str, e: io::Error) -> ExitCode {
    let mut text = [0u8; 256];
    let mut to = Cursor::new(&mut text[..]);
    let _ = write!(to, "{e}");
    let n = to.position() as usize;
    let why = match str::from_utf8(&text[..n.min(256)]) {
        Ok(said) => words(said),
        Err(_) => "",
    };
    let _ = eprintln!(rt; "table: {what}: {why}");
    ExitCode::FAILURE
}

fn main(rt: HostRuntime) -> ExitCode {
    let mut input = [0u8; 16385];
    // no shorter array fits `answer_whole`, which takes one that holds every output
    let mut output = [0u8; 16384];
    let n = match read_input(&mut rt.stdin(), &mut input) {
        Ok(n) => n,
        Err(e) => return fail(&rt, "cannot read the input", e),
    };
    let m = answer_whole(&input, n, &mut output);
    match print(&rt, &output[..m]) {
        Ok(()) => ExitCode::SUCCESS,
        Err(e) => fail(&rt, "cannot write the answers", e),
    }
}
