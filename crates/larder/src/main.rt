// Answers a job script, a line at a time. The script is the file that the one argument names, or standard input.
#![tactic(auto)]

mod input;

use input::{Line, next_line};
use job::error::JobError;
use job::reply::reply_to;
use job::unreadable::Unreadable;
use std::alloc::Global;
use std::env::Args;
use std::fs::File;
use std::io::{BufReader, BufWriter, Read, Write};
use std::process::ExitCode;
use std::{env, io};

// Room for a line at the start, so that a line of usual length is read even where there is no more memory.
const ROOM: usize = 65536;

fn main(rt: HostRuntime) -> ExitCode {
    let res = match env::args(&rt) {
        Ok(args) => run(&rt, args),
        Err(e) => said(&rt, "arguments", Err(e)),
    };
    // What went wrong is said already: an error that `main` returned would be printed once more.
    match res {
        Ok(()) => ExitCode::SUCCESS,
        Err(_) => ExitCode::FAILURE,
    }
}

fn run(rt: &HostRuntime, mut args: Args) -> io::Result<()> {
    let _program = args.next();
    match (args.next(), args.next()) {
        (None, _) => said(rt, "standard input", answer(rt, rt.stdin())),
        (Some(path), None) => said(rt, path.as_str(), answer_file(rt, path.as_str())),
        (Some(_), Some(_)) => {
            eprintln!(rt; "usage: larder [FILE]")?;
            Err(io::Error::from(io::ErrorKind::InvalidInput))
        }
    }
}

// Says on standard error what went wrong, and of what.
fn said(rt: &HostRuntime, what: &str, res: io::Result<()>) -> io::Result<()> {
    if let Err(e) = &res {
        eprintln!(rt; "larder: {what}: {e}")?;
    }
    res
}

fn answer_file(rt: &HostRuntime, path: &str) -> io::Result<()> {
    answer(rt, File::open(rt, path)?)
}

fn answer<R: Read + Drop>(rt: &HostRuntime, script: R) -> io::Result<()> {
    let heap = rt.alloc();
    let mut script = BufReader::new(heap, script)?;
    let mut out = BufWriter::new(heap, rt.stdout())?;
    let mut line = Vec::with_capacity(heap, ROOM)?;
    // A loop until the input ends: one that counts nothing would take a handle to wait, which no function here may.
    for _ in 0..u64::MAX {
        match next_line(&mut script, &mut line)? {
            Line::Whole => print_reply(&mut out, heap, line.as_slice())?,
            Line::TooLong => out.writeln(JobError::Unread(Unreadable::OutOfMemory))?,
            Line::End => break,
        }
        // Who waits for an answer before the next line gets it.
        if script.buffer().is_empty() {
            out.flush()?;
        }
    }
    out.flush()
}

fn print_reply<W: Write>(out: &mut W, heap: Global, line: &[u8]) -> io::Result<()> {
    match reply_to(heap, line) {
        Ok(Some(setting)) => out.writeln(setting),
        Ok(None) => Ok(()),
        Err(error) => out.writeln(error),
    }
}
