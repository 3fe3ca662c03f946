//! The program `qpidq`: makes the real source, sink and disk, calls the top call, and ends with the code of its
//! status.
#![tactic(auto)]

use broker_top::{Status, journal_path, run_command};
use disk_core::{Disk, FileDisk};
use outside_io::{FreeGate, Sink, Source, StdSink, StdSource};
use std::alloc::{AllocError, Global};
use std::env::Env;
use std::io::{BufWriter, ErrorKind, Write};
use std::process::ExitCode;
use std::sync::Wait;
use std::thread::Threads;
use std::{env, io};
use target_core::{CONSUMERS, PlainTarget, Target};

/// What is printed on standard error where the words are refused.
const USAGE: &str = "usage: qpidq run
       qpidq select TEXT
       qpidq init PATH
       qpidq recover PATH
       qpidq gen NUMBER COUNT
  run     Reads a script from standard input, runs its actors beside each other,
          and writes each line's answer and what the queues hold to standard
          output.
  select  Reads messages from standard input, one a line, and writes for each
          what the selector TEXT is of it: true, false or unknown. TEXT is not
          empty and does not begin with '-'; ' -1 < a' does not.
  init    Makes the file PATH, which must be empty or missing, a journal.
  recover Writes each entry that the journal PATH still holds, and how many
          commits and entries there are.
  gen     Runs the script that NUMBER, of up to 19 digits, makes for COUNT
          messages, 1 to 100000, and writes one line that tells of the run.
docs/SCRIPT.md has the lines, docs/SELECTORS.md the selectors.";

/// The words after the program's name. Words that are not text count as none.
fn words_of(rt: &(impl Env + AllocGlobal)) -> io::Result<Vec<String>> {
    let mut words = Vec::new(rt.alloc());
    match env::args(rt) {
        Ok(args) => {
            for word in args.skip(1) {
                words.push(word)?;
            }
            Ok(words)
        }
        Err(error) if error.kind() == ErrorKind::OutOfMemory => Err(error),
        Err(_) => Ok(words),
    }
}

/// The file of the journal that the words name, as a disk; without a journal one of an empty name, which no call opens.
fn disk_of(rt: HostRuntime, words: &[String]) -> Result<FileDisk, AllocError> {
    let path = String::from_str(rt.alloc(), journal_path(words).unwrap_or(""))?;
    Ok(FileDisk::named(rt, path))
}

/// Does what these words ask for on this disk, with a target for each consumer that takes all that it is handed.
fn run_words<R: Threads + Wait + Clone + Send + Sync + Drop, S: Source, K: Sink, D: Disk + Drop>(
    rt: &R,
    alloc: Global,
    words: &[String],
    input: &mut S,
    out: &mut K,
    disk: D,
) -> Result<Status, AllocError> {
    let mut targets: Vec<Box<dyn Target>> = Vec::new(alloc);
    'consumers: for _consumer in 0..CONSUMERS {
        targets.push(Box::new(alloc, PlainTarget::make(alloc, None))?)?;
    }
    let (status, _disk, _targets) = run_command(
        rt, alloc, words, input, out, disk, &FreeGate, targets,
    );
    Ok(status)
}

/// The status that a run ends with whose output is flushed now: where that fails, the sink failed.
fn flushed(status: Status, writer: &mut impl Write) -> Status {
    match writer.flush() {
        Ok(()) => status,
        Err(_) => Status::WriteFault,
    }
}

fn main(rt: HostRuntime) -> ExitCode {
    let Ok(words) = words_of(&rt) else {
        return ExitCode::from(Status::NoMemory.code());
    };
    let Ok(disk) = disk_of(rt, &words) else {
        return ExitCode::from(Status::NoMemory.code());
    };
    let Ok(mut writer) = BufWriter::new(rt.alloc(), io::writer(&rt)) else {
        return ExitCode::from(Status::NoMemory.code());
    };
    let mut input = StdSource::new(rt.reader());
    let mut out = StdSink::new(&mut writer);
    let ran = run_words(&rt, rt.alloc(), &words, &mut input, &mut out, disk);
    let status = flushed(ran.unwrap_or(Status::NoMemory), &mut writer);
    if status == Status::WordsRefused {
        let _ = rt.eprintln(USAGE);
    }
    ExitCode::from(status.code())
}
