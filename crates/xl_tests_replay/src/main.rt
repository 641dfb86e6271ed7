//! Replays scenarios: standard input holds cases, one behind the other, and standard output tells what each comes to.
//!
//! A case is a line `== NAME READS WRITES WORD ..` and, behind it, the text that the program of these words reads. The
//! READSth read and the WRITESth write fail; none does if the number is 0. The text ends before the line feed that the
//! next case's line follows. What is told is a line `== NAME`, a line of the status, the number of the bad line and how
//! many entries the journal has, and what the program writes. `tools/join_scenarios.py` makes the cases of what stands
//! in `scenarios/`.
#![tactic(auto)]

use std::alloc::{AllocError, Global};
use std::io::{self, Write};
use std::process::ExitCode;
use std::sync::Wait;
use std::thread::Threads;
use xl_base::{MemorySink, MemorySource};
use xl_tests_served::ended;

/// A program's words, which of its reads and writes fail, and what it reads.
#[derive(Drop)]
struct Case<'a> {
    name: &'a str,
    reads: u64,
    writes: u64,
    words: &'a str,
    input: &'a str,
}

fn number_in(word: Option<&str>) -> u64 {
    word.and_then(|word| word.parse().ok()).unwrap_or(0)
}

/// The case that a text is, from its name on.
fn case_of(text: &str) -> Case<'_> {
    let (head, input) = text.split_once('\n').unwrap_or((text, ""));
    let mut words = head.splitn(4, ' ');
    let name = words.next().unwrap_or("");
    let reads = number_in(words.next());
    let writes = number_in(words.next());
    Case {
        name,
        reads,
        writes,
        words: words.next().unwrap_or(""),
        input,
    }
}

/// The words of a text that are parted by one blank.
fn words_of(alloc: Global, text: &str) -> Result<Vec<String>, AllocError> {
    let mut words = Vec::new(alloc);
    for word in text.split(' ') {
        words.push(String::from_str(alloc, word)?)?;
    }
    Ok(words)
}

/// What is told of a case.
fn told<R: Threads + Wait + Sync>(
    rt: &R,
    alloc: Global,
    case: &Case<'_>,
) -> Result<Vec<u8>, AllocError> {
    let words = words_of(alloc, case.words)?;
    let input = Vec::from_slice(alloc, case.input.as_bytes())?;
    let mut source = MemorySource::new(input, Vec::from_slice(alloc, &[case.reads])?);
    let mut sink = MemorySink::new(alloc, Vec::from_slice(alloc, &[case.writes])?);
    let (status, line, entries) = ended(rt, alloc, &words, &mut source, &mut sink);
    let mut text = format!(in alloc; "== {}\n{status} {line} {entries}\n", case.name)?.into_bytes();
    text.extend_from_slice(sink.bytes())?;
    text.push(b'\n')?;
    Ok(text)
}

fn replay<R: Threads + Wait + Sync + Print + Input + AllocGlobal>(rt: &R) -> io::Result<()> {
    let text = io::read_to_string(rt.alloc(), rt.reader())?;
    let mut out = io::writer(rt);
    let text = text.strip_suffix('\n').unwrap_or(&text);
    for case in text.strip_prefix("== ").unwrap_or(text).split("\n== ") {
        let told = told(rt, rt.alloc(), &case_of(case))?;
        out.write_all(&told)?;
    }
    out.flush()
}

fn main(rt: HostRuntime) -> ExitCode {
    match replay(&rt) {
        Ok(()) => ExitCode::from(0),
        Err(_) => ExitCode::from(1),
    }
}
