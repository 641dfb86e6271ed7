//! Replays of captures by `run`, and what they answer.
//!
//! The cases of a text are parted by lines of two hyphens. Each is a capture, a line `=>`, and what a replay answers: its
//! status, the number of the line and how many entries its journal has, and behind them the transcript. A line
//! `* COUNT NUMBER STEP PLACE LINE` is so many lines, in which `#` is the number in hex, `$` the next number, `%` and `&` the same
//! from their lowest byte on, and `@` the place in decimal. From line to line the number rises by the step, the place by one. Above
//! each message stand its words, as `tools/capture_from_words.py` has them.

ghost use Rattle.std.specs.Prelude.{◌≡◌, vec_len};

use std::alloc::{AllocError, Global};
use std::fmt::Write;
use std::sync::Wait;
use std::thread::Threads;
use xl_base::{
    MemoryCaller, MemoryClock, MemoryKeeper, MemoryLane, MemorySink, MemorySource, Moment, Record,
    Source,
};
use xl_top::{Outside, run};

/// A keeper in memory, and no lanes and callers.
pub fn nobody(alloc: Global) -> Outside<MemoryKeeper, MemoryLane, MemoryCaller, MemoryClock>
    ensures { (vec_len result.lanes ≡ 0) × (vec_len result.callers ≡ 0) }
{
    Outside {
        keeper: MemoryKeeper::new(alloc, Record::new(alloc), Vec::new(alloc)),
        lanes: Vec::new(alloc),
        callers: Vec::new(alloc),
        clock: MemoryClock::new(alloc, Moment(0), Vec::new(alloc)),
    }
}

/// The status of a replay, the number of the line, and how many entries its journal has.
pub fn ended<I: Source, R: Threads + Wait + Sync>(
    rt: &R,
    alloc: Global,
    words: &[String],
    source: &mut I,
    sink: &mut MemorySink,
) -> (u8, u64, usize) {
    let done = run(rt, alloc, words, source, sink, nobody(alloc));
    (done.status, done.line, done.journal.entries.len())
}

/// What a replay of this source answers.
pub fn replayed<I: Source, R: Threads + Wait + Sync>(
    rt: &R,
    alloc: Global,
    source: &mut I,
) -> Result<Vec<u8>, AllocError> {
    let name = String::from_str(alloc, "xlockd")?;
    let command = String::from_str(alloc, "replay")?;
    let words = vec![in alloc; name, command]?;
    let mut sink = MemorySink::new(alloc, Vec::new(alloc));
    let (status, line, entries) = ended(rt, alloc, &words, source, &mut sink);
    let mut text = format!(in alloc; "{status} {line} {entries}\n")?.into_bytes();
    text.extend_from_slice(sink.bytes())?;
    Ok(text)
}

/// A line of several, with its number and its place.
fn put_filled(text: &mut String, line: &str, number: u32, place: u32) -> Result<(), AllocError> {
    for sign in line.chars() {
        match sign {
            '#' => write!(text, "{number:08x}")?,
            '$' => write!(text, "{:08x}", number.wrapping_add(1))?,
            '%' => write!(text, "{:08x}", number.swap_bytes())?,
            '&' => write!(text, "{:08x}", number.wrapping_add(1).swap_bytes())?,
            '@' => write!(text, "{place}")?,
            _ => text.push(sign)?,
        }
    }
    text.push('\n')
}

fn number_in(word: Option<&str>) -> u32 {
    word.and_then(|word| word.parse().ok()).unwrap_or(0)
}

/// Puts the lines that `COUNT NUMBER STEP PLACE LINE` stands for.
fn put_lines(text: &mut String, lines: &str) -> Result<(), AllocError> {
    let mut words = lines.splitn(5, ' ');
    let count = number_in(words.next());
    let mut number = number_in(words.next());
    let step = number_in(words.next());
    let place = number_in(words.next());
    let line = words.next().unwrap_or("");
    for row in 0..count {
        put_filled(text, line, number, place.wrapping_add(row))?;
        number = number.wrapping_add(step);
    }
    Ok(())
}

/// A text with all of its lines.
fn in_full(alloc: Global, lines: &str) -> Result<String, AllocError> {
    let mut text = String::new(alloc);
    for line in lines.lines() {
        match line.strip_prefix("* ") {
            Some(several) => put_lines(&mut text, several)?,
            None => {
                text.push_str(line)?;
                text.push('\n')?;
            }
        }
    }
    Ok(text)
}

/// Whether the capture before a case's arrow is answered by the text behind it.
pub fn is_answered<R: Threads + Wait + Sync>(
    rt: &R,
    alloc: Global,
    case: &str,
) -> Result<bool, AllocError> {
    let Some((lines, wanted)) = case.split_once("=>\n") else {
        return Ok(false);
    };
    let input = in_full(alloc, lines)?.into_bytes();
    let mut source = MemorySource::new(input, Vec::new(alloc));
    let wanted = in_full(alloc, wanted)?;
    Ok(replayed(rt, alloc, &mut source)?.as_slice() == wanted.as_bytes())
}

/// The first case that is answered otherwise than it says; nothing if there is none.
pub fn wrong_case<'a, R: Threads + Wait + Sync>(
    rt: &R,
    alloc: Global,
    cases: &'a str,
) -> Result<&'a str, AllocError> {
    for case in cases.split("--\n") {
        if !is_answered(rt, alloc, case)? {
            return Ok(case);
        }
    }
    Ok("")
}
