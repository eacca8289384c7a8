//! What the system tells of the process (proc(5)).

use crate::numbers::ProcessCounts;
use std::alloc::Global;
use std::fs;
use std::fs::Files;
use std::io::Read;

// The text of a file, none where it cannot be read.
fn text_of<H: Files>(rt: &H, alloc: Global, path: &str) -> Option<String> {
    let mut text = String::new(alloc);
    fs::open(rt, path).ok()?.read_to_string(&mut text).ok()?;
    Some(text)
}

// The word with this number of the line that begins so.
fn word_of<'t>(text: &'t str, begin: &str, number: usize) -> Option<&'t str> {
    let line = text.lines().find(|line| line.starts_with(begin))?;
    line.split_ascii_whitespace().nth(number)
}

// The number that stands right behind the name of its line.
fn number_of(text: &str, name: &str) -> Option<u64> {
    word_of(text, name, 1)?.parse::<u64>().ok()
}

// The same, which is one of KiB, in bytes.
fn bytes_of(text: &str, name: &str) -> Option<u64> {
    number_of(text, name)?.checked_mul(1024)
}

// The number with this place behind the name of the program, which may have spaces and parentheses itself.
fn behind_name(stat: &str, place: usize) -> Option<u64> {
    let (_, behind) = stat.rsplit_once(')')?;
    behind
        .split_ascii_whitespace()
        .nth(place)?
        .parse::<u64>()
        .ok()
}

// How many files are open. One of them is the directory that tells it.
fn open_files<H: Files + AllocGlobal>(rt: &H) -> Option<u64> {
    let listed = fs::read_dir(&rt, "/proc/self/fd").ok()?.count() as u64;
    listed.checked_sub(1)
}

// The most files that may be open, none where there is no such number.
fn most_files(limits: &str) -> Option<u64> {
    word_of(limits, "Max open files", 3)?.parse::<u64>().ok()
}

/// What the system tells of the process, none where it does not tell all of it. A tick of its clock is a hundredth of a second.
pub(crate) fn read_process<H: Files + AllocGlobal>(rt: &H, alloc: Global) -> Option<ProcessCounts> {
    let stat = text_of(rt, alloc, "/proc/self/stat")?;
    let status = text_of(rt, alloc, "/proc/self/status")?;
    let limits = text_of(rt, alloc, "/proc/self/limits")?;
    let system = text_of(rt, alloc, "/proc/stat")?;
    let stat = stat.as_str();
    let status = status.as_str();
    let booted = number_of(system.as_str(), "btime")?.checked_mul(100)?;
    Some(ProcessCounts {
        cpu_hundredths: behind_name(stat, 11)?.saturating_add(behind_name(stat, 12)?),
        start_hundredths: booted.saturating_add(behind_name(stat, 19)?),
        resident_bytes: bytes_of(status, "VmRSS:")?,
        virtual_bytes: bytes_of(status, "VmSize:")?,
        threads: number_of(status, "Threads:")?,
        open_files: open_files(rt)?,
        most_files: most_files(limits.as_str()),
    })
}
