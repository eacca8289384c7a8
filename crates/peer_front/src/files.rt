//! How many files the process may open, and what is served within them.

use peer_flags::{Options, Room};
use std::alloc::Global;
use std::fs::{File, Files};
use std::io::Read;
use std::{fs, io};

/// Three files that take the numbers of those standard streams that are closed, while they are kept: else a socket would get one,
/// and a line of trouble would go to whoever is at its other end.
pub fn hold_streams(rt: &HostRuntime) -> [io::Result<File>; 3] {
    [
        fs::open(rt, "/dev/null"),
        fs::open(rt, "/dev/null"),
        fs::open(rt, "/dev/null"),
    ]
}

// How many files the process may open by its soft limit (proc(5), `/proc/self/limits`). None where the system does not say
// so, or names no number.
fn open_files<H: Files>(rt: &H, alloc: Global) -> Option<usize> {
    let mut text = String::new(alloc);
    fs::open(rt, "/proc/self/limits")
        .ok()?
        .read_to_string(&mut text)
        .ok()?;
    let limit = text
        .lines()
        .find(|line| line.starts_with("Max open files"))?;
    limit.split_ascii_whitespace().nth(3)?.parse::<usize>().ok()
}

/// The options, with fewer connections and values under way where the process may not open the files for all of them. It
/// says so then.
pub fn within_files<'w, H: AllocGlobal + Eprint + Files>(
    rt: &H,
    options: &Options<'w>,
    has_services: bool,
) -> Options<'w> {
    let Some(files) = open_files(rt, rt.alloc()) else {
        return *options;
    };
    let needed = options.files(has_services);
    if needed > files {
        let _ = eprintln!(rt;
            "peer_front: may open {files} files (ulimit -n), and all that is asked for needs {needed}: serves less"
        );
    }
    let Room {
        connections,
        under_way,
    } = options.room_within(files, has_services);
    Options {
        connections,
        under_way,
        ..*options
    }
}
