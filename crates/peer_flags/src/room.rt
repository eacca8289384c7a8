//! How many connections and values under way the files leave room for that the process may open.
ghost use Rattle.std.specs.Prelude.{◌≤◌};

use crate::options::Options;
use std::cmp::{max, min};

// Files of the program's own, some 117 at most: two for each of 16 loops and 4 threads that fetch, 64 clients of the page of
// counters, listeners, the standard streams, and three that hold the numbers of those that are closed.
const OWN_FILES: usize = 150;

// How many files a value under way takes at most: that of its connection, and that of one which is kept.
const FILES_PER_VALUE: usize = 2;

/// The connections and the values under way that a server has room for.
#[derive(Clone, Copy, Debug, PartialEq, Eq)]
pub struct Room {
    /// Connections open at one moment.
    pub connections: usize,
    /// Values of services under way on each thread that fetches.
    pub under_way: usize,
}

impl<'w> Options<'w> {
    // How many files are opened for so many values under way on each thread that fetches.
    fn fetch_files(&self, under_way: usize, has_services: bool) -> usize {
        if has_services {
            FILES_PER_VALUE
                .saturating_mul(self.fetchers)
                .saturating_mul(under_way)
        } else {
            0
        }
    }

    /// How many files the program opens at most.
    pub fn files(&self, has_services: bool) -> usize {
        OWN_FILES
            .saturating_add(self.connections)
            .saturating_add(self.fetch_files(self.under_way, has_services))
    }

    /// What the options ask for, or less where the process may open fewer files than that takes: then services have half of
    /// them at most, and connections what is left. Both have one at least.
    pub fn room_within(&self, files: usize, has_services: bool) -> Room
        ensures connections { result.connections ≤ self.now.connections }
        ensures under_way { result.under_way ≤ self.now.under_way }
        ensures connection { 1 ≤ self.now.connections → 1 ≤ result.connections }
        ensures value { 1 ≤ self.now.under_way → 1 ≤ result.under_way }
    {
        let left = files.saturating_sub(OWN_FILES);
        let most = if !has_services || self.files(has_services) <= files {
            self.under_way
        } else {
            left / 2 / FILES_PER_VALUE / max(self.fetchers, 1)
        };
        let under_way = min(self.under_way, max(most, 1));
        let for_connections = left.saturating_sub(self.fetch_files(under_way, has_services));
        Room {
            connections: min(self.connections, max(for_connections, 1)),
            under_way,
        }
    }
}
