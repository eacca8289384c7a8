//! What the caches may take, as the line at the start says it.

use peer_fill::ENTRY_BYTES;
use peer_stats::{CacheLimits, ServedGroup};
use std::cmp::min;
use std::fmt;
use std::fmt::{Display, Formatter};

// The bytes of the key and the value of a usual entry, one of which has a block of its own.
const USUAL_BYTES: u64 = 100;

// The most kinds of caches that are said one by one.
const MOST_KINDS: usize = 3;

/// A size in the largest unit of which it is a whole number.
#[derive(Clone, Copy)]
pub struct Size {
    pub bytes: u64,
}

impl Display for Size {
    fn fmt<W: fmt::Write>(&self, f: &mut Formatter<W>) -> fmt::Result {
        let kib = self.bytes / 1024;
        if self.bytes == 0 || self.bytes % 1024 != 0 {
            write!(f, "{} bytes", self.bytes)
        } else if kib % 1024 != 0 {
            write!(f, "{kib} KiB")
        } else if kib / 1024 % 1024 != 0 {
            write!(f, "{} MiB", kib / 1024)
        } else {
            write!(f, "{} GiB", kib / 1_048_576)
        }
    }
}

// About so many.
#[derive(Clone, Copy)]
struct About {
    number: u64,
}

impl Display for About {
    fn fmt<W: fmt::Write>(&self, f: &mut Formatter<W>) -> fmt::Result {
        let thousands = self.number / 1000;
        if thousands == 0 {
            write!(f, "{}", self.number)
        } else if thousands < 1000 {
            write!(f, "{thousands},000")
        } else {
            write!(f, "{}.{} million", thousands / 1000, thousands / 100 % 10)
        }
    }
}

// So many caches that may have the same.
#[derive(Clone, Copy)]
struct Alike {
    caches: usize,
    limits: CacheLimits,
}

impl Alike {
    // How many usual entries each of them has at most.
    fn entries(&self) -> u64 {
        let entries = self.limits.bytes / (USUAL_BYTES + ENTRY_BYTES + ENTRY_BYTES / 2);
        match self.limits.entries {
            Some(keys) => min(entries, keys),
            None => entries,
        }
    }
}

impl Display for Alike {
    fn fmt<W: fmt::Write>(&self, f: &mut Formatter<W>) -> fmt::Result {
        let size = Size {
            bytes: self.limits.bytes,
        };
        let about = About {
            number: self.entries(),
        };
        if self.caches == 1 {
            write!(
                f,
                "1 cache of {size}, about {about} entries of {USUAL_BYTES} bytes"
            )?;
        } else {
            write!(
                f,
                "{} caches of {size}, about {about} entries of {USUAL_BYTES} bytes in each",
                self.caches
            )?;
        }
        match self.limits.entries {
            Some(1) => write!(f, ", 1 key at most"),
            Some(keys) => write!(f, ", {keys} keys at most"),
            None => Ok(()),
        }
    }
}

/// What the caches of these groups may take, and about how many entries that is.
#[derive(Clone, Copy)]
pub struct CachesSaid<'a> {
    pub groups: &'a [ServedGroup],
}

impl<'a> CachesSaid<'a> {
    // The caches that may have what that of the group with this number may, if it is the first of them.
    fn alike(&self, number: usize) -> Option<Alike> {
        let limits = self.groups.get(number)?.limits;
        let mut before = self.groups.iter().take(number);
        if before.any(|group| group.limits == limits) {
            return None;
        }
        let same = self.groups.iter().filter(|group| group.limits == limits);
        Some(Alike {
            caches: same.count(),
            limits,
        })
    }

    // How many kinds of them there are.
    fn kinds(&self) -> usize {
        let numbers = 0..self.groups.len();
        numbers
            .filter(|number| self.alike(*number).is_some())
            .count()
    }

    // Writes what all of them may take together.
    fn write_sum<W: fmt::Write>(&self, f: &mut Formatter<W>) -> fmt::Result {
        let mut bytes = 0u64;
        for group in self.groups {
            bytes = bytes.saturating_add(group.limits.bytes);
        }
        write!(
            f,
            "{} caches of different sizes, {} in all",
            self.groups.len(),
            Size { bytes }
        )
    }
}

impl<'a> Display for CachesSaid<'a> {
    fn fmt<W: fmt::Write>(&self, f: &mut Formatter<W>) -> fmt::Result {
        if self.kinds() > MOST_KINDS {
            return self.write_sum(f);
        }
        let mut between = "";
        for number in 0..self.groups.len() {
            if let Some(alike) = self.alike(number) {
                write!(f, "{between}{alike}")?;
                between = "; ";
            }
        }
        Ok(())
    }
}
