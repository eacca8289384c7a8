//! The access log: one thread takes the records of replies off the rings of the loops, and writes many lines by one call.
//!
//! A write that fails loses its lines, which are counted, and the next ones are tried again. Once a second it is looked whether the
//! file was moved away.

use crate::access_target::{AccessTarget, Unwritten};
use crate::appends::Appends;
use crate::config::{ConfigFile, Said, say_flag};
use crate::end::End;
use crate::exit::{BAD_WORD, Exit, OUT_OF_MEMORY, refuse};
use crate::failing::Watched;
use peer_access::{Asked, Bell, LineNames, RecordRings, RecordsOut, ReplyRecord, put_record};
use peer_flags::Options;
use peer_log::{Level, LogForm, time_text};
use std::alloc::{AllocError, Global};
use std::fmt::Write;
use std::io;
use std::sync::{Arc, Wait};
use std::time::{Clock, Duration, Instant};

// How long the thread waits for records, if it is not woken.
const WAIT_MILLIS: u64 = 250;

// The seconds between two looks whether the file was moved away.
const LOOK_SECONDS: u64 = 1;

// The most records that are taken off one ring before the others have their turn.
const MOST_RECORDS: usize = 4096;

// How many bytes of lines are written by one call, and one line more.
const MOST_BYTES: usize = 65_536;

// The text of a time, which many lines have.
#[derive(Drop)]
struct TimeText {
    millis: u64,
    text: String,
}

/// The access log, and where its thread has the records from.
#[derive(Drop)]
pub struct AccessLog<'a> {
    alloc: Global,
    form: LogForm,
    target: AccessTarget<'a>,
    bell: Arc<Bell, Global>,
    outs: Vec<RecordsOut>,
    // The lines that are to be written.
    lines: Vec<u8>,
    time: TimeText,
    client: String,
    looked: Option<Instant>,
    is_failing: bool,
}

/// The access log, and the rings that loops find.
#[derive(Drop)]
pub struct Access<'a> {
    pub rings: RecordRings,
    pub log: AccessLog<'a>,
}

// The access log that goes there, and the rings of so many loops. The error is for memory.
fn access_to<'a>(
    alloc: Global,
    target: AccessTarget<'a>,
    options: &Options<'_>,
) -> Result<Access<'a>, AllocError> {
    let bell = Arc::new(alloc, Bell::default())?;
    let (rings, outs) = RecordRings::new(alloc, options.loops, &bell)?;
    let log = AccessLog {
        alloc,
        form: options.log,
        target,
        bell,
        outs,
        lines: Vec::new(alloc),
        time: TimeText {
            millis: u64::MAX,
            text: String::new(alloc),
        },
        client: String::new(alloc),
        looked: None,
        is_failing: false,
    };
    Ok(Access { rings, log })
}

/// The access log that is asked for, if one is, or says why it cannot be written.
pub fn access_of<'a, H: AllocGlobal + Eprint + Appends>(
    rt: &H,
    options: &Options<'a>,
    file: Option<ConfigFile<'_>>,
) -> Result<Option<Access<'a>>, Exit> {
    let Some(path) = options.access_log else {
        return Ok(None);
    };
    let target = match AccessTarget::open(rt, path) {
        Ok(target) => target,
        Err(error) => {
            let why = Said {
                word: path,
                why: &error,
            };
            say_flag(rt, file, "access-log", &why);
            return Err(BAD_WORD);
        }
    };
    match access_to(rt.alloc(), target, options) {
        Ok(access) => Ok(Some(access)),
        Err(AllocError) => Err(refuse(rt, &"out of memory", OUT_OF_MEMORY)),
    }
}

// How many lines end in these bytes.
fn lines_in(bytes: &[u8]) -> u64 {
    bytes.iter().filter(|byte| **byte == b'\n').count() as u64
}

// Says that the log cannot be written or opened, and why.
fn say_failed<H: AllocGlobal + Eprint + Clock>(
    rt: &H,
    watched: &Watched<'_>,
    what: &str,
    error: &io::Error,
) {
    let text = format!(in rt.alloc(); "{what}, {error}");
    match text {
        Ok(text) => watched
            .log
            .say(rt, Level::Warn, text.as_str().as_bytes(), &[]),
        Err(_) => watched.log.say(rt, Level::Warn, what.as_bytes(), &[]),
    };
}

// The name of the group that was asked for, if it is served.
fn group_name<'a>(watched: &Watched<'a>, asked: &Asked) -> &'a [u8] {
    if let Asked::Key(number, _) = asked {
        if let Some(group) = watched.facts.groups.get(*number) {
            return group.name.as_slice();
        }
    }
    b""
}

impl TimeText {
    // The text is that of the time so long after the beginning of 1970.
    fn tell(&mut self, alloc: Global, time: Duration) -> Result<(), AllocError> {
        let millis = time
            .as_secs()
            .saturating_mul(1000)
            .saturating_add(u64::from(time.subsec_millis()));
        if self.millis != millis {
            self.text = time_text(alloc, millis.min(i64::MAX as u64) as i64).ok_or(AllocError)?;
            self.millis = millis;
        }
        Ok(())
    }
}

impl<'a> AccessLog<'a> {
    /// What wakes its thread.
    pub fn bell(&self) -> Result<Arc<Bell, Global>, AllocError> {
        Arc::try_clone(&self.bell)
    }

    // Appends the line of a record to those that are to be written.
    fn put_line(&mut self, watched: &Watched<'_>, record: &ReplyRecord) -> Result<(), AllocError> {
        self.time.tell(self.alloc, record.time)?;
        self.client.clear();
        match record.client {
            Some(client) => write!(self.client, "{client}").map_err(|_| AllocError)?,
            None => self.client.push('-')?,
        }
        let names = LineNames {
            client: self.client.as_str().as_bytes(),
            group: group_name(watched, &record.asked),
        };
        let time = self.time.text.as_str().as_bytes();
        put_record(&mut self.lines, self.form, time, record, names)
    }

    // Appends the line of a record, or counts it where memory is refused.
    fn put(&mut self, watched: &Watched<'_>, record: &ReplyRecord) {
        let before = self.lines.len();
        if self.put_line(watched, record).is_err() {
            self.lines.truncate(before);
            watched.counters.count_log_dropped(1);
        }
    }

    // The lines were not written from somewhere on. Says so, unless that is known.
    fn note_unwritten<H: AllocGlobal + Eprint + Clock>(
        &mut self,
        rt: &H,
        watched: &Watched<'_>,
        unwritten: &Unwritten,
    ) {
        let (before, rest) = self.lines.split_at(unwritten.written.min(self.lines.len()));
        watched.counters.count_log_dropped(lines_in(rest));
        let is_cut = before.last().is_some_and(|byte| *byte != b'\n');
        if !self.is_failing {
            say_failed(rt, watched, "access log not written", &unwritten.error);
        }
        self.is_failing = true;
        self.lines.clear();
        if is_cut {
            // What was written of a line is a line of its own.
            let _ = self.lines.push(b'\n');
        }
    }

    // Writes the lines.
    fn write<H: AllocGlobal + Print + Eprint + Clock>(&mut self, rt: &H, watched: &Watched<'_>) {
        if self.lines.is_empty() {
            return;
        }
        match self.target.write(rt, self.lines.as_slice()) {
            Ok(()) => {
                if self.is_failing {
                    watched
                        .log
                        .say(rt, Level::Info, b"access log written again", &[]);
                }
                self.is_failing = false;
                self.lines.clear();
            }
            Err(unwritten) => self.note_unwritten(rt, watched, &unwritten),
        }
    }

    // Takes the records off the ring of a loop, and writes their lines as they become many.
    fn take<H: AllocGlobal + Print + Eprint + Clock>(
        &mut self,
        rt: &H,
        watched: &Watched<'_>,
        number: usize,
    ) {
        for _ in 0..MOST_RECORDS {
            let Some(record) = self.outs.get_mut(number).and_then(|out| out.take()) else {
                return;
            };
            self.put(watched, &record);
            if self.lines.len() >= MOST_BYTES {
                self.write(rt, watched);
            }
        }
    }

    // Takes the records off all rings, and writes their lines.
    fn take_all<H: AllocGlobal + Print + Eprint + Clock>(&mut self, rt: &H, watched: &Watched<'_>) {
        for number in 0..self.outs.len() {
            self.take(rt, watched, number);
        }
        self.write(rt, watched);
    }

    // Whether it is to be looked whether the file was moved away.
    fn is_to_look<H: Clock>(&self, rt: &H) -> bool {
        match self.looked.and_then(|looked| looked.elapsed(rt).ok()) {
            Some(passed) => passed >= Duration::from_secs(LOOK_SECONDS),
            None => true,
        }
    }

    // Opens the file anew if it was moved away.
    fn follow<H: AllocGlobal + Eprint + Appends + Clock>(&mut self, rt: &H, watched: &Watched<'_>) {
        if !self.is_to_look(rt) {
            return;
        }
        self.looked = Instant::now(rt).ok();
        if let Err(error) = self.target.follow(rt) {
            say_failed(rt, watched, "access log not opened anew", &error);
        }
    }

    /// Writes lines for the records that come, until the end is told and all are written.
    pub fn run<H: AllocGlobal + Print + Eprint + Appends + Wait + Clock>(
        self,
        rt: &H,
        watched: Watched<'_>,
        end: &End,
    ) {
        let mut log = self;
        for _ in rt.forever() {
            log.bell.wait(rt, Duration::from_millis(WAIT_MILLIS));
            let has_ended = end.is_told();
            log.follow(rt, &watched);
            log.take_all(rt, &watched);
            if has_ended {
                return;
            }
        }
        unreachable!()
    }
}
