//! Lines on standard error while it serves, each with its time.

use peer_log::{Entry, Field, Level, LogForm, Said, line_of, now_text};
use std::str;
use std::sync::atomic::AtomicU64;
use std::sync::atomic::Ordering::SeqCst;
use std::time::Clock;

// The most lines between two looks at the counters, a second.
const MOST_LINES: u64 = 20;

/// Where lines are said.
#[derive(Drop)]
pub struct Log {
    form: LogForm,
    // The lines that were to be said since the last look.
    lines: AtomicU64,
}

// Writes these bytes of a line, which are ASCII.
fn say_bytes<H: AllocGlobal + Eprint>(rt: &H, bytes: &[u8]) {
    if let Ok(text) = str::from_utf8(bytes) {
        let _ = eprint!(rt; "{text}");
    }
}

impl Log {
    /// Lines of this form.
    pub fn new(form: LogForm) -> Log {
        Log {
            form,
            lines: AtomicU64::new(0),
        }
    }

    // The line of an entry, if memory is not refused.
    fn line<H: AllocGlobal + Clock>(&self, rt: &H, entry: &Entry<'_>) -> Option<Vec<u8>> {
        let time = now_text(rt, rt.alloc())?;
        line_of(rt.alloc(), self.form, time.as_str().as_bytes(), entry).ok()
    }

    // Writes the line of an entry.
    fn write<H: AllocGlobal + Eprint + Clock>(&self, rt: &H, entry: &Entry<'_>) {
        match self.line(rt, entry) {
            Some(line) => say_bytes(rt, line.as_slice()),
            // There is no memory for a line, and this takes none.
            None => {
                say_bytes(rt, entry.what);
                say_bytes(rt, b"\n");
            }
        }
    }

    /// Says what happened, with these fields, unless 20 lines were said since the last look. Whether it was said.
    pub fn say<H: AllocGlobal + Eprint + Clock>(
        &self,
        rt: &H,
        level: Level,
        what: &[u8],
        fields: &[Field<'_>],
    ) -> bool {
        if self.lines.fetch_add(1, SeqCst) >= MOST_LINES {
            return false;
        }
        self.write(
            rt,
            &Entry {
                level,
                what,
                fields,
            },
        );
        true
    }

    /// So many lines more were to be said than there was room for.
    pub fn leave_out(&self, lines: u64) {
        self.lines.fetch_add(lines, SeqCst);
    }

    /// A look at the counters begins. Says how many lines were left out since the last one.
    pub fn begin_look<H: AllocGlobal + Eprint + Clock>(&self, rt: &H) {
        let left_out = self.lines.swap(0, SeqCst).saturating_sub(MOST_LINES);
        if left_out > 0 {
            let fields = [Field {
                name: b"more",
                said: Said::Number(left_out),
            }];
            self.write(
                rt,
                &Entry {
                    level: Level::Warn,
                    what: b"lines left out",
                    fields: &fields,
                },
            );
        }
    }
}
