//! One thread's wait.
ghost use Rattle.std.specs.Prelude.{◌≡◌, ◌+◌, ◌<◌, ◌≤◌};

use crate::notice::Notice;
use crossbeam_utils::sync::Key;
use std::hint::spin_loop;
use std::marker::Model;
use std::sync::Wait;

// Looks without a sleep. They last about as long as another processor needs for a small step, and less than a sleep
// and a wake-up. None of them yields: beside other work a yield can give the processor away for milliseconds.
const LOOKS: u32 = 16;

/// What a thread keeps between two looks at something that others change, as in
///
/// ```text
/// let mut waiter = Waiter::new(&notice);
/// for _ in rt.forever() {
///     if let Some(found) = look() {
///         return found;
///     }
///     waiter.pause(rt);
/// }
/// ```
///
/// Who makes the change calls `notice.notify_one()` or `notice.notify_all()` behind it.
#[derive(Drop)]
pub struct Waiter<'a> {
    notice: &'a Notice,
    looks: u32,
    announced: Option<Key<'a>>,
    may_have_slept: bool,
}

impl<'a> Model for Waiter<'a> {
    ghost use Rattle.std.specs.Prelude.{ℕ};

    ghost Value = { ℕ };

    ghost view = { λ w. w.looks };
}

impl<'a> Waiter<'a> {
    pub fn new(notice: &'a Notice) -> Waiter<'a>
        ensures { result ≡ 0 }
    {
        Waiter {
            notice,
            looks: 0,
            announced: None,
            may_have_slept: false,
        }
    }

    /// To be called after a look that found nothing. After the first 16 it announces a sleep, and where one more look
    /// finds nothing it sleeps until a notice.
    pub fn pause<R: Wait>(&mut self, rt: &R)
        ensures looks { self.old < 16 → self.new ≡ self.old + 1 }
        ensures sleeps { 16 ≤ self.old → self.new ≡ self.old }
    {
        if self.looks < LOOKS {
            spin_loop();
            self.looks += 1;
            return;
        }
        match self.announced.take() {
            None => {
                self.announced = Some(self.notice.announce());
                self.may_have_slept = true;
            }
            Some(key) => key.wait(rt),
        }
    }

    /// Whether it has announced a sleep, so that a notice to one may have been for it.
    pub fn may_have_slept(&self) -> bool {
        self.may_have_slept
    }
}
