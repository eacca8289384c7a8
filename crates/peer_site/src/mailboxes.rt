//! The mailboxes of all loops, and what those who fill tell them.

use crate::mailbox::Mailbox;

/// A mailbox for each loop.
#[derive(Drop)]
pub struct Mailboxes {
    pub each: Vec<Mailbox>,
}

impl Mailboxes {
    /// No more streams are given to any loop.
    pub fn close(&self) {
        for mailbox in &self.each {
            mailbox.close();
        }
    }

    /// The server was told to end.
    pub fn stop(&self) {
        for mailbox in &self.each {
            mailbox.stop();
        }
    }

    /// A job was taken off the queue.
    pub fn tell_room(&self) {
        for mailbox in &self.each {
            mailbox.tell_room();
        }
    }

    /// A fill of the slot was set.
    pub fn tell(&self, slot: usize) {
        for mailbox in &self.each {
            mailbox.tell(slot);
        }
    }
}
