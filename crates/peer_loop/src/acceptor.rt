//! The thread that accepts: it deals streams to the loops in turn.
//!
//! Where no more connections can be had, new clients wait in the backlog of the system until one ends. Once the server was
//! told to stop, or has accepted as many as it is to, it accepts no more and lets go of the listener.

use crate::listening::Listening;
use crate::stop::Stop;
use mio::net::TcpStream;
use peer_runtime::{Network, lacks_files, would_block};
use peer_site::Site;
use peer_stats::Stage;
use std::{io, thread};

/// Where a server gets its clients.
#[derive(Drop)]
pub struct Acceptor<'a> {
    pub listening: Listening,
    pub site: Site<'a>,
    pub stop: &'a Stop,
    /// How many more connections are accepted, none where there is no end.
    pub left: Option<u64>,
}

// Tells the loops that no more clients come, and whether they are to let theirs go.
fn tell_end(site: Site<'_>, stop: &Stop) {
    if stop.is_asked() {
        site.mailboxes.stop();
    } else {
        site.mailboxes.close();
    }
}

impl<'a> Acceptor<'a> {
    // Lets some time pass behind a call that failed.
    fn pause<H: Network>(&self, rt: &H) {
        thread::sleep(rt, self.site.limits.pause);
    }

    // Waits for clients, or for room.
    fn wait<H: Network>(&mut self, rt: &H) {
        if !self.listening.wait() {
            self.pause(rt);
        }
    }

    // Gives a stream to a loop, and to another where too many wait there. Waits where that is so at all of them.
    fn give<H: Network>(&self, rt: &H, mut stream: TcpStream, first: usize) {
        let mut turn = first;
        self.site.occupancy.enter();
        for _ in rt.forever() {
            let Some(mailbox) = self.site.mailboxes.each.get(turn) else {
                self.site.occupancy.leave();
                return;
            };
            match mailbox.give(rt, stream) {
                Ok(()) => return,
                Err(back) => stream = back,
            }
            turn = self.behind(turn);
            if turn == first {
                self.pause(rt);
            }
        }
        unreachable!()
    }

    // Waits for clients where there was none, and else for some time.
    fn wait_behind<H: Network>(&mut self, rt: &H, error: &io::Error) {
        if would_block(error) {
            // Linux looks for a file before it looks for a client.
            self.site.occupancy.note_file();
            self.wait(rt);
            return;
        }
        if lacks_files(error) {
            self.site.occupancy.note_no_file();
        }
        self.site.counters.accepts().count_failed();
        self.pause(rt);
    }

    // Accepts one stream, or waits, and says whether there was one.
    fn accept<H: Network>(&mut self, rt: &H, turn: usize) -> bool {
        if self.site.occupancy.is_full() {
            self.site.occupancy.await_place();
            if self.site.occupancy.is_full() {
                self.wait(rt);
            }
            return false;
        }
        match self.listening.listener.accept() {
            Ok((stream, _)) => {
                self.site.counters.accepts().count_accepted();
                if stream.set_nodelay(true).is_ok() {
                    self.give(rt, stream, turn);
                }
                true
            }
            Err(error) => {
                self.wait_behind(rt, &error);
                false
            }
        }
    }

    // The loop behind this one.
    fn behind(&self, turn: usize) -> usize {
        let next = turn.wrapping_add(1);
        if next < self.site.mailboxes.each.len() {
            next
        } else {
            0
        }
    }

    // Accepts until the server was told to end, or as many connections as it is to.
    fn accept_all<H: Network>(&mut self, rt: &H) {
        let mut turn = 0;
        for _ in rt.forever() {
            if self.left == Some(0) || self.stop.is_asked() {
                return;
            }
            if self.accept(rt, turn) {
                turn = self.behind(turn);
                if let Some(left) = &mut self.left {
                    *left = left.saturating_sub(1);
                }
            }
        }
        unreachable!()
    }

    /// Accepts connections and deals them to the loops in turn, until it was told to stop, or has accepted as many as it is
    /// to. Then it lets go of the listener, so that whoever comes later is refused at once, and another server can have the
    /// address while the loops answer what was asked.
    pub fn run<H: Network>(mut self, rt: &H) {
        self.site.counters.publish_stage(Stage::Serves);
        self.accept_all(rt);
        self.site.counters.publish_stage(Stage::Ends);
        let Acceptor {
            listening,
            site,
            stop,
            ..
        } = self;
        drop(listening);
        tell_end(site, stop);
    }
}
