//! An exchange that is talked to, over a pool in one thread: bytes come, jobs are filled between the calls, and what goes is
//! compared with the replies that are expected. It takes no memory of its own.
ghost use Rattle.std.specs.Prelude.{◌≡◌};
ghost use Rattle.peer_fill.specs.Pools.{source_of};
ghost use Rattle.refused.specs.Lent.{AreOf};

use crate::lent::{Demo, DemoSeats};
use crate::pools::ask_once;
use crate::seen::Seen;
use crate::talks::{Script, Talk};
use crate::window;
use peer_exchange::{End, Exchange, GivenUp, ReplyNotes};
use peer_source::DemoSource;
use std::cmp::min;
use std::sync::Wait;
use std::sync::ledger::Ledger;

// More turns than any talk needs.
const TURNS: usize = 1000;

// A connection, and how far the talk went.
#[derive(Drop)]
struct Talking<'p, 't> {
    exchange: Exchange<'p, DemoSource>,
    // What did not come yet.
    rest: &'t [u8],
    // The replies that did not go yet.
    replies: &'t [u8],
    // How many bytes come and go at a time at most.
    step: usize,
    // How many bytes went.
    sent: usize,
    // Whether they were those of the replies.
    right: bool,
}

impl<'p, 't> Talking<'p, 't> {
    // Some of the text comes, or the client's end behind it.
    fn feed(&mut self) -> Result<(), GivenUp>
        ensures { self.new.exchange.names ≡ self.old.exchange.names }
    {
        if !self.exchange.takes_bytes() {
            return Ok(());
        }
        let rest = self.rest;
        if rest.is_empty() {
            self.exchange.end();
            return Ok(());
        }
        match self.exchange.receive(&rest[..min(self.step, rest.len())]) {
            Ok(n) => {
                self.rest = &rest[n..];
                Ok(())
            }
            Err(why) => Err(why),
        }
    }

    // Some of the output goes, and is compared.
    fn take(&mut self)
        ensures { self.new.exchange.names ≡ self.old.exchange.names }
    {
        let n = min(self.step, self.exchange.output().len());
        match self.replies.strip_prefix(&self.exchange.output()[..n]) {
            Some(rest) => self.replies = rest,
            None => self.right = false,
        }
        self.sent = self.sent.saturating_add(n);
        self.exchange.sent(n);
    }

    // All of the output goes.
    fn take_all(&mut self) {
        for _ in 0..TURNS {
            if self.exchange.output().is_empty() {
                break;
            }
            self.take();
        }
    }

    // Some of the text comes, what can be asked is, the jobs are filled, and what can be answered is, of which some goes.
    fn turn<L: Ledger, R: Wait>(
        &mut self,
        lent: &Demo<'_, L, R>,
        seats: &mut DemoSeats<L>,
    ) -> Result<(), GivenUp>
        requires names { self.old.exchange.names ≡ source_of lent.now.pool.now }
        requires seats { AreOf lent.now.pool.now seats.old }
        ensures names { self.new.exchange.names ≡ source_of lent.now.pool.now }
        ensures seats { AreOf lent.now.pool.now seats.new }
    {
        self.feed()?;
        let _rest = self.exchange.ask_held(lent.rt, lent.pool, &mut seats.conn)?;
        lent.fill_jobs(seats);
        let _none_left = lent.pool.put_left(lent.rt, &mut seats.conn);
        let mut counts = ReplyNotes::new(None);
        self.exchange
            .answer_ready(lent.pool, &mut seats.conn, &mut counts)?;
        self.take();
        Ok(())
    }

    // Turns until it is over, or is given up, and why.
    fn go_on<L: Ledger, R: Wait>(
        &mut self,
        lent: &Demo<'_, L, R>,
        seats: &mut DemoSeats<L>,
    ) -> Option<GivenUp>
        requires names { self.old.exchange.names ≡ source_of lent.now.pool.now }
        requires seats { AreOf lent.now.pool.now seats.old }
        ensures names { self.new.exchange.names ≡ source_of lent.now.pool.now }
        ensures seats { AreOf lent.now.pool.now seats.new }
    {
        for _ in 0..TURNS {
            if let Err(why) = self.turn(lent, seats) {
                return Some(why);
            }
            if self.exchange.is_over() {
                return None;
            }
        }
        None
    }

    // Whether it takes no more bytes, and asks and answers nothing more.
    fn rests<L: Ledger, R: Wait>(&mut self, lent: &Demo<'_, L, R>, seats: &mut DemoSeats<L>) -> bool
        requires names { self.old.exchange.names ≡ source_of lent.now.pool.now }
        requires seats { AreOf lent.now.pool.now seats.old }
        ensures { AreOf lent.now.pool.now seats.new }
    {
        let before = (seats.counts(), self.exchange.held());
        let asked = self
            .exchange
            .ask_held(lent.rt, lent.pool, &mut seats.conn)
            .is_ok();
        let mut counts = ReplyNotes::new(None);
        let answered = self
            .exchange
            .answer_ready(lent.pool, &mut seats.conn, &mut counts)
            .is_ok();
        let same = (seats.counts(), self.exchange.held()) == before;
        asked && answered && same && !self.exchange.takes_bytes()
    }

    // What it was seen to do, by how it ended.
    fn seen(&self, script: &Script, given_up: Option<GivenUp>) -> Seen {
        let seen = match (given_up, self.exchange.ended()) {
            (None, Some(End::Clean)) => {
                Seen::Answered.only_if(self.replies.is_empty(), "clean without all replies")
            }
            (Some(GivenUp::Memory), Some(End::Memory)) => Seen::Refused.only_if(
                script.is_whole(self.sent),
                "not a number of whole replies",
            ),
            _ => Seen::Wrong("another end"),
        };
        seen.only_if(self.right, "other replies")
    }
}

// One connection of these seats, from its first byte to its end.
fn connect<L: Ledger, R: Wait>(
    lent: &Demo<'_, L, R>,
    seats: &mut DemoSeats<L>,
    script: &Script,
    step: usize,
) -> Seen
    requires { AreOf lent.now.pool.now seats.old }
    ensures { AreOf lent.now.pool.now seats.new }
{
    let mut talking = Talking {
        exchange: Exchange::new(lent.alloc, lent.pool.names()),
        rest: &script.text,
        replies: &script.replies,
        step,
        sent: 0,
        right: true,
    };
    let given_up = talking.go_on(lent, seats);
    let rests = talking.rests(lent, seats);
    talking.take_all();
    talking
        .seen(script, given_up)
        .only_if(rests, "it goes on behind its end")
}

// Fills the key `k` where its value is to be kept, and makes the room that a worker's seat has from its first job on. None
// where memory was refused.
fn prepare<L: Ledger, R: Wait>(
    lent: &Demo<'_, L, R>,
    seats: &mut DemoSeats<L>,
    what: Talk,
) -> Option<()>
    requires { AreOf lent.now.pool.now seats.old }
    ensures { AreOf lent.now.pool.now seats.new }
{
    if what.is_kept() {
        ask_once(lent, seats)?;
    }
    lent.fill_jobs(seats);
    if what.is_kept() && lent.pool.cached_bytes(lent.rt) == 0 {
        return None;
    }
    Some(())
}

// What was seen. Where nothing was refused, the counts have to be the usual ones.
fn judged(seen: Seen, usual: bool) -> Seen {
    match seen {
        Seen::Answered => seen.only_if(usual, "the counts do not fit"),
        _ => seen,
    }
}

// Talks with growths counted. The next connection of the same seats is then answered whole.
fn twice<L: Ledger, R: Wait>(
    lent: &Demo<'_, L, R>,
    seats: &mut DemoSeats<L>,
    what: Talk,
    script: &Script,
) -> Seen
    requires { AreOf lent.now.pool.now seats.old }
    ensures { AreOf lent.now.pool.now seats.new }
{
    let step = what.step();
    window::begin(lent.alloc);
    let seen = connect(lent, seats, script, step);
    window::end(lent.alloc);
    let usual = seats.counts() == what.counts();
    let again = connect(lent, seats, script, step);
    let whole = matches!(again, Seen::Answered);
    judged(seen, usual).only_if(whole, "the next connection is not answered")
}

/// A talk.
pub fn talk<L: Ledger, R: Wait>(
    lent: &Demo<'_, L, R>,
    seats: &mut DemoSeats<L>,
    what: Talk,
) -> Option<Seen>
    requires { AreOf lent.now.pool.now seats.old }
    ensures { AreOf lent.now.pool.now seats.new }
{
    let script = what.script(lent.alloc)?;
    prepare(lent, seats, what)?;
    Some(twice(lent, seats, what, &script))
}
