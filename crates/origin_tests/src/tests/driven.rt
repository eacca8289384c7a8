//! A fetch as a state, whose request is taken as sent, and to which the bytes of a reply come.
ghost use Rattle.std.specs.Prelude.{◌<◌};

use peer_origin::{Failure, request};
use peer_value::{Answer, Fetching};
use std::alloc::Global;

/// More bytes than a text of these tests has.
pub const ONE_PIECE: usize = 4_194_304;

/// How what an origin sends on a connection ends.
#[derive(Clone, Copy, PartialEq, Eq)]
pub enum End {
    /// It closes the connection.
    Closed,
    /// The connection fails.
    Failed,
}

/// What a fetch came to.
#[derive(Drop)]
pub struct Fetched {
    pub value: Result<Vec<u8>, Failure>,
    /// Whether another request may be sent on the connection.
    pub keeps: bool,
}

impl Fetched {
    fn of_answer(answer: Answer) -> Fetched {
        let Answer { value, keeps } = answer;
        let value = match value {
            Ok(value) => Ok(value),
            Err(fault) => Err(Failure::Fetch(fault)),
        };
        Fetched { value, keeps }
    }

    fn of_failure(failure: Failure) -> Fetched {
        Fetched {
            value: Err(failure),
            keeps: false,
        }
    }

    // Whether this was answered.
    fn is(&self, want: Result<&[u8], Failure>) -> bool {
        match (&self.value, want) {
            (Ok(value), Ok(want)) => value.as_slice() == want,
            (Err(failure), Err(want)) => *failure == want,
            _ => false,
        }
    }
}

// A fetch of the key `a/b c` from the origin `origin:81` with the prefix `/p/`, whose request was sent.
fn asked(alloc: Global) -> Option<Fetching> {
    match request(alloc, b"origin:81", b"/p/", &[], b"a/b c") {
        Ok(asked) => {
            let mut fetching = Fetching::new(alloc, asked);
            let len = fetching.unsent().len();
            fetching.sent(len);
            Some(fetching)
        }
        Err(_) => None,
    }
}

// A piece comes. None where the request was not sent.
fn take(fetching: &mut Fetching, piece: &[u8]) -> Option<Result<Option<Answer>, Failure>> {
    if fetching.is_sent() {
        Some(fetching.receive(piece))
    } else {
        None
    }
}

// The connection ends. None where the request was not sent.
fn over(fetching: &mut Fetching, end: End) -> Option<Result<Answer, Failure>> {
    if !fetching.is_sent() {
        return None;
    }
    Some(match end {
        End::Closed => fetching.end(),
        End::Failed => Err(fetching.cut()),
    })
}

/// What a fetch comes to where a text comes in pieces of so many bytes, and then the end. None where it could not begin.
pub fn fetch(alloc: Global, text: &[u8], size: usize, end: End) -> Option<Fetched>
    requires { 0 < size }
{
    let mut fetching = asked(alloc)?;
    for piece in text.chunks(size) {
        match take(&mut fetching, piece)? {
            Ok(Some(answer)) => return Some(Fetched::of_answer(answer)),
            Ok(None) => {}
            Err(failure) => return Some(Fetched::of_failure(failure)),
        }
    }
    Some(match over(&mut fetching, end)? {
        Ok(answer) => Fetched::of_answer(answer),
        Err(failure) => Fetched::of_failure(failure),
    })
}

/// Whether a text with this end comes to this, in pieces of so many bytes.
pub fn comes_to(
    alloc: Global,
    text: &[u8],
    size: usize,
    end: End,
    want: Result<&[u8], Failure>,
) -> bool
    requires { 0 < size }
{
    match fetch(alloc, text, size, end) {
        Some(fetched) => fetched.is(want),
        None => false,
    }
}
