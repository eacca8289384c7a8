//! What a call was seen to do.

/// What a call was seen to do.
#[derive(Clone, Copy)]
pub enum Seen {
    /// It told that memory was refused, and everything was as before.
    Refused,
    /// It gave its usual answer.
    Answered,
    /// Memory was refused before the call.
    Prepared,
    /// It did neither.
    Wrong(&'static str),
}

impl Seen {
    /// What was seen, if this holds, and else what is wrong.
    pub fn only_if(self, holds: bool, wrong: &'static str) -> Seen {
        if holds { self } else { Seen::Wrong(wrong) }
    }

    /// What so many calls were seen to do, of which some were refused, and the others left this count. None where one
    /// of them did not fit.
    pub fn of_many(calls: u8, refused: Option<u64>, left: u64) -> Seen {
        let seen = match refused {
            Some(0) => Seen::Answered,
            Some(_) => Seen::Refused,
            None => return Seen::Wrong("the counts do not fit"),
        };
        let sum = left.wrapping_add(refused.unwrap_or(0));
        seen.only_if(sum == u64::from(calls), "some are missing")
    }
}
