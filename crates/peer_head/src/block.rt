//! Where the first block of a text stands (RFC 9112, section 2.2).
//!
//! `memchr` finds the blank line; nothing is parsed before a whole block is there.
ghost use Rattle.peer_head.specs.Blocks.{IsPastPairs};
ghost use Rattle.peer_head.specs.Cuts.{IsCutOf};

use crate::buffer::HEAD_LIMIT;
use memchr::memmem;

/// Where the first block of a text stands, or why there is none.
#[derive(Clone, Copy, Debug, PartialEq, Eq)]
pub enum Cut {
    Unfinished,
    TooLong,
    Block { start: usize, end: usize },
}

/// Looks for the first blank line behind the leading pairs CR LF.
pub fn find_block(text: &[u8]) -> Cut
    ensures { IsCutOf text.now result }
{
    let start = skip_pairs(text);
    match memmem::find(&text[start..], b"\r\n\r\n") {
        Some(blank) => {
            let end = start + blank + 4;
            if end <= HEAD_LIMIT {
                Cut::Block { start, end }
            } else {
                Cut::TooLong
            }
        }
        None => {
            if text.len() < HEAD_LIMIT {
                Cut::Unfinished
            } else {
                Cut::TooLong
            }
        }
    }
}

/// How many bytes the leading pairs CR LF have.
pub(crate) fn skip_pairs(text: &[u8]) -> usize
    ensures { IsPastPairs text.now result }
{
    let mut at = 0;
    while text.len() - at >= 2 && text[at] == b'\r' && text[at + 1] == b'\n' {
        at += 2;
    }
    at
}
