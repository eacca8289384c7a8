//! What the rules on heads ask of the fields, gathered in one pass over them.
//!
//! A summary of fields is exact: with one field more it is the summary of the fields with that one behind.
ghost use Rattle.std.specs.Prelude.{◌≡◌, ◌++◌, ◌+◌, ◌∷◌, [], List, ℕ, length, map, All};
ghost use Rattle.httparse.specs.Spans.{IsHeaderWithin};
ghost use Rattle.peer_head.specs.Faults.{length_fault, host_fault, head_fault, is_closing};
ghost use Rattle.peer_head.specs.Heads.{HeadField, HeadParts};
ghost use Rattle.peer_head.specs.Summaries.{AgreesOn, IsLengthsOf, IsHostsOf, IsSummaryOf};
ghost use Rattle.peer_head.specs.Views.{field_at};

use crate::fault::HeadFault;
use crate::field::{FieldKind, asks_close, is_digits, is_zero, kind_of};
use httparse::spans::HeaderSpan;

/// What the fields `Content-Length` say.
#[derive(Clone, Copy)]
pub enum Lengths<'b> {
    Missing,
    /// Digits, the same in each of them.
    Agreed(&'b [u8]),
    Bad,
}

impl<'b> Lengths<'b> {
    // With one value more.
    fn with(self, value: &'b [u8]) -> Lengths<'b>
        ensures { (values : List (List ℕ)) → IsLengthsOf values self.entry → IsLengthsOf (values ++ value.now ∷ []) result }
    {
        match self {
            Lengths::Missing => first_length(value),
            Lengths::Agreed(first) => next_length(first, value),
            Lengths::Bad => Lengths::Bad,
        }
    }

    fn fault(self) -> Option<HeadFault>
        ensures { (values : List (List ℕ)) → IsLengthsOf values self.entry → result ≡ length_fault values }
    {
        match self {
            Lengths::Missing => None,
            Lengths::Agreed(number) => content_fault(number),
            Lengths::Bad => Some(HeadFault::BadLength),
        }
    }
}

// What a value says that stands alone.
fn first_length(value: &[u8]) -> Lengths<'_>
    ensures { IsLengthsOf (value.now ∷ []) result }
{
    if is_digits(value) {
        Lengths::Agreed(value)
    } else {
        Lengths::Bad
    }
}

// What a value says behind others.
fn next_length<'b>(first: &'b [u8], value: &[u8]) -> Lengths<'b>
    ensures { (values : List (List ℕ)) → AgreesOn values first.now → IsLengthsOf (values ++ value.now ∷ []) result }
{
    if first == value {
        Lengths::Agreed(first)
    } else {
        Lengths::Bad
    }
}

// Content is announced by any number but 0.
fn content_fault(number: &[u8]) -> Option<HeadFault>
    ensures { (values : List (List ℕ)) → AgreesOn values number.now → result ≡ length_fault values }
{
    if is_zero(number) {
        None
    } else {
        Some(HeadFault::Content)
    }
}

/// How many fields `Host` there are.
#[derive(Clone, Copy)]
pub enum Hosts {
    Missing,
    Single,
    Repeated,
}

impl Hosts {
    // With one host more.
    fn with_one(self) -> Hosts
        ensures { (count : ℕ) → IsHostsOf count self → IsHostsOf (count + 1) result }
    {
        match self {
            Hosts::Missing => Hosts::Single,
            Hosts::Single | Hosts::Repeated => Hosts::Repeated,
        }
    }

    fn fault(self, version: u8) -> Option<HeadFault>
        ensures { (count : ℕ) → IsHostsOf count self → result ≡ host_fault version count }
    {
        match self {
            Hosts::Single => None,
            Hosts::Missing if version == 0 => None,
            Hosts::Missing | Hosts::Repeated => Some(HeadFault::Host),
        }
    }
}

/// What the rules on heads ask of the fields.
#[derive(Clone, Copy)]
pub struct FieldSummary<'b> {
    has_coding: bool,
    lengths: Lengths<'b>,
    hosts: Hosts,
    closes: bool,
}

impl<'b> FieldSummary<'b> {
    // With one field more.
    fn with(self, name: &[u8], value: &'b [u8]) -> FieldSummary<'b>
        ensures { (fields : List HeadField) → IsSummaryOf fields self.entry
            → IsSummaryOf (fields ++ record { name = name.now; value = value.now } ∷ []) result }
    {
        match kind_of(name) {
            FieldKind::Host => FieldSummary {
                hosts: self.hosts.with_one(),
                ..self
            },
            FieldKind::Connection => FieldSummary {
                closes: self.closes | asks_close(value),
                ..self
            },
            FieldKind::ContentLength => FieldSummary {
                lengths: self.lengths.with(value),
                ..self
            },
            FieldKind::TransferEncoding => FieldSummary {
                has_coding: true,
                ..self
            },
            FieldKind::Other => self,
        }
    }

    /// The first fault of a head of that version, if it has one.
    pub fn fault(self, version: u8) -> Option<HeadFault>
        ensures { (p : HeadParts) → IsSummaryOf p.fields self.entry → p.minor ≡ version → result ≡ head_fault p }
    {
        if self.has_coding {
            return Some(HeadFault::TransferCoding);
        }
        self.lengths.fault().or(self.hosts.fault(version))
    }

    /// Whether the connection closes after the reply to a head of that version.
    pub fn is_closing(self, version: u8) -> bool
        ensures { (p : HeadParts) → IsSummaryOf p.fields self.entry → p.minor ≡ version → result ≡ is_closing p }
    {
        version == 0 || self.closes
    }
}

/// Gathers what the fields at these places say.
pub fn summary_of<'b>(block: &'b [u8], fields: &[HeaderSpan]) -> FieldSummary<'b>
    requires { All (IsHeaderWithin (length block.now)) fields.now }
    ensures { IsSummaryOf (map (field_at block.now) fields.now) result }
{
    let mut summary = FieldSummary {
        has_coding: false,
        lengths: Lengths::Missing,
        hosts: Hosts::Missing,
        closes: false,
    };
    for field in fields {
        summary = summary.with(field.name.of(block), field.value.of(block));
    }
    summary
}
