//! The source whose answers are the lines of a text.
ghost use Rattle.std.specs.Prelude.{◌≡◌, ℕ, ◌+◌, ◌-◌, ◌^◌, ◌<◌, ◌≤◌, List, ◌∷◌, ◌++◌, length, Some, None, Ok, Err};
ghost use Rattle.std.specs.Prelude.{refl, IfOk, IfErr, IfSome, IsErr, All, option_map, slice_get};
ghost use Rattle.peer_table.specs.Holds.{Holds};
ghost use Rattle.peer_table.specs.Reads.{IsFirstBad, ReadsAs};
ghost use Rattle.peer_view.specs.ReadWrite.{reading};
ghost use Rattle.peer_table.specs.Tables.{IsShort, IsTableAnswer, first_bad, found_or_missing, lines_of, names_of, no_such_key};
ghost use Rattle.peer_table.specs.Tables.{number_below, number_in, table_allowed, table_answer, table_limited, written};
ghost use Rattle.peer_source.specs.Answers.{Failed};
ghost use Rattle.peer_source.specs.Reports.{reported};

use crate::fault::{TableFault, memory_fault};
use crate::fields::next_of;
use crate::index::{Index, add_line, find, name_at};
use crate::intake::read_all;
use peer_source::{GetFault, GetResult, GroupId, Source};
use peer_view::{AllocSink, ByteView, PeerRead, SinkFault};
use std::alloc::{AllocError, Global};
use std::marker::Model;

/// A table of groups, keys and values. Contracts see its text.
#[derive(Drop)]
pub struct TableSource {
    text: ByteView,
    index: Index,
}

impl Model for TableSource {
    ghost use Rattle.std.specs.Prelude.{List, ℕ};
    ghost use Rattle.peer_table.specs.Holds.{Keeps};

    ghost Value = { List ℕ };

    ghost view = { λ t. t.text };

    ghost invariant = { λ t. Keeps t.text t.index };
}

// The index over the lines of a text, or its first bad line.
fn index_of(alloc: Global, text: &ByteView) -> Result<Index, TableFault>
    requires { length text.now < 2 ^ 63 }
    ensures good { IfOk result (λ _. first_bad text.now ≡ None) }
    ensures holds { IfOk result (λ ix. Holds text.now ix (lines_of text.now)) }
    ensures bad { IfErr result (λ f. IsFirstBad text.now f) }
{
    let mut index = Index::new(alloc);
    let mut from = 0;
    let mut n = 1;
    while let Some(to) = next_of(b'\n', text.as_slice(), from) {
        if let Err(fault) = add_line(alloc, &mut index, text, from, to, n) {
            return Err(fault);
        }
        from = to + 1;
        n += 1;
    }
    if from < text.len() || n == 1 {
        return Err(TableFault::Line(n));
    }
    Ok(index)
}

impl TableSource {
    /// Reads a text until its end is told, with at most so many reads, and takes its lines.
    pub fn read_from<R: PeerRead>(
        alloc: Global,
        reader: &mut R,
        reads: u64,
    ) -> Result<TableSource, TableFault>
        requires { R.calls reader.old + reads < 2 ^ 64 }
        ensures { ReadsAs (reading R.PeerRead reader.old reader.new) reads result }
    {
        let bytes = read_all(alloc, reader, reads)?;
        let text = ByteView::from_vec(bytes).map_err(memory_fault)?;
        let index = index_of(alloc, &text)?;
        Ok(TableSource { text, index })
    }
}

impl TableSource {
    /// The name of the group with this number.
    pub fn name(&self, number: usize) -> Option<&[u8]>
        ensures { option_map (λ name. name.now) result ≡ slice_get (names_of (lines_of self.now)) number }
    {
        name_at(&self.index.names, number).map(ByteView::as_slice)
    }
}

impl TableSource {
    /// The law of tables: the text is that of its lines, none of them bad, and each value is within the limit.
    pub fn law(&self)
        ensures good { first_bad self.now ≡ None }
        ensures whole { written (lines_of self.now) ≡ self.now }
        ensures within { All IsShort (lines_of self.now) }
    {
        let _bytes = self.text.len();
    }
}

// The error of a key that no line has.
fn missing_key_fault(alloc: Global) -> GetFault
    ensures { (value : List ℕ) → IfSome (reported (Err result) value) (λ a. a ≡ Failed no_such_key) }
{
    GetFault::with_text(alloc, b"no such key")
}

// Puts what was found into the sink.
fn put(
    alloc: Global,
    found: Result<Option<ByteView>, AllocError>,
    sink: &mut AllocSink,
) -> Result<(), GetFault>
    ensures found { IfSome (reported result sink.new) (λ a. IfOk found (λ o. a ≡ found_or_missing o)) }
    ensures memory { IsErr found → reported result sink.new ≡ None }
{
    match found {
        Ok(Some(view)) => match sink.set_view(&view) {
            Ok(()) => Ok(()),
            Err(SinkFault::TooLong) => Err(missing_key_fault(alloc)),
            Err(SinkFault::Memory) => Err(GetFault::Memory),
        },
        Ok(None) => Err(missing_key_fault(alloc)),
        Err(_) => Err(GetFault::Memory),
    }
}

impl Source for TableSource {
    ghost answers = { λ s g k a. a ≡ table_answer (lines_of s) g k };

    ghost allowed = { IsTableAnswer };

    ghost count = { λ s. length (names_of (lines_of s)) };

    ghost number_of = { λ s name. number_in (lines_of s) name };

    fn group_count(&self) -> usize {
        self.index.names.len()
    }

    fn group(&self, name: &[u8]) -> Option<GroupId> {
        match self.index.numbers.get(name) {
            Some(number) => Some(GroupId { number: *number }),
            None => None,
        }
    }

    fn get(&self, alloc: Global, group: GroupId, key: &[u8], sink: &mut AllocSink) -> GetResult {
        put(
            alloc,
            find(alloc, &self.text, &self.index, group.number, key),
            sink,
        )
    }

    ghost within = { λ s g k a e. table_allowed (lines_of s) g k a e };

    ghost limited = { λ g k a h. table_limited g k a h };

    ghost answered = { λ s g k. (table_answer (lines_of s) g k, refl) };

    ghost numbered = { λ s name i e. number_below (lines_of s) name i e };
}
