//! A table whose text its type names, so that the type fixes each answer.
ghost use Rattle.std.specs.Prelude.{◌≡◌, ℕ, List, [], length, refl};
ghost use Rattle.peer_table.specs.Tables.{lines_of, names_of, number_below, number_in, table_allowed, table_answer, table_limited};

use crate::table::TableSource;
use peer_source::{FunctionalSource, GetResult, GroupId, Source};
use peer_view::AllocSink;
use std::alloc::Global;
use std::marker::{Brand, PhantomData};

/// A text that a type names. A call at `Brand` picks which.
pub trait TableText {
    ghost text: { List ℕ };
}

impl TableText for Brand {
    ghost text = { [] };
}

/// A table of the text that `T` names. Its answers are known by its type, so it is a `FunctionalSource`.
#[derive(Drop)]
pub struct NamedTable<T: TableText + Send + Sync> {
    table: TableSource,
    of: PhantomData<T>,
    ghost same: { table ≡ T.text },
}

impl<T: TableText + Send + Sync> NamedTable<T> {
    /// The table under that name.
    pub fn new(table: TableSource) -> NamedTable<T>
        requires { table ≡ T.text }
    {
        NamedTable {
            table,
            of: PhantomData,
        }
    }
}

impl<T: TableText + Send + Sync> Source for NamedTable<T> {
    ghost answers = { λ s g k a. a ≡ table_answer (lines_of T.text) g k };

    ghost allowed = { λ g k a. a ≡ table_answer (lines_of T.text) g k };

    ghost count = { λ s. length (names_of (lines_of T.text)) };

    ghost number_of = { λ s name. number_in (lines_of T.text) name };

    fn group_count(&self) -> usize {
        self.table.group_count()
    }

    fn group(&self, name: &[u8]) -> Option<GroupId> {
        self.table.group(name)
    }

    fn get(&self, alloc: Global, group: GroupId, key: &[u8], sink: &mut AllocSink) -> GetResult {
        self.table.get(alloc, group, key, sink)
    }

    ghost within = { λ s g k a h. h };

    ghost limited = { λ g k a h. table_limited g k a (table_allowed (lines_of T.text) g k a h) };

    ghost answered = { λ s g k. (table_answer (lines_of T.text) g k, refl) };

    ghost numbered = { λ s name i e. number_below (lines_of T.text) name i e };
}

impl<T: TableText + Send + Sync> FunctionalSource for NamedTable<T> {
    ghost the_answer = { λ g k. table_answer (lines_of T.text) g k };

    ghost the_number = { λ name. number_in (lines_of T.text) name };

    ghost single = { λ g k a h. h };

    ghost fixed_names = { λ s name. refl };
}
