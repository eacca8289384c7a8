//! Sources whose answers are a function of group and key.
ghost use Rattle.std.specs.Prelude.{◌≡◌, ℕ, List, Option};
ghost use Rattle.peer_source.specs.Answers.{Answer};

use crate::source::Source;

/// A source whose type fixes one answer for each group and key, and the names of its groups with their numbers.
pub trait FunctionalSource: Source {
    // The answer for a group's number and a key.
    ghost the_answer: { ℕ → List ℕ → Answer };
    // The number of the group of a name.
    ghost the_number: { List ℕ → Option ℕ };

    /// Marks the type, and does nothing: a trait with ghost members needs a function above its laws.
    fn mark(&self) {}

    // No other answer is allowed, and every source of the type has these names.
    ghost single: { (g : ℕ) (k : List ℕ) (a : Answer) → Self.allowed g k a → a ≡ the_answer g k };

    ghost fixed_names: { (s : Self) (name : List ℕ) → Self.number_of s name ≡ the_number name };
}
