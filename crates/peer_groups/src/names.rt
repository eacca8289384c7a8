//! The names of the groups that are served.
ghost use Rattle.std.specs.Prelude.{◌≡◌, IfSome, OnOk, map};
ghost use Rattle.peer_groups.specs.Names.{AreAllNames, AreNumbered};

use crate::groups::name_in;
use peer_source::{MAX_GROUPS, Source};
use peer_table::TableSource;
use std::alloc::{AllocError, Global};

/// The groups for demonstrations, in the order of their numbers.
pub const DEMO_NAMES: [&str; 3] = ["echo", "square", "fill"];

// Puts a name after the others, if it is that of the next group.
fn offer<S: Source>(
    alloc: Global,
    source: &S,
    names: &mut Vec<Vec<u8>>,
    name: &[u8],
) -> Result<(), AllocError>
    requires { AreNumbered (S.number_of source.now) (map (λ n. n.items) names.now.items) }
    ensures { OnOk result (AreNumbered (S.number_of source.now) (map (λ n. n.items) names.new.items)) }
{
    let Some(group) = source.group(name) else {
        return Ok(());
    };
    if group.number != names.len() {
        return Ok(());
    }
    names.push(name.to_vec(alloc)?)?;
    Ok(())
}

// Offers the names of a table, where there is one.
fn offer_table<S: Source>(
    alloc: Global,
    source: &S,
    names: &mut Vec<Vec<u8>>,
    table: &Option<TableSource>,
) -> Result<(), AllocError>
    requires { AreNumbered (S.number_of source.now) (map (λ n. n.items) names.now.items) }
    ensures { OnOk result (AreNumbered (S.number_of source.now) (map (λ n. n.items) names.new.items)) }
{
    let Some(table) = table else {
        return Ok(());
    };
    for number in 0..MAX_GROUPS {
        if let Some(name) = table.name(number) {
            offer(alloc, source, names, name)?;
        }
    }
    Ok(())
}

// Offers the names in words, each of which may name its origin too.
fn offer_words<S: Source>(
    alloc: Global,
    source: &S,
    names: &mut Vec<Vec<u8>>,
    words: &[&str],
) -> Result<(), AllocError>
    requires { AreNumbered (S.number_of source.now) (map (λ n. n.items) names.now.items) }
    ensures { OnOk result (AreNumbered (S.number_of source.now) (map (λ n. n.items) names.new.items)) }
{
    for word in words {
        offer(alloc, source, names, name_in(word).as_bytes())?;
    }
    Ok(())
}

/// The names of the groups of a source, in the order of their numbers, where they are those of this table, of these words and
/// of the demonstrations, one after the other. None where they are not, or memory is refused.
pub fn names_of<S: Source>(
    alloc: Global,
    source: &S,
    table: &Option<TableSource>,
    words: &[&str],
) -> Option<Vec<Vec<u8>>>
    ensures { IfSome result (λ names. AreAllNames (S.number_of source.now) (S.count source.now) (map (λ n. n.items) names.items)) }
{
    let mut names = Vec::new(alloc);
    offer_table(alloc, source, &mut names, table).ok()?;
    offer_words(alloc, source, &mut names, words).ok()?;
    offer_words(alloc, source, &mut names, &DEMO_NAMES).ok()?;
    if names.len() == source.group_count() {
        Some(names)
    } else {
        None
    }
}
