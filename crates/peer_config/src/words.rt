//! The words that a file stands for.

use crate::config::Config;
use crate::entry::{Entry, Given};
use std::alloc::{AllocError, Global};

// Puts the word of a flag after the others.
fn push_flag(
    alloc: Global,
    words: &mut Vec<String>,
    flag: &str,
    word: &str,
) -> Result<(), AllocError> {
    words.push(format!(in alloc; "--{flag}={word}")?)?;
    Ok(())
}

// Puts the word of an entry after the others, if it stands for one.
fn push_entry(alloc: Global, words: &mut Vec<String>, entry: &Entry) -> Result<(), AllocError> {
    let flag = entry.key.as_str();
    match &entry.given {
        Given::Word(word) => push_flag(alloc, words, flag, word.as_str()),
        Given::Switch(true) => {
            words.push(format!(in alloc; "--{flag}")?)?;
            Ok(())
        }
        _ => Ok(()),
    }
}

// Puts the words of the flags that count after the others, but for that of the table.
fn push_flags(alloc: Global, words: &mut Vec<String>, config: &Config) -> Result<(), AllocError> {
    for entry in config.entries.iter() {
        if !entry.is_overridden && entry.key.as_str() != "table" {
            push_entry(alloc, words, entry)?;
        }
    }
    Ok(())
}

// Puts the word of the table after the others, if one counts.
fn push_table(alloc: Global, words: &mut Vec<String>, config: &Config) -> Result<(), AllocError> {
    match (config.table(), config.place_of_flag("table")) {
        (Some(table), Some(_)) => push_flag(alloc, words, "table", table),
        _ => Ok(()),
    }
}

// Puts the words of the groups that count after the others.
fn push_groups(alloc: Global, words: &mut Vec<String>, config: &Config) -> Result<(), AllocError> {
    for group in config.groups.iter() {
        let name = group.name.as_str();
        match group.url() {
            Some(url) if group.has("url") => words.push(format!(in alloc; "{name}={url}")?)?,
            _ => {}
        }
    }
    Ok(())
}

/// The words of a command line, and those of a file for what it does not give.
pub fn words_of(alloc: Global, config: &Config, own: &[String]) -> Result<Vec<String>, AllocError> {
    let mut words = Vec::new(alloc);
    for program in own.iter().take(1) {
        words.push(program.clone()?)?;
    }
    push_flags(alloc, &mut words, config)?;
    push_table(alloc, &mut words, config)?;
    for word in own.iter().skip(1) {
        words.push(word.clone()?)?;
    }
    push_groups(alloc, &mut words, config)?;
    Ok(words)
}
