//! What a command line gives.

use clap::ArgMatches;
use clap::parser::ValueSource;

/// Whether a flag is given.
pub(crate) fn is_given(matches: &ArgMatches<'_>, flag: &str) -> bool {
    matches.value_source(flag) == Some(ValueSource::CommandLine)
}

// The name in a word that names a group and its URL.
fn name_in<'w>(word: &'w str) -> &'w str {
    match word.split_once('=') {
        Some((name, _)) => name,
        None => word,
    }
}

/// Whether a group of this name is given.
pub(crate) fn is_given_group(matches: &ArgMatches<'_>, name: &str) -> bool {
    let words = matches.get_strs("GROUP=URL").unwrap_or(&[]);
    words.iter().any(|word| name_in(word) == name)
}
