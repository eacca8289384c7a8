//! The word of the flag `--log`.
ghost use Rattle.std.specs.Prelude.{◌≡◌};
ghost use Rattle.peer_flags.specs.Forms.{form_named};

use crate::fault::{BadWord, WordFault};
use clap::ArgMatches;
use peer_log::LogForm;

// The form of lines that a word names, if it names one.
fn form_of(word: &str) -> Option<LogForm>
    ensures { result ≡ form_named word.now }
{
    if word == "text" {
        return Some(LogForm::Text);
    }
    if word == "json" {
        return Some(LogForm::Json);
    }
    None
}

/// The form of lines that is asked for, or the word that names none.
pub(crate) fn log<'w>(matches: &ArgMatches<'w>) -> Result<LogForm, BadWord<'w>> {
    let word = matches.get_str("log").unwrap_or("");
    match form_of(word) {
        Some(form) => Ok(form),
        None => Err(BadWord {
            flag: "log",
            word,
            fault: WordFault::Log,
        }),
    }
}
