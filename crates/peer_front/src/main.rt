//! The program: a peer server for groupcache's clients in front of HTTP services, a table, or both.
//!
//! It runs the server of `peer_loop` over the groups of `peer_groups`, as the flags of `peer_flags` say. Each word that cannot
//! be used is refused by a sentence before anything is bound.
#![tactic(auto)]

mod access_log;
mod access_target;
mod appends;
mod caches;
mod check;
mod config;
mod end;
mod exit;
mod facts;
mod failing;
mod files;
mod group_caches;
mod group_settings;
mod grown;
mod headers;
mod listen;
mod log;
mod names;
mod page;
mod running;
mod said;
mod serve;
mod slow;
mod source;
mod table;
mod troubles;
mod until_eof;

use crate::appends::Appends;
use crate::config::{ConfigFile, Said, check_entries, config_of, read_file, say_flag};
use crate::exit::{BAD_WORD, DONE, Exit, OUT_OF_MEMORY, no_output, refuse};
use crate::files::hold_streams;
use crate::serve::{check_flags, serve_asked};
use clap::error::ErrorKind;
use clap::{ArgMatches, Error};
use peer_config::Config;
use peer_flags::{Options, command};
use peer_origin::Wires;
use std::fs::Files;
use std::io::Read;
use std::net::{Net, TcpListener, TcpStream};
use std::process::ExitCode;
use std::random::RandomSource;
use std::sync::Wait;
use std::thread::Threads;
use std::time::Clock;
use std::{env, io};

fn main(rt: HostRuntime) -> ExitCode {
    let words = match words_of(&rt) {
        Ok(words) => words,
        Err(exit) => return exit.code(),
    };
    let matches = match matches_of(&rt, words.as_slice()) {
        Ok(matches) => matches,
        Err(exit) => return exit.code(),
    };
    let _streams = hold_streams(&rt);
    match matches.get_str("config") {
        Some(path) => run_file(&rt, path, &matches, words.as_slice()).code(),
        None => run(&rt, &matches, None).code(),
    }
}

// What these words are read as, or says why they cannot be used.
fn matches_of<'w, H: AllocGlobal + Print + Eprint>(
    rt: &H,
    words: &'w [String],
) -> Result<ArgMatches<'w>, Exit> {
    let Ok(command) = command(rt.alloc()) else {
        return Err(out_of_memory(rt));
    };
    match command.try_get_matches_from(words) {
        Ok(matches) => Ok(matches),
        Err(error) => Err(say_unmatched(rt, &error)),
    }
}

// Does what a file asks for, and the words of the command line, which win.
fn run_file<
    R: Read + Send + Drop + 'static,
    H: Net<Listener = TcpListener, Stream = TcpStream> + Threads + Wait + Clock + Sync + Wires,
>(rt: &H, path: &str, matches: &ArgMatches<'_>, own: &[String]) -> Exit
where
    H: AllocGlobal + Input<Reader = R> + Print + Eprint + Files + Appends + RandomSource,
{
    let text = match read_file(rt, rt.alloc(), path) {
        Ok(text) => text,
        Err(exit) => return exit,
    };
    let mut config = match config_of(rt, rt.alloc(), path, text.as_slice()) {
        Ok(config) => config,
        Err(exit) => return exit,
    };
    if let Err(exit) = check_entries(rt, path, text.as_slice(), &config) {
        return exit;
    }
    config.note_given(matches);
    let Ok(words) = peer_config::words_of(rt.alloc(), &config, own) else {
        return out_of_memory(rt);
    };
    run_words(rt, path, text.as_slice(), &config, words.as_slice())
}

// Does what the words of a file and of the command line ask for.
fn run_words<
    R: Read + Send + Drop + 'static,
    H: Net<Listener = TcpListener, Stream = TcpStream> + Threads + Wait + Clock + Sync + Wires,
>(rt: &H, path: &str, text: &[u8], config: &Config, words: &[String]) -> Exit
where
    H: AllocGlobal + Input<Reader = R> + Print + Eprint + Files + Appends + RandomSource,
{
    match matches_of(rt, words) {
        Ok(matches) => run(rt, &matches, Some(ConfigFile { path, text, config })),
        Err(exit) => exit,
    }
}

// The words that the program is called with, its name first.
fn words_of(rt: &HostRuntime) -> Result<Vec<String>, Exit> {
    let args = match env::args(rt) {
        Ok(args) => args,
        Err(error) if error.kind() == io::ErrorKind::InvalidData => {
            return Err(refuse(rt, &"a word is not UTF-8", BAD_WORD));
        }
        Err(_) => return Err(out_of_memory(rt)),
    };
    args.collect::<Vec<String>>(rt.alloc())
        .map_err(|_| out_of_memory(rt))
}

// Says what the words ask to be told, or why they cannot be used.
fn say_unmatched<H: AllocGlobal + Print + Eprint>(rt: &H, error: &Error) -> Exit {
    let printed = error.print(rt);
    if error.kind() == ErrorKind::OutOfMemory {
        return OUT_OF_MEMORY;
    }
    match printed {
        _ if error.use_stderr() => BAD_WORD,
        Ok(()) => DONE,
        Err(error) => no_output(rt, &error),
    }
}

// Does what the words ask for.
fn run<
    R: Read + Send + Drop + 'static,
    H: Net<Listener = TcpListener, Stream = TcpStream> + Threads + Wait + Clock + Sync + Wires,
>(rt: &H, matches: &ArgMatches<'_>, file: Option<ConfigFile<'_>>) -> Exit
where
    H: AllocGlobal + Input<Reader = R> + Print + Eprint + Files + Appends + RandomSource,
{
    let options = match Options::of(matches) {
        Ok(options) => options,
        Err(bad) => {
            let why = Said {
                word: bad.word,
                why: &bad.fault,
            };
            say_flag(rt, file, bad.flag, &why);
            return BAD_WORD;
        }
    };
    let words = matches.get_strs("GROUP=URL").unwrap_or(&[]);
    match check_flags(rt, &options, !words.is_empty(), file) {
        Ok(()) => serve_asked(rt, &options, words, file),
        Err(exit) => exit,
    }
}

// Says that memory was refused.
fn out_of_memory<H: AllocGlobal + Eprint>(rt: &H) -> Exit {
    refuse(rt, &"out of memory", OUT_OF_MEMORY)
}
