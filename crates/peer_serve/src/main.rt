//! The program: groupcache's peer server on a socket, or for one connection on standard input and output.
//!
//! It runs the calls of `peer_socket` and `peer_conn` over the source for demonstrations or a table of one's own. Its
//! contracts say what the words of its call ask for, which status and line go with each end, and which bytes its lines
//! have; for one connection, that the replies are those to what was read, where its reader and writer tell their bytes, as
//! standard input and output do not.
#![tactic(auto)]

ghost use Rattle.std.specs.Prelude.{◌≡◌};

mod args;
mod bind;
mod exit;
mod line;
mod pipe;
mod table;
#[cfg(test)]
mod tests;
mod totals;

use crate::args::{Mode, ServerWords, read_args};
use crate::bind::bind_at;
use crate::exit::{Exit, NO_OUTPUT, OUT_OF_MEMORY, READ_FAILED, SERVED, USAGE, exit_of};
use crate::pipe::peer_pipe;
use crate::table::table_exit;
use crate::totals::write_totals;
use peer_fill::Report;
use peer_runtime::Host;
use peer_socket::peer_server;
use peer_source::{DemoSource, Source};
use peer_table::{NamedTable, TABLE_READS, TableSource, TableText};
use peer_view::{StdReader, StdWriter};
use std::hash::RandomState;
use std::io::Write;
use std::marker::Brand;
use std::net::{Net, TcpListener, TcpStream};
use std::process::ExitCode;
use std::random::RandomSource;
use std::sync::Wait;
use std::thread::Threads;
use std::time::Clock;
use std::{env, io};

// How many bytes of keys and values the cache of each group keeps.
const CACHE_BYTES: u64 = 1_048_576;

fn main(rt: HostRuntime) -> ExitCode {
    let exit = match words_of(&rt) {
        Ok(words) => match read_args(&words) {
            Some(Mode::Pipe) => serve_pipes(&rt),
            Some(Mode::Server(words)) => match table_of(&rt, words) {
                Ok(table) => serve(&rt, table, words),
                Err(exit) => exit,
            },
            None => USAGE,
        },
        Err(exit) => exit,
    };
    if let Some(line) = exit.line {
        let _ = eprintln!(rt; "{line}");
    }
    ExitCode::from(exit.status)
}

// The words behind the program's name, or how a program ends that cannot have them.
fn words_of(rt: &HostRuntime) -> Result<Vec<String>, Exit> {
    let mut args = match env::args(rt) {
        Ok(args) => args,
        Err(error) if error.kind() == io::ErrorKind::OutOfMemory => return Err(OUT_OF_MEMORY),
        Err(_) => return Err(USAGE),
    };
    let _name = args.next();
    let mut words = Vec::new(rt.alloc());
    for word in args {
        if words.push(word).is_err() {
            return Err(OUT_OF_MEMORY);
        }
    }
    Ok(words)
}

// Serves standard input and output.
fn serve_pipes(rt: &HostRuntime) -> Exit {
    let served = peer_pipe(
        rt.alloc(),
        StdReader::new(rt.stdin()),
        StdWriter::new(rt.stdout()),
    );
    exit_of(&served.end)
}

// The table on standard input, where one is asked for, or how the program ends, which has said why there is none.
fn table_of(rt: &HostRuntime, words: ServerWords<'_>) -> Result<Option<TableSource>, Exit> {
    if !words.table {
        return Ok(None);
    }
    let mut input = StdReader::new(rt.stdin());
    match TableSource::read_from(rt.alloc(), &mut input, TABLE_READS) {
        Ok(table) => Ok(Some(table)),
        Err(fault) => Err(Exit {
            status: table_exit(&fault, &mut StdWriter::new(rt.stderr())),
            line: None,
        }),
    }
}

// Where a server listens, and the seed of its caches.
#[derive(Drop)]
struct Bound {
    listener: TcpListener,
    seed: RandomState,
}

// Serves a table, or the source for demonstrations where there is none, at an address.
fn serve<H: Net<Listener = TcpListener, Stream = TcpStream> + Threads + Wait + Clock + Sync>(
    rt: &H,
    table: Option<TableSource>,
    words: ServerWords<'_>,
) -> Exit
where
    H: AllocGlobal + Print + RandomSource,
{
    let Ok(seed) = RandomState::new(rt) else {
        return READ_FAILED;
    };
    let listener = match bind_at(rt, words.address) {
        Ok(listener) => listener,
        Err(exit) => return exit,
    };
    if say_listening(rt).is_err() {
        return NO_OUTPUT;
    }
    let bound = Bound { listener, seed };
    let report = match table {
        Some(table) => serve_table::<Brand, H>(rt, table, bound, words),
        None => serve_source(rt, DemoSource, bound, words),
    };
    match report {
        Some(report) if say_totals(rt, &report) => SERVED,
        Some(_) => NO_OUTPUT,
        None => OUT_OF_MEMORY,
    }
}

// Serves a table under the name of its text, by which the type of the source knows each answer.
fn serve_table<T: TableText + Send + Sync, H: AllocGlobal + Host>(
    rt: &H,
    table: TableSource,
    bound: Bound,
    words: ServerWords<'_>,
) -> Option<Report>
    requires { table ≡ T.text }
{
    serve_source(rt, NamedTable::<T>::new(table), bound, words)
}

// What the pool counted, or none where memory or a thread was refused.
fn serve_source<S: Source + Send + Sync, H: AllocGlobal + Host>(
    rt: &H,
    source: S,
    bound: Bound,
    words: ServerWords<'_>,
) -> Option<Report> {
    let report = peer_server(
        rt,
        rt.alloc(),
        source,
        bound.listener,
        words.workers,
        words.conns,
        words.rounds,
        CACHE_BYTES,
        bound.seed,
    );
    report.ok()
}

// Says that connections can come.
fn say_listening(rt: &(impl AllocGlobal + Print)) -> io::Result<()> {
    println!(rt; "listening")?;
    io::writer(rt).flush()
}

// Says what the pool counted, and whether that went well.
fn say_totals<H: Print>(rt: &H, report: &Report) -> bool {
    let mut writer = StdWriter::new(io::writer(rt));
    write_totals(report, &mut writer).is_ok() && writer.into_inner().flush().is_ok()
}
