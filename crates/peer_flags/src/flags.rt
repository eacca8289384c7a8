//! What the program can be called with: its flags, their defaults and what `--help` says of them.

use clap::{Arg, ArgAction, Command};
use std::alloc::{AllocError, Global};

// What is given with a flag.
#[derive(Clone, Copy)]
enum Takes {
    // Nothing.
    Nothing,
    // A value of this name, unless there is a file that may have it.
    Required(&'static str),
    // A value of this name.
    Value(&'static str),
    // A value of this name, and by default this one.
    Defaulted(&'static str, &'static str),
    // Words that stand without a flag.
    Words,
}

// A flag, without its dashes.
#[derive(Clone, Copy)]
struct Flag {
    name: &'static str,
    takes: Takes,
    help: &'static str,
}

// The flags that no file has.
const CONFIG: &str = "config";

const CHECK: &str = "check";

// The flags, as `--help` lists them: for what is served, for how services are asked, for how it is served, and for whoever
// runs it.
const FLAGS: [Flag; 25] = [
    Flag {
        name: "listen",
        takes: Takes::Required("ADDR"),
        help: "The address to serve, such as 127.0.0.1:8001, or :8001 for every address of the machine",
    },
    Flag {
        name: CONFIG,
        takes: Takes::Value("FILE"),
        help: "Read flags and groups from a file, in TOML; those given beside it win",
    },
    Flag {
        name: CHECK,
        takes: Takes::Nothing,
        help: "Say what would be served, or why it cannot be, and end",
    },
    Flag {
        name: "demo",
        takes: Takes::Nothing,
        help: "Serve the groups echo, square and fill, for demonstrations",
    },
    Flag {
        name: "table",
        takes: Takes::Value("FILE"),
        help: "Serve the lines GROUP tab KEY tab VALUE of a file",
    },
    Flag {
        name: "GROUP=URL",
        takes: Takes::Words,
        help: "A group, and what stands before its keys at its service, such as thumbs=http://10.0.0.7/thumbs/",
    },
    Flag {
        name: "fetchers",
        takes: Takes::Defaulted("N", "1"),
        help: "Threads that fetch values of services, 1 to 4",
    },
    Flag {
        name: "under-way",
        takes: Takes::Defaulted("N", "1024"),
        help: "Values of services that each of them has under way, 1 to 1024",
    },
    Flag {
        name: "timeout",
        takes: Takes::Defaulted("TIME", "10s"),
        help: "How long a service may take for a value, such as 500ms, 1.5s or 2m; a number alone is seconds",
    },
    Flag {
        name: "connect-timeout",
        takes: Takes::Defaulted("TIME", "2s"),
        help: "How long a connection to one address of a service may take",
    },
    Flag {
        name: "wait",
        takes: Takes::Value("TIME"),
        help: "How long a key may wait until its service may be asked for it; without it as long as --timeout",
    },
    Flag {
        name: "rest-after",
        takes: Takes::Defaulted("N", "3"),
        help: "Values in a row that are late at an address of a service until it rests, 1 to 1000",
    },
    Flag {
        name: "rest",
        takes: Takes::Defaulted("TIME", "10s"),
        help: "How long an address rests at which values are late, or that is not reached",
    },
    Flag {
        name: "connection-for-each",
        takes: Takes::Nothing,
        help: "Send each request to a service on a connection of its own",
    },
    Flag {
        name: "slow",
        takes: Takes::Value("TIME"),
        help: "Say on standard error which values of services take longer than this",
    },
    Flag {
        name: "workers",
        takes: Takes::Defaulted("N", "0"),
        help: "Threads that look up a table or the groups of --demo, 0 to 16; with 0 the loops do that",
    },
    Flag {
        name: "loops",
        takes: Takes::Defaulted("N", "2"),
        help: "Threads that serve connections, 1 to 16",
    },
    Flag {
        name: "connections",
        takes: Takes::Defaulted("N", "10000"),
        help: "Connections open at one moment, 1 to 65536",
    },
    Flag {
        name: "cache",
        takes: Takes::Defaulted("BYTES", "64MiB"),
        help: "Memory that the cache of each group takes, with all that its keys and values need, in bytes, KiB, MiB or GiB",
    },
    Flag {
        name: "cache-keys",
        takes: Takes::Value("N"),
        help: "Keys that the cache of each group keeps at most; without it bytes alone bound it",
    },
    Flag {
        name: "memory",
        takes: Takes::Defaulted("BYTES", "256MiB"),
        help: "Above this, a client that takes no replies gets no further value, in bytes, KiB, MiB or GiB",
    },
    Flag {
        name: "stats",
        takes: Takes::Value("ADDR"),
        help: "Where /metrics, /readyz and /healthz are served, such as 9180 for 127.0.0.1:9180",
    },
    Flag {
        name: "log",
        takes: Takes::Defaulted("FORM", "text"),
        help: "How lines on standard error are written while it serves: text, or json for one object a line",
    },
    Flag {
        name: "access-log",
        takes: Takes::Value("FILE"),
        help: "Append a line for each reply to a file, or to standard output for -, in the form of --log",
    },
    Flag {
        name: "until-eof",
        takes: Takes::Nothing,
        help: "End once standard input has ended and clients have their replies, and print the totals",
    },
];

/// What a flag takes in a file.
#[derive(Clone, Copy, Debug, PartialEq, Eq)]
pub enum FlagKind {
    /// Whether it is given.
    Switch,
    Value,
}

/// What the flag of a name takes in a file, if there is one that may stand there.
pub fn kind_of(name: &str) -> Option<FlagKind> {
    if name == CONFIG || name == CHECK {
        return None;
    }
    let flag = FLAGS.iter().find(|flag| flag.name == name)?;
    match flag.takes {
        Takes::Nothing => Some(FlagKind::Switch),
        Takes::Words => None,
        _ => Some(FlagKind::Value),
    }
}

// A flag, as `clap` reads it.
fn arg_of<'a>(alloc: Global, flag: Flag) -> Result<Arg<'a>, AllocError> {
    let arg = Arg::new(alloc, flag.name).help(flag.help);
    Ok(match flag.takes {
        Takes::Nothing => arg.long(flag.name).action(ArgAction::SetTrue),
        Takes::Required(value) => arg
            .long(flag.name)
            .value_name(value)
            .required_unless_present(CONFIG)?,
        Takes::Value(value) => arg.long(flag.name).value_name(value),
        Takes::Defaulted(value, default) => arg
            .long(flag.name)
            .value_name(value)
            .default_value(default),
        Takes::Words => arg.action(ArgAction::Append).num_args(0..),
    })
}

/// What the program can be called with.
pub fn command<'a>(alloc: Global) -> Result<Command<'a>, AllocError> {
    let mut command = Command::new(alloc, "peer_front").version("0.2.0").about(
        "A peer server for groupcache's clients, in front of HTTP services, a table or both",
    );
    for flag in FLAGS {
        command = command.arg(arg_of(alloc, flag)?)?;
    }
    Ok(command)
}
