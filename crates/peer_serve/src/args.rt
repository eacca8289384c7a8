//! The words that the program is called with.
ghost use Rattle.std.specs.Prelude.{◌≡◌, ℕ, IfSome, IsNone, string_bytes};
ghost use Rattle.peer_serve.specs.Words.{IsNumber, IsServer, ReadsAs};

use peer_fill::MAX_SEATS;

/// A server, as the words ask for it.
#[derive(Clone, Copy, Debug, PartialEq, Eq)]
pub struct ServerWords<'w> {
    pub address: &'w str,
    pub workers: usize,
    /// How many connections are served at a time, each by a seat.
    pub conns: usize,
    /// How many connections each seat takes, one after the other.
    pub rounds: u64,
    /// Whether a table on standard input is served, and not the source for demonstrations.
    pub table: bool,
}

/// What the program is asked to do.
#[derive(Clone, Copy, Debug, PartialEq, Eq)]
pub enum Mode<'w> {
    /// To serve one connection on standard input and output.
    Pipe,
    /// To serve an address.
    Server(ServerWords<'w>),
}

/// What the words behind the program's name ask for, or none where they are wrong.
pub fn read_args<'w>(words: &'w [String]) -> Option<Mode<'w>>
    ensures { ReadsAs words.now result }
{
    match words {
        [] => Some(Mode::Pipe),
        [address, workers, conns, rounds] => { server(address, workers, conns, rounds, false) }
        [address, workers, conns, rounds, dash] if dash.as_str() == "-" => {
            server(address, workers, conns, rounds, true)
        }
        _ => None,
    }
}

// A server, where the numbers are right.
fn server<'w>(
    address: &'w String,
    workers: &String,
    conns: &String,
    rounds: &String,
    table: bool,
) -> Option<Mode<'w>>
    ensures { IsServer (string_bytes address.now) (string_bytes workers.now)
        (string_bytes conns.now) (string_bytes rounds.now) table result }
{
    Some(Mode::Server(ServerWords {
        address: address.as_str(),
        workers: read_number(workers.as_str(), MAX_SEATS)? as usize,
        conns: read_number(conns.as_str(), MAX_SEATS)? as usize,
        rounds: read_number(rounds.as_str(), 1_000_000_000)?,
        table,
    }))
}

// The number from 1 to `most` that digits alone write.
fn read_number(word: &str, most: u64) -> Option<u64>
    ensures number { IfSome result (λ n. IsNumber most word.now n) }
    ensures none { IsNone result → (n : ℕ) → IsNumber most word.now n → ⊥ }
{
    let bytes = word.as_bytes();
    if bytes.is_empty() || bytes[0] == b'+' {
        return None;
    }
    match word.parse::<u64>() {
        Ok(number) if 0 < number && number <= most => Some(number),
        _ => None,
    }
}
