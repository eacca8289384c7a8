//! What threads of a pool wait for. They wait by `peer_wait`, which never yields.
use peer_wait::Notice;

// Among how many notices the flights are spread. Most waits so have one of their own.
const FLIGHT_NOTICES: usize = 256;

/// What is told to those who wait, behind the change that it tells of.
#[derive(Drop)]
pub struct Signals {
    /// A job was pushed, or the pool was stopped.
    pub job: Notice,
    /// The queue has room again.
    pub room: Notice,
    flights: [Notice; FLIGHT_NOTICES],
}

impl Signals {
    pub fn new() -> Signals {
        Signals {
            job: Notice::new(),
            room: Notice::new(),
            flights: Default::default(),
        }
    }

    /// The fill of the flight with this number was put, or that of another one which shares its notice.
    pub fn fill(&self, number: u64) -> &Notice {
        &self.flights[(number % FLIGHT_NOTICES as u64) as usize]
    }
}
