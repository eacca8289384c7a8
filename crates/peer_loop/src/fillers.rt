//! Which threads fill what is asked for.
ghost use Rattle.std.specs.Prelude.{◌≡◌};

/// Which threads fill what is asked for.
#[derive(Clone, Copy, Debug, PartialEq, Eq)]
pub enum Fillers {
    /// So many threads beside the loops, from 1 to 16. A call of the source may take its time.
    Threads(usize),
    /// The loops themselves, between their clients. All clients of a loop wait while it calls the source.
    Loops,
}

impl Fillers {
    ghost use Rattle.peer_loop.specs.Serving.{seats_of};

    /// How many seats they need, beside so many loops.
    pub fn seats(self, loops: usize) -> usize
        ensures { result ≡ seats_of self loops }
    {
        match self {
            Fillers::Threads(count) => count,
            Fillers::Loops => loops,
        }
    }
}
