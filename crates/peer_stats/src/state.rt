//! Whether clients are served, and what the page says of it.
ghost use Rattle.std.specs.Prelude.{◌≡◌, ◌↔◌, IsTrue};
ghost use Rattle.peer_stats.specs.States.{state_line, state_of};

/// How far a server is.
#[derive(Clone, Copy, Debug, PartialEq, Eq)]
pub enum Stage {
    /// No client is accepted yet.
    Starts,
    Serves,
    /// No client is accepted any more.
    Ends,
}

/// Whether clients are served.
#[derive(Clone, Copy, Debug, PartialEq, Eq)]
pub enum ServerState {
    Ready,
    Starts,
    Ends,
    /// A loop stands still.
    StandsStill,
}

impl ServerState {
    /// That of a server that is so far, and of which a loop stands still or none does.
    pub fn of(stage: Stage, stands_still: bool) -> ServerState
        ensures { result ≡ state_of stage stands_still }
    {
        if stands_still {
            return ServerState::StandsStill;
        }
        match stage {
            Stage::Starts => ServerState::Starts,
            Stage::Serves => ServerState::Ready,
            Stage::Ends => ServerState::Ends,
        }
    }

    /// Whether clients are served.
    pub fn is_ready(self) -> bool
        ensures { IsTrue result ↔ (self ≡ ServerState.Ready) }
    {
        matches!(self, ServerState::Ready)
    }

    /// Whether no loop stands still.
    pub fn is_healthy(self) -> bool
        ensures { IsTrue result ↔ ¬ (self ≡ ServerState.StandsStill) }
    {
        !matches!(self, ServerState::StandsStill)
    }

    /// The line that says so.
    pub fn line(self) -> &'static [u8]
        ensures { result.now ≡ state_line self }
    {
        match self {
            ServerState::Ready => b"ready\n",
            ServerState::Starts => b"it starts\n",
            ServerState::Ends => b"it ends\n",
            ServerState::StandsStill => b"a loop stands still\n",
        }
    }
}
