//! Which answer a request for the page gets.
ghost use Rattle.std.specs.Prelude.{◌≡◌};
ghost use Rattle.peer_stats.specs.Answers.{answer_to, is_reading, page_at};

/// What a request gets.
#[derive(Clone, Copy, Debug, PartialEq, Eq)]
pub enum Answer {
    /// The numbers.
    Metrics,
    /// Whether a loop stands still.
    Health,
    /// Whether clients are served.
    Ready,
    /// 404: there is no such page.
    NotFound,
    /// 405: only GET and HEAD are answered.
    NotAllowed,
}

// Whether a method is answered.
fn is_reading(method: &[u8]) -> bool
    ensures { result ≡ is_reading method.now }
{
    method == b"GET".as_slice() || method == b"HEAD".as_slice()
}

// The page at a path.
fn page_at(path: &[u8]) -> Answer
    ensures { result ≡ page_at path.now }
{
    if path == b"/metrics".as_slice() {
        return Answer::Metrics;
    }
    if path == b"/healthz".as_slice() {
        return Answer::Health;
    }
    if path == b"/readyz".as_slice() {
        return Answer::Ready;
    }
    Answer::NotFound
}

impl Answer {
    /// What a request with this method for this path gets.
    pub fn to(method: &[u8], path: &[u8]) -> Answer
        ensures { result ≡ answer_to method.now path.now }
    {
        if is_reading(method) {
            page_at(path)
        } else {
            Answer::NotAllowed
        }
    }
}
