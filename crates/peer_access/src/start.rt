//! The start of a text, which a record has beside it.
ghost use Rattle.std.specs.Prelude.{◌≡◌, ◌≤◌, take};

// How many bytes of a text a record has.
const MOST_BYTES: usize = 256;

/// The first bytes of a text, 256 at most.
#[derive(Clone, Copy)]
pub struct TextStart {
    bytes: [u8; MOST_BYTES],
    len: usize,
    ghost fits: { len ≤ 256 },
}

impl TextStart {
    ghost use Rattle.peer_access.specs.Starts.{start_of};

    /// Those of this text.
    pub fn of(text: &[u8]) -> TextStart
        ensures { start_of result ≡ take 256 text.now }
    {
        let len = text.len().min(MOST_BYTES);
        let mut bytes = [0; MOST_BYTES];
        bytes[..len].copy_from_slice(&text[..len]);
        TextStart { bytes, len }
    }

    /// These bytes.
    pub fn as_slice(&self) -> &[u8]
        ensures { result.now ≡ start_of self.now }
    {
        &self.bytes[..self.len]
    }
}
