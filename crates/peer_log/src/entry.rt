//! What a line says.

/// How bad it is.
#[derive(Clone, Copy, Debug, PartialEq, Eq)]
pub enum Level {
    /// The server goes on as it should, and something changed.
    Info,
    /// Somebody does not get what was asked for.
    Warn,
}

/// How lines are written.
#[derive(Clone, Copy, Debug, PartialEq, Eq)]
pub enum LogForm {
    /// A text with fields such as `group=colors` at its end.
    Text,
    /// An object of JSON.
    Json,
}

/// What a field says.
#[derive(Clone, Copy, Debug, PartialEq, Eq)]
pub enum Said<'a> {
    Number(u64),
    /// A name or a key, escaped as in a URL: all bytes but letters, digits and `-._~`.
    Name(&'a [u8]),
    /// A word, such as an address: bytes above 7E or below 21 are escaped, and `%`, `"` and `\` are.
    Word(&'a [u8]),
}

/// A field of a line.
#[derive(Clone, Copy, Debug, PartialEq, Eq)]
pub struct Field<'a> {
    pub name: &'a [u8],
    pub said: Said<'a>,
}

/// What a line says.
#[derive(Clone, Copy, Debug, PartialEq, Eq)]
pub struct Entry<'a> {
    pub level: Level,
    /// What happened, in a few words.
    pub what: &'a [u8],
    pub fields: &'a [Field<'a>],
}
