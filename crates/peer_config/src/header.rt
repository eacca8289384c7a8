//! A field of the requests of a group, as a file has it (RFC 9110, section 5).

use peer_http::{FieldFault, field_fault};
use thiserror::Error;

/// A field as a file has it.
#[derive(Clone, Copy, PartialEq, Eq)]
pub struct Header<'c> {
    pub name: &'c str,
    /// What stands for its value, or before the content of the file.
    pub value: &'c str,
    /// The file whose content ends its value.
    pub file: Option<&'c str>,
}

/// Why a text is no field.
#[derive(Clone, Copy, Debug, PartialEq, Eq, Error)]
pub enum HeaderFault {
    #[error("a name, a colon and a value are needed, such as \"Authorization: Bearer @FILE\"")]
    Colon,
    #[error("its name is no token of letters, digits and !#$%&'*+-.^_`|~")]
    Name,
    #[error("a field of this name is sent already, or is one of the connection")]
    Own,
    #[error("its value has a byte that may not stand there")]
    Value,
    #[error("the name of a file is needed after @")]
    File,
}

// The @ at which the name of a file begins: the first one that begins a word.
fn file_at(value: &str) -> Option<usize> {
    let bytes = value.as_bytes();
    for at in 0..bytes.len() {
        if bytes[at] == b'@' && (at == 0 || matches!(bytes[at - 1], b' ' | b'\t')) {
            return Some(at);
        }
    }
    None
}

// The name of the file whose content ends a value, if one does, and what stands before it.
fn split_file<'c>(value: &'c str) -> Option<(&'c str, &'c str)> {
    let at = file_at(value)?;
    let file = value.get(at..)?.strip_prefix('@')?;
    Some((value.get(..at)?, file.trim_matches([' ', '\t'])))
}

// Why a name and a value are no field, if they are none.
fn fault_of(name: &str, value: &str) -> Option<HeaderFault> {
    match field_fault(name.as_bytes(), value.as_bytes()) {
        Some(FieldFault::Name) => Some(HeaderFault::Name),
        Some(FieldFault::Own) => Some(HeaderFault::Own),
        // No memory is needed to judge them.
        Some(FieldFault::Value | FieldFault::Memory) => Some(HeaderFault::Value),
        None => None,
    }
}

impl<'c> Header<'c> {
    /// The field that a text is, or why it is none.
    pub fn of(text: &'c str) -> Result<Header<'c>, HeaderFault> {
        let Some((name, value)) = text.split_once(':') else {
            return Err(HeaderFault::Colon);
        };
        let (value, file) = match split_file(value) {
            Some((value, file)) => (value, Some(file)),
            None => (value, None),
        };
        if file == Some("") {
            return Err(HeaderFault::File);
        }
        match fault_of(name, value) {
            Some(fault) => Err(fault),
            None => Ok(Header { name, value, file }),
        }
    }
}
