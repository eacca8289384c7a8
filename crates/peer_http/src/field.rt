//! A field that a request has behind `host` and `user-agent`: its name and its value (RFC 9110, section 5).
//!
//! It promises that the name is a token and none of those that say where a request goes, who asks, how long it is or what becomes of
//! its connection, and that the value has no byte which may not stand there, and no blank at either end.
ghost use Rattle.std.specs.Prelude.{◌≡◌, ◌++◌, ◌-◌, ◌⊎◌, ◌^◌, IfErr, IfOk, IsTrue, None, OnOk, Some, length, min, reverse};
ghost use Rattle.httparse.specs.Grammar.{skip_ows, trim_ows};
ghost use Rattle.http1.specs.Head.{is_trimmed_value};
ghost use Rattle.peer_http.specs.Fields.{fault_of, field_line, is_own, may_be_added};
ghost use Rattle.peer_http.specs.declared.fault.FieldFault.TheVariants as refused;

use crate::fault::FieldFault;
use http1::text::eq_ignore_case;
use httparse::{is_header_value, is_space_or_tab, is_token};
use std::alloc::{AllocError, Global};

/// A field of a request.
#[derive(Drop)]
pub struct Field {
    name: Vec<u8>,
    value: Vec<u8>,
    ghost addable: { IsTrue (may_be_added (name.items, value.items)) },
}

fn trim_start(mut value: &[u8]) -> &[u8]
    ensures { result.now ≡ skip_ows value.now }
{
    while let [first, rest @ ..] = value
        && is_space_or_tab(*first)
    {
        value = rest;
    }
    value
}

fn trim_end(mut value: &[u8]) -> &[u8]
    ensures { result.now ≡ reverse (skip_ows (reverse value.now)) }
{
    while let [rest @ .., last] = value
        && is_space_or_tab(*last)
    {
        value = rest;
    }
    value
}

// The value without the blanks at its ends.
fn trim(value: &[u8]) -> &[u8]
    ensures { result.now ≡ trim_ows value.now }
{
    trim_end(trim_start(value))
}

// Whether it may stand as a value that has no blank at either end.
fn is_trimmed_value(value: &[u8]) -> bool
    ensures { result ≡ is_trimmed_value value.now }
{
    match value {
        [] => true,
        [first, ..] if is_space_or_tab(*first) => false,
        [.., last] if is_space_or_tab(*last) => false,
        _ => is_header_value(value),
    }
}

// Whether whoever sends a request sets a field of this name itself, or it is one of the connection.
fn is_own(name: &[u8]) -> bool
    ensures { result ≡ is_own name.now }
{
    eq_ignore_case(name, b"host")
        | (eq_ignore_case(name, b"user-agent")
            | (eq_ignore_case(name, b"content-length")
                | (eq_ignore_case(name, b"transfer-encoding")
                    | (eq_ignore_case(name, b"connection")
                        | (eq_ignore_case(name, b"keep-alive")
                            | (eq_ignore_case(name, b"proxy-connection")
                                | (eq_ignore_case(name, b"te")
                                    | (eq_ignore_case(name, b"trailer")
                                        | (eq_ignore_case(name, b"upgrade")
                                            | eq_ignore_case(name, b"expect"))))))))))
}

// Why this name and this value are no field, if they are none.
fn judge(name: &[u8], value: &[u8]) -> Option<FieldFault>
    ensures { result ≡ fault_of (name.now, value.now) }
{
    if !is_token(name) {
        Some(FieldFault::Name)
    } else if is_own(name) {
        Some(FieldFault::Own)
    } else if is_trimmed_value(value) {
        None
    } else {
        Some(FieldFault::Value)
    }
}

/// Why a name and a value, without the blanks around it, are no field that may be added, if they are none.
pub fn field_fault(name: &[u8], value: &[u8]) -> Option<FieldFault>
    ensures { result ≡ fault_of (name.now, trim_ows value.now) }
{
    judge(name, trim(value))
}

impl Field {
    ghost use Rattle.peer_http.specs.Lines.{line_of};

    /// The field of a name and a value, without the blanks around it.
    pub fn new(alloc: Global, name: &[u8], value: &[u8]) -> Result<Field, FieldFault>
        ensures field { IfOk result (λ field. line_of field ≡ (name.now, trim_ows value.now)) }
        ensures refused { IfErr result (λ why. (why ≡ refused.Memory) ⊎ (fault_of (name.now, trim_ows value.now) ≡ Some why)) }
    {
        let value = trim(value);
        if let Some(fault) = judge(name, value) {
            return Err(fault);
        }
        let Ok(name) = name.to_vec(alloc) else {
            return Err(FieldFault::Memory);
        };
        let Ok(value) = value.to_vec(alloc) else {
            return Err(FieldFault::Memory);
        };
        Ok(Field { name, value })
    }

    /// Its name.
    pub fn name(&self) -> &[u8]
        ensures { result.now ≡ self.now.name.items }
    {
        self.name.as_slice()
    }

    /// How many bytes its line has, 2^64 - 1 at most.
    pub fn line_len(&self) -> usize
        ensures { result ≡ min (length (field_line (line_of self.now))) (2 ^ 64 - 1) }
    {
        self.name
            .len()
            .saturating_add(self.value.len())
            .saturating_add(4)
    }

    /// Puts its line behind these bytes.
    pub(crate) fn put(&self, bytes: &mut Vec<u8>) -> Result<(), AllocError>
        ensures { OnOk result (bytes.new.items ≡ bytes.old.items ++ field_line (line_of self.now)) }
    {
        bytes.extend_from_slice(self.name.as_slice())?;
        bytes.extend_from_slice(b": ")?;
        bytes.extend_from_slice(self.value.as_slice())?;
        bytes.extend_from_slice(b"\r\n")
    }

    /// Whether the other one has the same name and the same value.
    pub(crate) fn is_same(&self, other: &Field) -> bool
        ensures { IsTrue result → line_of self.now ≡ line_of other.now }
    {
        self.name == other.name && self.value == other.value
    }
}
