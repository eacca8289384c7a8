//! The lines of fields in the head of a request.
ghost use Rattle.std.specs.Prelude.{◌≡◌, ◌++◌, ℕ, IsTrue, List, OnOk};
ghost use Rattle.peer_http.specs.Fields.{crlf, field_lines};
ghost use Rattle.peer_http.specs.Lines.{lines_of};

use crate::field::Field;
use std::alloc::AllocError;

// Puts the lines of fields behind these bytes.
fn put_lines(bytes: &mut Vec<u8>, fields: &[Field]) -> Result<(), AllocError>
    ensures { OnOk result (bytes.new.items ≡ bytes.old.items ++ field_lines (lines_of fields.now)) }
{
    for field in fields {
        field.put(bytes)?;
    }
    Ok(())
}

/// Puts the lines of fields behind those of a head, before the empty line that ends it.
pub(crate) fn add_lines(head: &mut Vec<u8>, fields: &[Field]) -> Result<(), AllocError>
    ensures { (lines : List ℕ) → head.old.items ≡ lines ++ crlf
        → OnOk result (head.new.items ≡ lines ++ field_lines (lines_of fields.now) ++ crlf) }
{
    head.truncate(head.len().saturating_sub(2));
    put_lines(head, fields)?;
    head.extend_from_slice(b"\r\n")
}

/// Whether these are the same fields in the same order.
pub fn are_same(fields: &[Field], others: &[Field]) -> bool
    ensures { IsTrue result → lines_of fields.now ≡ lines_of others.now }
{
    if fields.len() != others.len() {
        return false;
    }
    for index in 0..fields.len() {
        if !fields[index].is_same(&others[index]) {
            return false;
        }
    }
    true
}
