//! What the page is made of: names, what they are for, and numbers.
ghost use Rattle.std.specs.Prelude.{◌≡◌, ◌++◌, codes, decimal, flat_map, OnOk};
ghost use Rattle.std.specs.Char.{digit_char};
ghost use Rattle.peer_stats.specs.Families.{bound_text, counter_text, family_text, gauge_text, hundredths_text, labelled_text};
ghost use Rattle.peer_stats.specs.Families.{number_text, sample_text, seconds_text, three_digits};

use crate::label::decimal_digit;
use itoa::Buffer;
use std::alloc::AllocError;

/// Appends what a name is for, and of which type it is.
pub(crate) fn put_family(
    page: &mut Vec<u8>,
    name: &[u8],
    kind: &[u8],
    help: &[u8],
) -> Result<(), AllocError>
    ensures { OnOk result (page.new.items ≡ page.old.items ++ family_text name.now kind.now help.now) }
{
    page.extend_from_slice(b"# HELP ")?;
    page.extend_from_slice(name)?;
    page.extend_from_slice(b" ")?;
    page.extend_from_slice(help)?;
    page.extend_from_slice(b"\n# TYPE ")?;
    page.extend_from_slice(name)?;
    page.extend_from_slice(b" ")?;
    page.extend_from_slice(kind)?;
    page.extend_from_slice(b"\n")?;
    Ok(())
}

/// Appends a number and the end of its line.
pub(crate) fn put_number(page: &mut Vec<u8>, value: u64) -> Result<(), AllocError>
    ensures { OnOk result (page.new.items ≡ page.old.items ++ number_text value) }
{
    page.extend_from_slice(Buffer::new().format(value).as_bytes())?;
    page.extend_from_slice(b"\n")?;
    Ok(())
}

/// Appends a number that may be without a bound, and the end of its line.
pub(crate) fn put_bound(page: &mut Vec<u8>, value: Option<u64>) -> Result<(), AllocError>
    ensures { OnOk result (page.new.items ≡ page.old.items ++ bound_text value) }
{
    match value {
        Some(number) => put_number(page, number),
        None => page.extend_from_slice(b"+Inf\n"),
    }
}

/// Appends so many hundredths, and the end of their line.
pub(crate) fn put_hundredths(page: &mut Vec<u8>, value: u64) -> Result<(), AllocError>
    ensures { OnOk result (page.new.items ≡ page.old.items ++ hundredths_text value) }
{
    page.extend_from_slice(Buffer::new().format(value / 100).as_bytes())?;
    page.extend_from_slice(b".")?;
    page.push(decimal_digit((value / 10 % 10) as u8))?;
    page.push(decimal_digit((value % 10) as u8))?;
    page.extend_from_slice(b"\n")?;
    Ok(())
}

// Appends the last three digits of a number.
fn put_three(page: &mut Vec<u8>, value: u64) -> Result<(), AllocError>
    ensures { OnOk result (page.new.items ≡ page.old.items ++ three_digits value) }
{
    page.push(decimal_digit((value / 100 % 10) as u8))?;
    page.push(decimal_digit((value / 10 % 10) as u8))?;
    page.push(decimal_digit((value % 10) as u8))?;
    Ok(())
}

/// Appends so many microseconds, in seconds, and the end of their line.
pub(crate) fn put_seconds(page: &mut Vec<u8>, micros: u64) -> Result<(), AllocError>
    ensures { OnOk result (page.new.items ≡ page.old.items ++ seconds_text micros) }
{
    page.extend_from_slice(Buffer::new().format(micros / 1_000_000).as_bytes())?;
    page.extend_from_slice(b".")?;
    put_three(page, micros / 1_000)?;
    put_three(page, micros)?;
    page.extend_from_slice(b"\n")?;
    Ok(())
}

// Appends a number with its name.
fn put_sample(page: &mut Vec<u8>, name: &[u8], value: u64) -> Result<(), AllocError>
    ensures { OnOk result (page.new.items ≡ page.old.items ++ sample_text name.now value) }
{
    page.extend_from_slice(name)?;
    page.extend_from_slice(b" ")?;
    put_number(page, value)?;
    Ok(())
}

/// Appends a number with its name and a label.
pub(crate) fn put_labelled(
    page: &mut Vec<u8>,
    name: &[u8],
    label: &[u8],
    value: u64,
) -> Result<(), AllocError>
    ensures { OnOk result (page.new.items ≡ page.old.items ++ labelled_text name.now label.now value) }
{
    page.extend_from_slice(name)?;
    page.extend_from_slice(b"{")?;
    page.extend_from_slice(label)?;
    page.extend_from_slice(b"} ")?;
    put_number(page, value)?;
    Ok(())
}

/// Appends numbers of one name, each with its label.
pub(crate) fn put_rows(
    page: &mut Vec<u8>,
    name: &[u8],
    rows: &[(&[u8], u64)],
) -> Result<(), AllocError>
    ensures { OnOk result (page.new.items ≡ page.old.items ++ flat_map (λ r. labelled_text name.now r.0.now r.1) rows.now) }
{
    for row in rows {
        put_labelled(page, name, row.0, row.1)?;
    }
    Ok(())
}

/// Appends a number that never falls.
pub(crate) fn put_counter(
    page: &mut Vec<u8>,
    name: &[u8],
    value: u64,
    help: &[u8],
) -> Result<(), AllocError>
    ensures { OnOk result (page.new.items ≡ page.old.items ++ counter_text name.now value help.now) }
{
    put_family(page, name, b"counter", help)?;
    put_sample(page, name, value)?;
    Ok(())
}

/// Appends a number that rises and falls.
pub(crate) fn put_gauge(
    page: &mut Vec<u8>,
    name: &[u8],
    value: u64,
    help: &[u8],
) -> Result<(), AllocError>
    ensures { OnOk result (page.new.items ≡ page.old.items ++ gauge_text name.now value help.now) }
{
    put_family(page, name, b"gauge", help)?;
    put_sample(page, name, value)?;
    Ok(())
}
