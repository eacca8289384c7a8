//! Tables of texts by chance, and a plain model of tables: a list of lines, searched from the front.
use crate::tests::inputs::next;
use crate::tests::tables::{fault_of, has, table_of};
use peer_source::{Names, Source};
use peer_table::{TableFault, TableSource};
use std::alloc::{AllocError, Global};

// What fields are made of, and what stands now and then in the place of a separator.
const LETTERS: &[u8] = b"ab\r\xFF";

const SEPARATORS: &[u8] = b"\t\na";

// Adds one of these bytes.
fn add_one(text: &mut Vec<u8>, state: &mut u64, bytes: &[u8]) -> Result<(), AllocError> {
    if bytes.is_empty() {
        return Ok(());
    }
    text.push(bytes[next(state) % bytes.len()])?;
    Ok(())
}

// Adds a field of at most two bytes, and mostly its separator.
fn add_field(text: &mut Vec<u8>, state: &mut u64, separator: u8) -> Result<(), AllocError> {
    for _ in 0..next(state) % 3 {
        add_one(text, state, LETTERS)?;
    }
    if next(state) % 40 == 0 {
        return add_one(text, state, SEPARATORS);
    }
    text.push(separator)?;
    Ok(())
}

// A text of at most five lines, some of them bad.
fn text_of(alloc: Global, state: &mut u64) -> Result<Vec<u8>, AllocError> {
    let mut text = Vec::new(alloc);
    for _ in 0..next(state) % 6 {
        add_field(&mut text, state, b'\t')?;
        add_field(&mut text, state, b'\t')?;
        add_field(&mut text, state, b'\n')?;
    }
    Ok(text)
}

// A line of the model.
#[derive(Clone, Copy)]
struct Line<'a> {
    group: &'a [u8],
    key: &'a [u8],
    value: &'a [u8],
}

// The three fields of a line.
fn line_of(line: &[u8]) -> Option<Line<'_>> {
    let mut fields = line.split(|byte| *byte == b'\t');
    let found = Line {
        group: fields.next()?,
        key: fields.next()?,
        value: fields.next()?,
    };
    match fields.next() {
        Some(_) => None,
        None => Some(found),
    }
}

// The line that follows these, or its fault.
fn next_line<'a>(
    lines: &[Line<'a>],
    text: &'a [u8],
    number: usize,
) -> Result<Line<'a>, TableFault> {
    let Some(text) = text.strip_suffix(b"\n") else {
        return Err(TableFault::Line(number));
    };
    let Some(line) = line_of(text) else {
        return Err(TableFault::Line(number));
    };
    let is_repeated = lines
        .iter()
        .any(|seen| seen.group == line.group && seen.key == line.key);
    if is_repeated {
        return Err(TableFault::Repeated(number));
    }
    Ok(line)
}

// The lines of a text, or its first fault.
fn lines_of(alloc: Global, text: &[u8]) -> Result<Result<Vec<Line<'_>>, TableFault>, AllocError> {
    let mut lines: Vec<Line<'_>> = Vec::new(alloc);
    let mut number: usize = 0;
    for text in text.split_inclusive(|byte| *byte == b'\n') {
        number = number.saturating_add(1);
        match next_line(&lines, text, number) {
            Ok(line) => lines.push(line)?,
            Err(fault) => return Ok(Err(fault)),
        }
    }
    if number == 0 {
        return Ok(Err(TableFault::Line(1)));
    }
    Ok(Ok(lines))
}

// Whether the numbers of the groups are those of their first appearance.
fn are_numbered(table: &TableSource, lines: &[Line<'_>]) -> bool {
    let mut count: usize = 0;
    for (i, line) in lines.iter().enumerate() {
        let Some(number) = Names::of(table).group(line.group) else {
            return false;
        };
        let is_new = !lines[..i].iter().any(|seen| seen.group == line.group);
        if number.number > count || is_new != (number.number == count) {
            return false;
        }
        if is_new {
            count = count.saturating_add(1);
        }
    }
    table.group_count() == count
}

// Whether the table has the value of each line.
fn has_lines(alloc: Global, table: &TableSource, lines: &[Line<'_>]) -> bool {
    let mut all = true;
    for line in lines {
        all &= has(alloc, table, line.group, line.key, line.value, true);
    }
    all
}

// Whether a text is read as a table of these lines.
fn is_table(alloc: Global, text: &[u8], lines: &[Line<'_>]) -> bool {
    match table_of(alloc, &[text]) {
        Some(table) => are_numbered(&table, lines) && has_lines(alloc, &table, lines),
        None => false,
    }
}

// Whether a text is read as its lines say, or has their fault.
fn is_as_modelled(alloc: Global, text: &[u8]) -> Result<bool, AllocError> {
    match lines_of(alloc, text)? {
        Ok(lines) => Ok(is_table(alloc, text, &lines)),
        Err(fault) => Ok(fault_of(alloc, text)? == Some(fault)),
    }
}

#[test]
fn answers_as_a_list_of_lines_does(rt: HostRuntime) {
    let alloc = rt.alloc();
    let mut state = 7;
    for _ in 0..250 {
        let text = text_of(alloc, &mut state).expect(&rt, "memory");
        assert!(rt; is_as_modelled(alloc, &text) == Ok(true));
    }
}
