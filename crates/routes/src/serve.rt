//! Lines from a reader, each applied or answered.

use route_table::answer::{answer, change};
use route_table::fault::Fault;
use route_table::line::Line;
use route_table::table::Table;
use std::alloc::Global;
use std::io;
use std::io::{BufRead, ErrorKind, Write};

/// Applies each line of a table. A line that has a fault changes nothing, and is reported on
/// `errors`; the others are applied. Answers whether no line had a fault.
pub fn load<I: BufRead, E: Write>(
    alloc: Global,
    table: &mut Table,
    name: &str,
    input: &mut I,
    errors: &mut E,
) -> io::Result<bool> {
    let mut line = Vec::new(alloc);
    let mut is_faultless = true;
    // Counted, so that the call returns for any input. No input is that long.
    for number in 1..u64::MAX {
        let done = match read_line(input, &mut line)? {
            Reading::End => break,
            Reading::NoMemory => Err(Fault::NoMemory),
            Reading::Line => change_line(alloc, table, line.as_slice()),
        };
        if let Err(fault) = done {
            is_faultless = false;
            writeln!(errors, "{name}: line {number}: {fault}")?;
        }
    }
    Ok(is_faultless)
}

/// Answers each line of the input on `output`, before the next one is read. A line that has a fault
/// is reported on `errors`, and has no answer. Answers whether no line had a fault.
pub fn serve<I: BufRead, O: Write, E: Write>(
    alloc: Global,
    table: &mut Table,
    input: &mut I,
    output: &mut O,
    errors: &mut E,
) -> io::Result<bool> {
    let mut line = Vec::new(alloc);
    let mut text = String::new(alloc);
    let mut is_faultless = true;
    // Counted, so that the call returns for any input. No input is that long.
    for number in 1..u64::MAX {
        text.clear();
        let done = match read_line(input, &mut line)? {
            Reading::End => break,
            Reading::NoMemory => Err(Fault::NoMemory),
            Reading::Line => answer_line(alloc, table, line.as_slice(), &mut text),
        };
        match done {
            Ok(()) => output.write_all(text.as_bytes())?,
            Err(fault) => {
                is_faultless = false;
                writeln!(errors, "standard input: line {number}: {fault}")?;
            }
        }
        output.flush()?;
    }
    Ok(is_faultless)
}

fn change_line(alloc: Global, table: &mut Table, line: &[u8]) -> Result<(), Fault> {
    change(alloc, table, Line::read(text_of(line)?)?)
}

fn answer_line(
    alloc: Global,
    table: &mut Table,
    line: &[u8],
    text: &mut String,
) -> Result<(), Fault> {
    answer(alloc, table, Line::read(text_of(line)?)?, text)
}

/// The text of a line.
fn text_of(line: &[u8]) -> Result<&str, Fault> {
    str::from_utf8(line).map_err(|_| Fault::NotText)
}

/// The result of reading a line.
#[derive(Clone, Copy, Debug, PartialEq, Eq)]
enum Reading {
    Line,
    /// There was no memory for the line. It was skipped.
    NoMemory,
    End,
}

/// Reads a line, with the LF that ends it.
fn read_line<I: BufRead>(input: &mut I, line: &mut Vec<u8>) -> io::Result<Reading> {
    line.clear();
    match input.read_until(b'\n', line) {
        Ok(0) => Ok(Reading::End),
        Ok(_) => Ok(Reading::Line),
        Err(error) if error.kind() == ErrorKind::OutOfMemory => {
            input.skip_until(b'\n')?;
            Ok(Reading::NoMemory)
        }
        Err(error) => Err(error),
    }
}
