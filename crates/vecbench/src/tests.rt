//! Whole inputs, given to `serve` as the program gives it standard input.
use std::io;
use std::io::{ErrorKind, Read, Write};
use std::process::Abort;
use std::test::Fail;
use vecbench_lines::serve::serve;

mod filters;
mod total;
mod trees;

/// Unions of sets.
const UNIONS: &str = "\
set union 1,3 2,3 => 1,2,3
set union - - => -
set union - 7 => 7
set union 1,2,3,4,5 3,9 => 1,2,3,4,5,9
set union 18446744073709551615 0 => 0,18446744073709551615
set union 007 000018446744073709551615 => 7,18446744073709551615
";

/// The other operations on sets, and their tests.
const OPERATIONS: &str = "\
set intersection 1,3,5 3,4,5 => 3,5
set intersection 1 2 => -
set xor 1,2 2,3 => 1,3
set xor - - => -
set difference 1,2,3 2 => 1,3
set subset 1,3 1,2,3 => true
set subset 1,2,3 1,3 => false
set superset 1,3 1,2,3 => false
set superset 1,2,3 1,3 => true
set disjoint - - => true
set disjoint 1,2 2,3 => false
";

/// Lines that begin with `shape`.
const SHAPES: &str = "\
shape - => .
shape . => .*
shape ab,ac => a(b* c*)
shape aabbcc,aabb => aabb*(cc*)
shape .,a => .*(a*)
shape b,a,b => .(a* b*)
shape abc,abd,ab => ab*(c* d*)
shape a,A => line 1: fault 3: not a number or key
shape a, => line 1: fault 3: not a number or key
shape a,- => line 1: fault 3: not a number or key
shape a,.b => line 1: fault 3: not a number or key
shape => line 1: fault 4: wrong count of words
shape a b => line 1: fault 4: wrong count of words
";

/// Each fault.
const FAULTS: &str = "\
fly => line 1: fault 1: unknown command
Set union 1 2 => line 1: fault 1: unknown command
set fly 1 2 => line 1: fault 1: unknown command
set union 3,1 2 => line 1: fault 2: not ascending
set union 1 2,2 => line 1: fault 2: not ascending
set union 18446744073709551616 0 => line 1: fault 3: not a number or key
set union 99999999999999999999999 0 => line 1: fault 3: not a number or key
set union 1, 2 => line 1: fault 3: not a number or key
set union 1,,2 2 => line 1: fault 3: not a number or key
set union 1,- 2 => line 1: fault 3: not a number or key
set union +1 2 => line 1: fault 3: not a number or key
set union 1 2a => line 1: fault 3: not a number or key
set union 1 => line 1: fault 4: wrong count of words
set union 1 2 3 => line 1: fault 4: wrong count of words
set => line 1: fault 4: wrong count of words
";

/// The fault that comes first: an unknown first word before the count of words, the count before
/// the operation and the lists, the operation before the lists, the left list before the right one,
/// and in one list the numbers before their order.
const FIRST_FAULTS: &str = "\
fly union => line 1: fault 1: unknown command
set fly 3,1 => line 1: fault 4: wrong count of words
set union 3,1 x 1 => line 1: fault 4: wrong count of words
set fly 3,1 x => line 1: fault 1: unknown command
set union 3,1 x => line 1: fault 2: not ascending
set union x 3,1 => line 1: fault 3: not a number or key
set union 3,1,x 2 => line 1: fault 3: not a number or key
set union 2 3,1,18446744073709551616 => line 1: fault 3: not a number or key
";

/// Inputs of no line, of several, or with other ends and gaps than most have. Each is listed with
/// its answer and status.
const INPUTS: [(&str, &str, u8); 10] = [
    ("", "", 0),
    ("\n", "", 0),
    ("\nfly\n", "line 2: fault 1: unknown command\n", 1),
    ("set union 1,3 2,3", "1,2,3\n", 0),
    ("set union 1 2\r\nset union 3 4\r\n", "1,2\n3,4\n", 0),
    (
        "\r\n \t\r\nfly\r\n",
        "line 3: fault 1: unknown command\n",
        1,
    ),
    ("\tset\t union  1 \t 2 \n", "1,2\n", 0),
    // Only the CR that an LF follows ends a line.
    (
        "set union 1 2\r",
        "line 1: fault 3: not a number or key\n",
        1,
    ),
    (
        "set union 1 2\r\r\n",
        "line 1: fault 3: not a number or key\n",
        1,
    ),
    (
        "set union 3,1 2\nset union 1 2\nfly",
        "line 1: fault 2: not ascending\n1,2\nline 3: fault 1: unknown command\n",
        1,
    ),
];

/// Checks the answer to an input, and the status.
fn check(rt: &(impl Abort + AllocGlobal), input: &str, answers: &str, status: u8) {
    let mut output = Vec::new(rt.alloc());
    let ended = serve(rt.alloc(), &mut input.as_bytes(), &mut output);
    assert_eq!(rt; output.as_slice(), answers.as_bytes(), "at {input:?}");
    assert_eq!(rt; ended, status, "at {input:?}");
}

/// Checks rows `LINE => ANSWER`. Each line is an input of its own, and a fault has status 1.
fn check_lines(rt: &(impl Abort + AllocGlobal), rows: &str) -> Result<(), Fail> {
    for row in rows.lines() {
        let (line, answer) = row.split_once(" => ").ok_or(row)?;
        let input = format!(in rt.alloc(); "{line}\n")?;
        let answers = format!(in rt.alloc(); "{answer}\n")?;
        let status = u8::from(answer.starts_with("line 1: fault "));
        check(rt, input.as_str(), answers.as_str(), status);
    }
    Ok(())
}

#[test]
fn answers_whole_inputs(rt: HostRuntime) -> Result<(), Fail> {
    for (input, answers, status) in INPUTS {
        check(&rt, input, answers, status);
    }
    for rows in [UNIONS, OPERATIONS, SHAPES, FAULTS, FIRST_FAULTS] {
        check_lines(&rt, rows)?;
    }
    Ok(())
}

#[test]
fn answers_lines_longer_than_its_buffers(rt: HostRuntime) -> Result<(), Fail> {
    let mut list = String::new(rt.alloc());
    list.push_str("1000")?;
    for number in 1001u32..4000 {
        write_number(&mut list, number)?;
    }
    let line = format!(in rt.alloc(); "set union {list} -\n")?;
    let text = format!(in rt.alloc(); "{line}{line}")?;
    let wanted = format!(in rt.alloc(); "{list}\n{list}\n")?;
    check(&rt, text.as_str(), wanted.as_str(), 0);
    Ok(())
}

fn write_number(list: &mut String, number: u32) -> Result<(), std::alloc::AllocError> {
    use std::fmt::Write;
    write!(list, ",{number}")
}

/// Gives its bytes one at a time, and fails at a certain call.
#[derive(Drop)]
struct FailingReader<'a> {
    text: &'a [u8],
    calls_left: usize,
}

impl Read for FailingReader<'_> {
    fn read(&mut self, buf: &mut [u8]) -> io::Result<usize> {
        if self.calls_left == 0 {
            return Err(io::Error::from(ErrorKind::Other));
        }
        self.calls_left -= 1;
        match (self.text, buf) {
            ([first, rest @ ..], [place, ..]) => {
                *place = *first;
                self.text = rest;
                Ok(1)
            }
            _ => Ok(0),
        }
    }
}

#[test]
fn ends_where_reading_fails(rt: HostRuntime) {
    let text = b"set union 1 2\nfly\n";
    for (calls, answers) in [
        (0, ""),
        (13, ""),
        (14, "1,2\n"),
        (17, "1,2\n"),
        (18, "1,2\nline 2: fault 1: unknown command\n"),
    ] {
        let mut input = FailingReader {
            text,
            calls_left: calls,
        };
        let mut output = Vec::new(rt.alloc());
        let status = serve(rt.alloc(), &mut input, &mut output);
        assert_eq!(rt; status, 2, "after {calls} calls");
        assert_eq!(rt;
            output.as_slice(),
            answers.as_bytes(),
            "after {calls} calls"
        );
    }
}

/// Keeps what is written, and fails at a certain call.
#[derive(Drop)]
struct FailingWriter {
    written: Vec<u8>,
    calls_left: usize,
}

impl Write for FailingWriter {
    fn write(&mut self, buf: &[u8]) -> io::Result<usize> {
        if self.calls_left == 0 {
            return Err(io::Error::from(ErrorKind::Other));
        }
        self.calls_left -= 1;
        self.written.extend_from_slice(buf)?;
        Ok(buf.len())
    }

    fn flush(&mut self) -> io::Result<()> {
        Ok(())
    }
}

#[test]
fn ends_where_writing_fails(rt: HostRuntime) {
    for (calls, answers, status) in [
        (0, "", 2),
        (1, "1,2\n", 2),
        (2, "1,2\n3\n", 2),
        (100, "1,2\n3\nline 3: fault 1: unknown command\n", 1),
    ] {
        let mut input = b"set union 1 2\nset union - 3\nfly\n".as_slice();
        let mut output = FailingWriter {
            written: Vec::new(rt.alloc()),
            calls_left: calls,
        };
        let ended = serve(rt.alloc(), &mut input, &mut output);
        assert_eq!(rt;
            output.written.as_slice(),
            answers.as_bytes(),
            "after {calls} calls"
        );
        assert_eq!(rt; ended, status, "after {calls} calls");
    }
}

/// Gives its bytes, each after a call that is interrupted.
#[derive(Drop)]
struct InterruptedReader<'a> {
    text: &'a [u8],
    is_interrupted: bool,
}

impl Read for InterruptedReader<'_> {
    fn read(&mut self, buf: &mut [u8]) -> io::Result<usize> {
        self.is_interrupted = !self.is_interrupted;
        if self.is_interrupted {
            return Err(io::Error::from(ErrorKind::Interrupted));
        }
        self.text.read(buf)
    }
}

#[test]
fn reads_again_after_an_interruption(rt: HostRuntime) {
    let mut input = InterruptedReader {
        text: b"set union 1 2\n",
        is_interrupted: false,
    };
    let mut output = Vec::new(rt.alloc());
    assert_eq!(rt; serve(rt.alloc(), &mut input, &mut output), 0);
    assert_eq!(rt; output.as_slice(), b"1,2\n".as_slice());
}
