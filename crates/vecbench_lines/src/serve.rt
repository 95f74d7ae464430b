//! Lines from a reader, each answered to a writer.
ghost use Rattle.std.specs.Prelude.{◌≡◌, ◌+◌, ◌≤◌, ◌<◌, ◌++◌, ◌∷◌, [], List, ℕ, Option, Some, true, false, length, OnOk, IfOk};
ghost use Rattle.std.specs.Io.KnownBytes.{ReadConsumes};
ghost use Rattle.vecbench_lines.specs.Served.{IsServed};

use crate::command::answer_line;
use crate::fault::Fault;
use crate::parts::Separator;
use std::alloc::{AllocError, Global};
use std::io;
use std::io::{ErrorKind, Read, Write};

/// No line had a fault.
pub const ANSWERED: u8 = 0;
/// Some line had a fault.
pub const FAULTY: u8 = 1;
/// Reading or writing failed, or there was no memory for a buffer.
pub const FAILED: u8 = 2;

/// The number of bytes that are read at once.
const CHUNK: usize = 8192;
/// The number of bytes of a line, and of an answer, for which room is made at the start.
const ROOM: usize = 256;

/// The state between two pieces of the input. The two buffers are used again from line to line.
#[derive(Drop)]
struct Session {
    alloc: Global,
    /// What was read of the line so far, if there was memory for it.
    line: Vec<u8>,
    is_stored: bool,
    /// The number of lines before it.
    lines: u64,
    answer: String,
    has_fault: bool,
}

impl Session {
    ghost use Rattle.std.specs.Prelude.{◌≡◌, ◌+◌, ◌≤◌, ◌<◌, ◌++◌, ◌∷◌, [], List, ℕ, Option, Some, true, false, length, OnOk, IfOk, IsTrue, ◌↔◌};
    ghost use Rattle.std.specs.Str.Lines.{strip_carriage_return, lines, lines_of_parts};
    ghost use Rattle.vecbench_lines.specs.Served.{Progress, Holds, MissesSome, Stands, ended_in, left_of};
    ghost use Rattle.std.specs.Prelude.{None, MatchResult, if◌then◌else◌};
    ghost use Rattle.std.specs.String.{string_bytes};
    ghost use Rattle.vecbench_lines.specs.Judged.{fault_in_words, IsFault};
    ghost use Rattle.vecbench_lines.specs.Answers.{AnswersWords};
    ghost use Rattle.vecbench_lines.specs.Parts.{parts_of, words_of};
    ghost use Rattle.vecbench_lines.specs.declared.parts.Separator.TheVariants.{Newline};

    fn new(alloc: Global) -> Result<Session, AllocError>
        ensures { IfOk result (λ s. (s.is_stored ≡ true) × (s.line.items ≡ []) × (s.lines ≡ 0)
            × (s.has_fault ≡ false)) }
    {
        Ok(Session {
            alloc,
            line: Vec::with_capacity(alloc, ROOM)?,
            is_stored: true,
            lines: 0,
            answer: String::with_capacity(alloc, ROOM)?,
            has_fault: false,
        })
    }

    /// The status for what was answered.
    fn status(&self) -> u8
        ensures { result ≡ (if self.now.has_fault then 1 else 0) }
    {
        if self.has_fault { FAULTY } else { ANSWERED }
    }

    /// Takes a piece of the line.
    fn take(&mut self, piece: &[u8])
        ensures holds { (taken : List ℕ) → Holds self.old taken
            → Holds self.new (taken ++ piece.now) }
        ensures misses { (taken : List ℕ) → MissesSome self.old taken
            → MissesSome self.new (taken ++ piece.now) }
        ensures same { (self.new.lines ≡ self.old.lines)
            × (self.new.has_fault ≡ self.old.has_fault) }
    {
        if self.is_stored && self.line.extend_from_slice(piece).is_err() {
            self.is_stored = false;
        }
    }

    /// Whether a piece of a line was taken.
    fn is_within_line(&self) -> bool
        ensures { (taken : List ℕ) → Holds self.now taken → MissesSome self.now taken
            → IsTrue result ↔ (0 < length taken) }
    {
        !self.is_stored || !self.line.is_empty()
    }

    /// Makes the answer to the line that was taken, or answers its fault.
    fn make_answer(&mut self) -> Result<(), Fault>
        ensures answers { (taken : List ℕ) → Holds self.old taken
            → OnOk result (AnswersWords (words_of taken) (string_bytes self.new.answer)) }
        ensures judged { (taken : List ℕ) → Holds self.old taken
            → MatchResult result (λ _. fault_in_words (words_of taken) ≡ None)
            (λ fault. IsFault (fault_in_words (words_of taken)) fault) }
        ensures same { (self.new.lines ≡ self.old.lines)
            × (self.new.has_fault ≡ self.old.has_fault) }
    {
        if !self.is_stored {
            return Err(Fault::NoMemory);
        }
        self.answer.clear();
        answer_line(self.alloc, self.line.as_slice(), &mut self.answer)
    }

    /// Answers the line that was taken, and begins the next one.
    fn answer_taken<O: Write>(&mut self, output: &mut O) -> io::Result<()>
        ensures replies { (taken : List ℕ) → (lines : List (List ℕ)) → (start : Option (List ℕ))
            → Holds self.old taken → Progress lines start (O.contents output.old) self.old
            → OnOk result (Progress (lines ++ taken ∷ []) start (O.contents output.new) self.new) }
        ensures begins { (self.new.is_stored ≡ true) × (self.new.line.items ≡ []) }
    {
        let result = self.make_answer();
        self.lines = self.lines.saturating_add(1);
        self.line.clear();
        self.is_stored = true;
        match result {
            Ok(()) => output.write_all(self.answer.as_bytes()),
            Err(fault) => {
                self.has_fault = true;
                fault.write(self.lines, output)
            }
        }
    }

    /// Answers the line that was taken, at the LF that ends it: a CR before that is no part of it.
    fn end_line<O: Write>(&mut self, output: &mut O) -> io::Result<()>
        ensures replies { (taken : List ℕ) → (lines : List (List ℕ)) → (start : Option (List ℕ))
            → Holds self.old taken → Progress lines start (O.contents output.old) self.old
            → OnOk result (Progress (lines ++ strip_carriage_return taken ∷ []) start
            (O.contents output.new) self.new) }
        ensures begins { (self.new.is_stored ≡ true) × (self.new.line.items ≡ []) }
    {
        if self.line.last() == Some(&b'\r') {
            self.line.pop();
        }
        self.answer_taken(output)
    }

    /// Answers the lines that end within `chunk`, and takes the piece that is left.
    fn take_chunk<O: Write>(&mut self, chunk: &[u8], output: &mut O) -> io::Result<()>
        ensures { (lines : List (List ℕ)) → (taken : List ℕ) → (start : Option (List ℕ))
            → Stands lines taken start (O.contents output.old) self.old
            → OnOk result (Stands (lines ++ ended_in taken (parts_of Newline chunk.now))
            (left_of taken (parts_of Newline chunk.now)) start (O.contents output.new) self.new) }
    {
        let (piece, mut rest) = Separator::Newline.cut(chunk);
        self.take(piece);
        while let Some(text) = rest {
            self.end_line(output)?;
            let (piece, behind) = Separator::Newline.cut(text);
            self.take(piece);
            rest = behind;
        }
        Ok(())
    }

    /// Answers the last line, if no LF ends it, and flushes what is written.
    fn finish<O: Write>(&mut self, output: &mut O) -> io::Result<()>
        ensures { (lines : List (List ℕ)) → (taken : List ℕ) → (start : Option (List ℕ))
            → Stands lines taken start (O.contents output.old) self.old
            → OnOk result (Progress (lines ++ lines_of_parts (taken ∷ [])) start
            (O.contents output.new) self.new) }
    {
        if !self.is_within_line() {
            return output.flush();
        }
        self.answer_taken(output)?;
        output.flush()
    }

    /// Answers the lines of `input` up to its end. What is answered is flushed before more is read.
    fn run<I: Read, O: Write>(
        &mut self,
        chunk: &mut [u8],
        input: &mut I,
        output: &mut O,
    ) -> io::Result<()>
        requires { 0 < length chunk.old }
        ensures { (text : List ℕ) → I.remaining input.old ≡ Some text
            → Stands [] [] (O.contents output.old) (O.contents output.old) self.old
            → OnOk result (Progress (lines text) (O.contents output.old) (O.contents output.new)
            self.new) }
    {
        // Counted, so that the call returns for any input. No input is that long.
        for _ in 0..u64::MAX {
            output.flush()?;
            let count = read_some(input, chunk)?;
            if count == 0 {
                return self.finish(output);
            }
            self.take_chunk(&chunk[..count], output)?;
        }
        Err(io::Error::from(ErrorKind::Other))
    }
}

/// The buffer into which the input is read.
fn new_chunk(alloc: Global) -> Result<Vec<u8>, AllocError>
    ensures { IfOk result (λ chunk. 0 < length chunk.items) }
{
    vec![in alloc; 0; CHUNK]
}

/// Reads the next bytes into `chunk`, and again where the read was interrupted.
fn read_some<I: Read>(input: &mut I, chunk: &mut [u8]) -> io::Result<usize>
    ensures within { IfOk result (λ count. count ≤ length chunk.new) }
    ensures bytes { ReadConsumes (I.remaining input.old) (I.remaining input.new) result chunk.new }
{
    // Counted, so that the call returns for any input. No input is interrupted that often.
    for _ in 0..u64::MAX {
        match input.read(chunk) {
            Err(error) if error.kind() == ErrorKind::Interrupted => {}
            result => return result,
        }
    }
    Err(io::Error::from(ErrorKind::Other))
}

/// Answers each line of `input` on `output`, in the order of the lines, and returns the status:
/// `ANSWERED`, `FAULTY` or `FAILED`.
///
/// The buffers are made before the first read. Where reading or writing fails, the answers before
/// that were written.
pub fn serve<I: Read, O: Write>(alloc: Global, input: &mut I, output: &mut O) -> u8
    ensures status { result ≤ 2 }
    ensures served { (text : List ℕ) → I.remaining input.old ≡ Some text → result < 2
        → IsServed text (O.contents output.old) (O.contents output.new) result }
{
    let Ok(mut chunk) = new_chunk(alloc) else {
        return FAILED;
    };
    let Ok(mut session) = Session::new(alloc) else {
        return FAILED;
    };
    match session.run(chunk.as_mut_slice(), input, output) {
        Ok(()) => session.status(),
        Err(_) => FAILED,
    }
}
