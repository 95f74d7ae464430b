//! The faults that a line can have.
use std::alloc::{AllocError, AllocFailed};
use std::io;
use std::io::Write;

/// Why a line has no answer.
#[derive(Clone, Copy, Debug, PartialEq, Eq)]
pub enum Fault {
    /// The first word or an operation is unknown.
    UnknownCommand,
    /// The numbers of a list do not ascend strictly.
    NotAscending,
    /// A word is not the number list or key list that is expected at its place.
    NotANumberOrKey,
    /// There are too few words, or too many.
    WrongCount,
    /// A request for memory was refused.
    NoMemory,
}

impl Fault {
    ghost use Rattle.std.specs.Prelude.{◌≡◌, OnOk};
    ghost use Rattle.std.specs.Io.KnownBytes.{Appends};
    ghost use Rattle.vecbench_lines.specs.Fault.{number_of, text_of, fault_line};

    /// The number with which the fault is answered.
    pub fn number(self) -> u8
        ensures { result ≡ number_of self }
    {
        match self {
            Fault::UnknownCommand => 1,
            Fault::NotAscending => 2,
            Fault::NotANumberOrKey => 3,
            Fault::WrongCount => 4,
            Fault::NoMemory => 5,
        }
    }

    /// The text with which the fault is answered.
    pub fn text(self) -> &'static str
        ensures { result.now ≡ text_of self }
    {
        match self {
            Fault::UnknownCommand => "unknown command",
            Fault::NotAscending => "not ascending",
            Fault::NotANumberOrKey => "not a number or key",
            Fault::WrongCount => "wrong count of words",
            Fault::NoMemory => "no memory",
        }
    }

    /// Writes the answer to line `line`, piece by piece: it takes no memory.
    pub fn write<W: Write>(self, line: u64, output: &mut W) -> io::Result<()>
        ensures { OnOk result
            (Appends (W.contents output.old) (W.contents output.new) (fault_line line self)) }
    {
        let number = self.number();
        let text = self.text();
        writeln!(output, "line {line}: fault {number}: {text}")
    }
}

impl From<AllocError> for Fault {
    ghost use Rattle.vecbench_lines.specs.declared.fault.Fault.TheVariants.{NoMemory};
    ghost use Rattle.std.specs.Prelude.{◌≡◌};

    ghost from_gives = { λ _ fault. fault ≡ NoMemory };

    fn from(_refusal: AllocError) -> Fault {
        Fault::NoMemory
    }
}

impl<T: Drop> From<AllocFailed<T>> for Fault {
    ghost use Rattle.vecbench_lines.specs.declared.fault.Fault.TheVariants.{NoMemory};
    ghost use Rattle.std.specs.Prelude.{◌≡◌};

    ghost from_gives = { λ _ fault. fault ≡ NoMemory };

    fn from(_refusal: AllocFailed<T>) -> Fault {
        Fault::NoMemory
    }
}
