//! What can be wrong with a line.

use std::alloc::{AllocError, AllocFailed};
use std::error::Error;
use std::fmt;

/// Why a line has no answer, or changes nothing.
#[derive(Clone, Copy, Debug, PartialEq, Eq)]
pub enum Fault {
    /// The line is not UTF-8.
    NotText,
    /// A word where an address is expected is not one.
    NotAnAddress,
    /// A word where a prefix is expected is not one.
    NotAPrefix,
    /// There are more words than a line of its kind has.
    TooManyWords,
    /// No route has the prefix that is to be removed.
    NoSuchRoute,
    /// A question is in the file of the table.
    NotAChange,
    /// A request for memory was refused.
    NoMemory,
}

impl fmt::Display for Fault {
    fn fmt<W: fmt::Write>(&self, f: &mut fmt::Formatter<W>) -> fmt::Result {
        f.write_str(match self {
            Fault::NotText => "not text in UTF-8",
            Fault::NotAnAddress => "not an IPv4 address",
            Fault::NotAPrefix => "not a prefix, such as 10.0.0.0/8",
            Fault::TooManyWords => "too many words",
            Fault::NoSuchRoute => "no route has this prefix",
            Fault::NotAChange => "a question in the table",
            Fault::NoMemory => "no memory",
        })
    }
}

impl Error for Fault {}

impl From<AllocError> for Fault {
    ghost use Rattle.std.specs.Prelude.{◌≡◌};
    ghost use Rattle.route_table.specs.declared.fault.Fault.TheVariants.{NoMemory};

    ghost from_gives = { λ _ fault. fault ≡ NoMemory };

    fn from(_: AllocError) -> Fault {
        Fault::NoMemory
    }
}

impl<T: Drop> From<AllocFailed<T>> for Fault {
    ghost use Rattle.std.specs.Prelude.{◌≡◌};
    ghost use Rattle.route_table.specs.declared.fault.Fault.TheVariants.{NoMemory};

    ghost from_gives = { λ _ fault. fault ≡ NoMemory };

    fn from(_: AllocFailed<T>) -> Fault {
        Fault::NoMemory
    }
}
