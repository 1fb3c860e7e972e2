//! Why the names of a source are not allowed.
ghost use Rattle.std.specs.Prelude.{◌≡◌};

use std::alloc::AllocFailed;
use std::fmt;
use thiserror::Error;
use u_name::BlockName;
use u_source::Position;

/// Why a name is not allowed where it stands.
#[derive(Clone, Copy, PartialEq, Eq)]
pub enum CheckProblem {
    /// A 65th procedure.
    MoreProcedures,
    /// No procedure has the name `main`.
    NoMain,
    /// `main` has more than 1 parameter.
    MainParameters,
    /// A name that is defined where it is known already: the name, and the line of the other definition.
    DefinedAlready(BlockName, usize),
    /// A name that is defined, and is a procedure's.
    IsProcedure(BlockName),
    /// A name that is used, and defined nowhere in its procedure.
    NotKnown(BlockName),
    /// A name that is used before its definition: the name, and the line of the definition.
    DefinedLater(BlockName, usize),
    /// A name that was known before and is not known here: the name, and the line of its definition.
    NotKnownHere(BlockName, usize),
    /// A call of a procedure with another number of arguments than it has parameters: its name, the number of
    /// its parameters, and the number of the arguments.
    Arguments(BlockName, usize, usize),
    /// A variable of a loop that has no next value.
    NoNext(BlockName),
    /// A second next value: the name of the variable, and the line of the first one.
    SecondNext(BlockName, usize),
    /// A next value of a name that is no variable of the loop.
    NoVariable(BlockName),
    /// A next value outside of a loop's own block.
    NextOutside,
    /// A block that ends without a value where one is wanted. The token is the brace before it.
    ValueExpected,
    /// A block that ends with a value where none is wanted. The token is the one behind the value.
    Nowhere,
    /// An `if` without `else` of which a value is wanted.
    NoElse,
    /// A loop without `give` of which a value is wanted.
    NoGive,
}

/// Writes a name between backquotes.
fn write_name<W: fmt::Write>(f: &mut fmt::Formatter<W>, name: &BlockName) -> fmt::Result {
    f.write_char('`')?;
    for byte in name.as_bytes() {
        f.write_char(char::from(*byte))?;
    }
    f.write_char('`')
}

/// Writes a name between backquotes, and then more.
fn write_of<W: fmt::Write>(f: &mut fmt::Formatter<W>, name: &BlockName, text: &str) -> fmt::Result {
    write_name(f, name)?;
    f.write_str(text)
}

/// Writes a number and the word for so many arguments.
fn write_arguments<W: fmt::Write>(f: &mut fmt::Formatter<W>, count: usize) -> fmt::Result {
    if count == 1 {
        f.write_str("1 argument")
    } else {
        write!(f, "{} arguments", count)
    }
}

impl fmt::Display for CheckProblem {
    fn fmt<W: fmt::Write>(&self, f: &mut fmt::Formatter<W>) -> fmt::Result {
        match self {
            CheckProblem::MoreProcedures => f.write_str("more than 64 procedures"),
            CheckProblem::NoMain => f.write_str("no procedure `main`"),
            CheckProblem::MainParameters => f.write_str("`main` takes 1 parameter"),
            CheckProblem::DefinedAlready(name, line) => {
                write_of(f, name, " is defined already in line ")?;
                write!(f, "{}", line)
            }
            CheckProblem::IsProcedure(name) => write_of(f, name, " is a procedure"),
            CheckProblem::NotKnown(name) => write_of(f, name, " is not known"),
            CheckProblem::DefinedLater(name, line) => {
                write_of(f, name, " is defined later, in line ")?;
                write!(f, "{}", line)
            }
            CheckProblem::NotKnownHere(name, line) => {
                write_name(f, name)?;
                write!(f, " of line {} is not known here", line)
            }
            CheckProblem::Arguments(name, takes, given) => {
                write_of(f, name, " takes ")?;
                write_arguments(f, *takes)?;
                write!(f, ", {} given", given)
            }
            CheckProblem::NoNext(name) => {
                f.write_str("loop variable ")?;
                write_of(f, name, " has no `next`")
            }
            CheckProblem::SecondNext(name, line) => {
                f.write_str("second `next ")?;
                for byte in name.as_bytes() {
                    f.write_char(char::from(*byte))?;
                }
                write!(f, "`, the first is in line {}", line)
            }
            CheckProblem::NoVariable(name) => write_of(f, name, " is no variable of this loop"),
            CheckProblem::NextOutside => f.write_str("`next` stands outside a loop's own block"),
            CheckProblem::ValueExpected => f.write_str("value expected at the end of the block"),
            CheckProblem::Nowhere => f.write_str("value goes nowhere"),
            CheckProblem::NoElse => f.write_str("`if` without `else` gives no value"),
            CheckProblem::NoGive => f.write_str("loop without `give` gives no value"),
        }
    }
}

impl fmt::Debug for CheckProblem {
    fn fmt<W: fmt::Write>(&self, f: &mut fmt::Formatter<W>) -> fmt::Result {
        write!(f, "{}", self)
    }
}

/// Why the names of a source are refused.
#[derive(Clone, Copy, Debug, PartialEq, Eq, Error)]
pub enum CheckError {
    /// The first name that is not allowed, by its place, and why.
    #[error("source line {} column {}: {}", .0.line, .0.column, .1)]
    Refused(Position, CheckProblem),
    /// There is no memory left.
    #[error("no memory")]
    NoMemory,
}

impl<T: Drop> From<AllocFailed<T>> for CheckError {
    ghost use Rattle.u_scope.specs.declared.check_error.CheckError.TheVariants as errors;

    ghost from_gives = { λ _ e. e ≡ errors.NoMemory };

    fn from(_: AllocFailed<T>) -> CheckError {
        CheckError::NoMemory
    }
}
