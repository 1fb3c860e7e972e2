//! Why a source is not compiled.
ghost use Rattle.std.specs.Prelude.{◌≡◌};
ghost use Rattle.u_compile.specs.Compiled.{IsToldLast};
ghost use Rattle.u_compile.specs.declared.compile_error.CompileError.TheVariants as errors;

use crate::graph::Full;
use std::alloc::AllocError;
use std::fmt;
use thiserror::Error;
use u_scope::{CheckError, KindError};
use u_source::{Position, SourceError};

/// Why there is no program of a source that follows the grammar, and whose names and kinds are allowed.
#[derive(Clone, Copy, Debug, PartialEq, Eq)]
pub enum CompileProblem {
    /// A procedure takes more than 999 statements.
    MoreStatements,
    /// A procedure has more than 99 loops.
    MoreLoops,
    /// The syntax tree is none that the grammar gives, or a statement, a link or a block has no place. No source is known
    /// that shows it.
    Broken,
}

impl fmt::Display for CompileProblem {
    fn fmt<W: fmt::Write>(&self, f: &mut fmt::Formatter<W>) -> fmt::Result {
        match self {
            CompileProblem::MoreStatements => f.write_str(
                "more than 999 statements in a procedure",
            ),
            CompileProblem::MoreLoops => f.write_str("more than 99 loops in a procedure"),
            CompileProblem::Broken => f.write_str("the source is not what the parser makes"),
        }
    }
}

/// Why a source is not compiled.
#[derive(Clone, Copy, Debug, PartialEq, Eq, Error)]
pub enum CompileError {
    /// It does not follow the grammar.
    #[error("{}", .0)]
    Source(SourceError),
    /// Its names are not allowed.
    #[error("{}", .0)]
    Check(CheckError),
    /// The kinds of two of its values clash.
    #[error("{}", .0)]
    Kinds(KindError),
    /// There is no program of it: the place where that shows, and why.
    #[error("source line {} column {}: {}", .0.line, .0.column, .1)]
    Refused(Position, CompileProblem),
    /// There is no memory left.
    #[error("no memory")]
    NoMemory,
}

impl CompileError {
    /// What a graph that does not grow says of a source, at this place.
    pub(crate) fn at(place: Position, full: Full) -> CompileError
        ensures { IsToldLast result }
    {
        match full {
            Full::Statements => CompileError::Refused(place, CompileProblem::MoreStatements),
            Full::Loops => CompileError::Refused(place, CompileProblem::MoreLoops),
            Full::Misplaced => CompileError::Refused(place, CompileProblem::Broken),
            Full::NoMemory => CompileError::NoMemory,
        }
    }
}

impl From<AllocError> for CompileError {
    ghost from_gives = { λ _ told. told ≡ errors.NoMemory };

    fn from(_: AllocError) -> CompileError {
        CompileError::NoMemory
    }
}
