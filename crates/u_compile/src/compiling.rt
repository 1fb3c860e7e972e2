//! From the text of a source to a program.
ghost use Rattle.std.specs.Prelude.{◌≡◌, IfOk, IfErr, OnOk, MatchResult, List, length};
ghost use Rattle.u_check.specs.Rules.{IsChecked};
ghost use Rattle.u_determinate.specs.Determinate.{IsDeterminate};
ghost use Rattle.u_program.specs.declared.program.Version.TheVariants as versions;
ghost use Rattle.u_source.specs.Sources.{SourceParts};
ghost use Rattle.u_scope.specs.declared.checked.Meaning.{Meaning};
ghost use Rattle.u_compile.specs.Maps.{AreOrigins};
ghost use Rattle.u_compile.specs.Operands.{lowering as state_of};
ghost use Rattle.u_compile.specs.Walks.{AreLowered, AreReached, GoesThrough};
ghost use Rattle.u_compile.specs.Made.{AreMadeOf};
ghost use Rattle.u_compile.specs.Compiled.{IsAllowed, IsSomeAllowed, IsMadeOf, HasProcedures};
ghost use Rattle.u_compile.specs.Compiled.{IsCompileError, IsToldOf, MayBeTold, IsToldLast};
ghost use Rattle.u_compile.specs.Procedures.{AreProcedures};

use crate::compile_error::CompileError;
use crate::compiled::Compiled;
use crate::graph::Full;
use crate::lowering::Lowering;
use crate::mapping::origins_of;
use crate::notes::Notes;
use crate::origins::BlockOrigins;
use crate::procedures::are_procedures;
use crate::tree::Tree;
use std::alloc::Global;
use u_check::{Checked, check};
use u_program::Program;
use u_scope::{CheckedSource, check_kinds};
use u_source::{Position, Source};

/// Why there is no program, and the place that shows it.
#[derive(Clone, Copy)]
struct Stopped {
    /// The place.
    pub place: Position,
    /// Why.
    pub full: Full,
}

/// A program, and what was noted of its statements.
#[derive(Drop)]
struct Lowered {
    /// The program.
    pub program: Program,
    /// What was noted of the statements, block by block.
    pub notes: Vec<Notes>,
}

/// Goes through the nodes.
fn go_through(lowering: &mut Lowering<'_>, tree: &Tree<'_>) -> Result<(), Stopped>
    ensures { OnOk result (GoesThrough 0 (state_of lowering.old) (length tree.now.nodes.now)
        (state_of lowering.new)) }
{
    for number in 0..tree.len() {
        match lowering.advance(number) {
            Ok(()) => {}
            Err(full) => {
                return Err(Stopped {
                    place: tree.place_of(number),
                    full,
                });
            }
        }
    }
    Ok(())
}

/// The program of the nodes, all of which are gone through from there, and what was noted of its statements.
fn lower_all(begun: Lowering<'_>, tree: &Tree<'_>) -> Result<Lowered, Stopped>
    ensures version { IfOk result (λ l. l.program.version ≡ versions.Two) }
    ensures determinate { IfOk result (λ l. IsDeterminate l.program.blocks) }
    ensures checked { IfOk result (λ l. IsChecked l.program.blocks) }
    ensures reached { IfOk result (λ l. AreReached (state_of begun.entry)
        (length tree.now.nodes.now) l.program.blocks) }
{
    let mut lowering = begun;
    go_through(&mut lowering, tree)?;
    let Lowering { blocks, notes, .. } = lowering;
    match blocks.program() {
        Some(program) => Ok(Lowered { program, notes }),
        None => Err(Stopped {
            place: Position::start(),
            full: Full::Misplaced,
        }),
    }
}

/// The program of the nodes, which is determinate and keeps the rules of the checker, and what was noted of its
/// statements.
fn lower(alloc: Global, tree: &Tree<'_>) -> Result<Lowered, Stopped>
    ensures version { IfOk result (λ l. l.program.version ≡ versions.Two) }
    ensures determinate { IfOk result (λ l. IsDeterminate l.program.blocks) }
    ensures checked { IfOk result (λ l. IsChecked l.program.blocks) }
    ensures lowered { IfOk result (λ l. AreLowered tree.now l.program.blocks) }
{
    match Lowering::new(alloc, tree) {
        Ok(lowering) => lower_all(lowering, tree),
        Err(full) => Err(Stopped {
            place: Position::start(),
            full,
        }),
    }
}

/// The program of a source whose names and kinds are allowed. It is determinate and keeps the rules of the checker.
fn program_of(
    alloc: Global,
    source: &Source,
    checked: &CheckedSource,
) -> Result<Lowered, CompileError>
    ensures version { IfOk result (λ l. l.program.version ≡ versions.Two) }
    ensures determinate { IfOk result (λ l. IsDeterminate l.program.blocks) }
    ensures checked { IfOk result (λ l. IsChecked l.program.blocks) }
    ensures made { IfOk result (λ l. AreMadeOf source.now checked.now l.program.blocks) }
    ensures last { IfErr result (λ error. IsToldLast error) }
{
    let tree = match Tree::new(alloc, source.tokens(), source.nodes(), checked.meanings()) {
        Ok(tree) => tree,
        Err(full) => return Err(CompileError::at(Position::start(), full)),
    };
    match lower(alloc, &tree) {
        Ok(lowered) => Ok(lowered),
        Err(stopped) => Err(CompileError::at(stopped.place, stopped.full)),
    }
}

/// The program as a checked one: it keeps the rules of the checker.
fn checked_of(program: Program) -> Checked
    requires { IsChecked program.blocks }
    ensures { result ≡ program }
{
    match check(program) {
        Ok(checked) => checked,
        Err(_) => unreachable!(),
    }
}

/// Where the statements of the program's blocks come from. Of no source it is known that one comes from nowhere.
fn mapped(
    alloc: Global,
    program: &Program,
    notes: &[Notes],
) -> Result<Vec<BlockOrigins>, CompileError>
    ensures each { IfOk result (λ v. AreOrigins program.now.blocks v.items) }
    ensures last { IfErr result (λ error. IsToldLast error) }
{
    match origins_of(alloc, program.blocks(), notes) {
        Ok(origins) => Ok(origins),
        Err(full) => Err(CompileError::at(Position::start(), full)),
    }
}

/// A source whose names and kinds are allowed, and what its names mean.
#[derive(Drop)]
struct Allowed {
    /// The source.
    pub source: Source,
    /// What its names mean.
    pub names: CheckedSource,
}

/// Reads a source, and checks its names and then its kinds.
fn read_allowed(alloc: Global, bytes: &[u8]) -> Result<Allowed, CompileError>
    ensures answer { MatchResult result (λ a. IsAllowed bytes.now a.source a.names)
        (λ error. IsCompileError bytes.now error) }
    ensures back { (s : SourceParts) (ms : List Meaning) → IsAllowed bytes.now s ms
        → IfErr result (λ error. MayBeTold error) }
{
    let source = match Source::read(alloc, bytes) {
        Ok(source) => source,
        Err(error) => return Err(CompileError::Source(error)),
    };
    let names = match CheckedSource::check(alloc, &source) {
        Ok(names) => names,
        Err(error) => return Err(CompileError::Check(error)),
    };
    match check_kinds(alloc, &source, &names) {
        Ok(()) => Ok(Allowed { source, names }),
        Err(error) => Err(CompileError::Kinds(error)),
    }
}

/// The program of an allowed source, and where its statements come from.
fn compiled_of(alloc: Global, allowed: &Allowed) -> Result<Compiled, CompileError>
    ensures version { IfOk result (λ c. c.program.version ≡ versions.Two) }
    ensures checked { IfOk result (λ c. IsChecked c.program.blocks) }
    ensures determinate { IfOk result (λ c. IsDeterminate c.program.blocks) }
    ensures each { IfOk result (λ c. AreOrigins c.program.blocks c.origins) }
    ensures procedures { IfOk result (λ c. AreProcedures allowed.now.source.tokens
        allowed.now.source.nodes c.program.blocks) }
    ensures made { IfOk result (λ c. AreMadeOf allowed.now.source allowed.now.names
        c.program.blocks) }
    ensures last { IfErr result (λ error. IsToldLast error) }
{
    let Lowered { program, notes } = program_of(alloc, &allowed.source, &allowed.names)?;
    let source = &allowed.source;
    if !are_procedures(source.tokens(), source.nodes(), program.blocks()) {
        return Err(CompileError::at(Position::start(), Full::Misplaced));
    }
    let checked = checked_of(program);
    // Brings in that it is checked.
    let program = checked.program();
    let origins = mapped(alloc, program, &notes)?;
    Ok(Compiled::new(checked, origins))
}

/// Compiles a source: the text of procedures in the notation with names. In a run of its program a port has
/// two values only if a cell has two writes.
///
/// The text is read, then its names and then its kinds are checked. Then each procedure becomes a block of version 2,
/// which is determinate and keeps the rules of the checker since each statement and each link has its place: none is
/// added where it may not stand. Of no source it is known that its names and kinds are allowed, and that a statement, a
/// link or a block has no place; tests have found none, but there is no proof.
///
/// Promise compiled: the program is one of version 2, breaks no rule of the checker and is determinate.
///
/// Promise told-of-a-source: there is a program only if the bytes are a source whose names and kinds are
/// allowed; else the first that fails is returned.
///
/// Promise procedures-of-a-source: the program has one block for each procedure of the source, in order and
/// with its name.
///
/// Promise arcs-are-uses: to each port at which the source takes an operand lead exactly the outputs of one
/// value; of a name it is one that was bound to it.
///
/// Promise nodes-in-order: each block is made of the nodes of one procedure of the source's tree, one after
/// another.
///
/// # Errors
/// `Source`, `Check` or `Kinds` with what is not allowed first. `Refused` where a procedure takes more than 999
/// statements or has more than 99 loops, with a place in it; or where the tree is not what it should be, or a statement,
/// a link or a block has no place, as above. `NoMemory` where there is no memory.
pub fn compile(alloc: Global, bytes: &[u8]) -> Result<Compiled, CompileError>
    ensures version { IfOk result (λ c. c.program.version ≡ versions.Two) }
    ensures checked { IfOk result (λ c. IsChecked c.program.blocks) }
    ensures determinate { IfOk result (λ c. IsDeterminate c.program.blocks) }
    ensures each { IfOk result (λ c. AreOrigins c.program.blocks c.origins) }
    ensures procedures { IfOk result (λ c. HasProcedures bytes.now c.program.blocks) }
    ensures made { IfOk result (λ c. IsMadeOf bytes.now c.program.blocks) }
    ensures answer { MatchResult result (λ _. IsSomeAllowed bytes.now)
        (λ error. IsToldOf bytes.now error) }
{
    match read_allowed(alloc, bytes) {
        Ok(allowed) => compiled_of(alloc, &allowed),
        Err(error) => Err(error),
    }
}
