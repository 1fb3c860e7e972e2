//! The text of a program, written.
ghost use Rattle.std.specs.Prelude.{◌≡◌, ◌+◌, ◌<◌, ◌^◌, ◌++◌, ◌∷◌, [], map, OnOk, OnErr};
ghost use Rattle.u_base.specs.Appending.{Extends};
ghost use Rattle.u_base.specs.Spaced.{spaced, ended};
ghost use Rattle.std.specs.Fmt.{decimal};
ghost use Rattle.u_program.specs.Limits.{IsProgram, limits_of, has_otherwise};
ghost use Rattle.u_program.specs.Text.{header, kind_word, constant_word, count_word, count_words, argument_words, destination_word, otherwise_words, tail_words, loop_line, loop_lines, statement_line, statement_lines, block_line, block_lines, blocks_lines, program_text};

use crate::kind_words::{count_word, has_otherwise, kind_word, place_word};
use crate::program::{Arguments, Block, Constant, Destination, Kind, Program, Statement, Version};
use std::alloc::AllocError;
use u_base::{cut_back, push_behind, push_long, push_number, push_signed, push_spaced};
use u_name::BlockName;

#[tactic(auto, using(u_base::proofs::AppendingLaws::extends_same, u_base::proofs::AppendingLaws::extends_behind, std::proofs::Common::append_assoc))]
fn push_constant(out: &mut Vec<u8>, constant: &Constant) -> Result<(), AllocError>
    ensures ok { OnOk result (out.new.items ≡ out.old.items ++ (32 ∷ constant_word constant.now)) }
    ensures err { OnErr result (Extends out.old.items out.new.items) }
{
    match constant {
        Constant::Int(number) => {
            out.push(b' ')?;
            push_signed(out, *number)
        }
        Constant::Bool(true) => push_spaced(out, b"true"),
        Constant::Bool(false) => push_spaced(out, b"false"),
        Constant::Proc(name) => {
            push_spaced(out, b"@")?;
            out.extend_from_slice(name.as_bytes())
        }
    }
}

/// Appends the `back` of an `apply`, and in version 2 how many arguments it has.
#[tactic(auto, using(u_base::proofs::AppendingLaws::extends_same, u_base::proofs::AppendingLaws::extends_behind, std::proofs::Common::append_assoc))]
fn push_call(
    out: &mut Vec<u8>,
    version: Version,
    number: u16,
    arguments: Arguments,
) -> Result<(), AllocError>
    ensures ok { OnOk result
        (out.new.items ≡ out.old.items ++ spaced (decimal number ∷ count_words version arguments)) }
    ensures err { OnErr result (Extends out.old.items out.new.items) }
{
    push_behind(out, b' ', u32::from(number))?;
    match version {
        Version::One => Ok(()),
        Version::Two => push_spaced(out, count_word(arguments)),
    }
}

/// Appends the service that an `ask` names, and how many operands it has.
#[tactic(auto, using(u_base::proofs::AppendingLaws::extends_same, u_base::proofs::AppendingLaws::extends_behind, std::proofs::Common::append_assoc))]
fn push_question(
    out: &mut Vec<u8>,
    service: &BlockName,
    operands: Arguments,
) -> Result<(), AllocError>
    ensures ok { OnOk result
        (out.new.items ≡ out.old.items ++ spaced (service.now ∷ count_word operands ∷ [])) }
    ensures err { OnErr result (Extends out.old.items out.new.items) }
{
    push_spaced(out, service.as_bytes())?;
    push_spaced(out, count_word(operands))
}

/// Appends the kind's words, each behind a space.
///
/// # Errors
/// An error is returned if there is no memory. Then a part of them may stand there.
#[tactic(auto, using(u_base::proofs::AppendingLaws::extends_same, u_base::proofs::AppendingLaws::extends_behind, std::proofs::Common::append_assoc))]
pub fn push_kind(out: &mut Vec<u8>, version: Version, kind: &Kind) -> Result<(), AllocError>
    ensures ok { OnOk result
        (out.new.items ≡ out.old.items
        ++ spaced (kind_word kind.now ∷ argument_words version kind.now)) }
    ensures err { OnErr result (Extends out.old.items out.new.items) }
{
    push_spaced(out, kind_word(kind))?;
    match kind {
        Kind::Const(constant) => push_constant(out, constant),
        Kind::Enter(number) => push_behind(out, b' ', u32::from(*number)),
        Kind::Apply(number, arguments) => push_call(out, version, *number, *arguments),
        Kind::Param(parameter) => push_spaced(out, place_word(*parameter)),
        Kind::Ask(service, operands) => push_question(out, service, *operands),
        _ => Ok(()),
    }
}

#[tactic(auto, using(u_base::proofs::AppendingLaws::extends_same, u_base::proofs::AppendingLaws::extends_behind, std::proofs::Common::append_assoc))]
fn push_destination(out: &mut Vec<u8>, to: &Destination) -> Result<(), AllocError>
    ensures ok { OnOk result (out.new.items ≡ out.old.items ++ (32 ∷ destination_word to.now)) }
    ensures err { OnErr result (Extends out.old.items out.new.items) }
{
    push_behind(out, b' ', u32::from(to.statement))?;
    push_behind(out, b'.', u32::from(to.port))
}

/// Appends the destinations, each behind a space.
///
/// # Errors
/// An error is returned if there is no memory. Then a part of them may stand there.
#[tactic(auto, using(u_base::proofs::AppendingLaws::extends_by, u_base::proofs::AppendingLaws::extends_behind, crate::proofs::Written::list_more))]
pub fn push_list(out: &mut Vec<u8>, to: &[Destination]) -> Result<(), AllocError>
    ensures ok { OnOk result
        (out.new.items ≡ out.old.items ++ spaced (map destination_word to.now)) }
    ensures err { OnErr result (Extends out.old.items out.new.items) }
{
    for destination in to {
        push_destination(out, destination)?;
    }
    Ok(())
}

/// Appends the list of a `switch` for false, behind its slash.
#[tactic(auto, using(u_base::proofs::AppendingLaws::extends_same, u_base::proofs::AppendingLaws::extends_behind, std::proofs::Common::append_assoc))]
fn push_otherwise(out: &mut Vec<u8>, kind: &Kind, to: &[Destination]) -> Result<(), AllocError>
    ensures ok { OnOk result
        (out.new.items ≡ out.old.items
        ++ spaced (otherwise_words (has_otherwise kind.now) to.now)) }
    ensures err { OnErr result (Extends out.old.items out.new.items) }
{
    if !has_otherwise(kind) {
        return Ok(());
    }
    push_spaced(out, b"/")?;
    push_list(out, to)?;
    Ok(())
}

/// Appends what stands behind a statement's region, from its kind to its last destination.
///
/// # Errors
/// An error is returned if there is no memory. Then a part of it may stand there.
#[tactic(auto, using(u_base::proofs::AppendingLaws::extends_behind, crate::proofs::Written::tail_text))]
pub fn push_tail(
    out: &mut Vec<u8>,
    version: Version,
    kind: &Kind,
    to: &[Destination],
    otherwise: &[Destination],
) -> Result<(), AllocError>
    ensures ok { OnOk result
        (out.new.items ≡ out.old.items
        ++ spaced (tail_words version kind.now to.now otherwise.now)) }
    ensures err { OnErr result (Extends out.old.items out.new.items) }
{
    push_kind(out, version, kind)?;
    push_spaced(out, b"->")?;
    push_list(out, to)?;
    push_otherwise(out, kind, otherwise)?;
    Ok(())
}

#[tactic(auto, using(u_base::proofs::AppendingLaws::extends_same, u_base::proofs::AppendingLaws::extends_behind, crate::proofs::Written::statement_text))]
fn push_statement(
    out: &mut Vec<u8>,
    version: Version,
    number: u64,
    statement: &Statement,
) -> Result<(), AllocError>
    ensures ok { OnOk result
        (out.new.items ≡ out.old.items
        ++ (statement_line version number statement.now ++ (10 ∷ []))) }
    ensures err { OnErr result (Extends out.old.items out.new.items) }
{
    push_long(out, number)?;
    push_behind(out, b' ', u32::from(statement.region()))?;
    push_tail(
        out,
        version,
        statement.kind(),
        statement.destinations(),
        statement.otherwise(),
    )?;
    out.push(b'\n')?;
    Ok(())
}

#[tactic(auto, using(u_base::proofs::AppendingLaws::extends_by, u_base::proofs::AppendingLaws::extends_behind, crate::proofs::Written::statements_more))]
fn push_statements(
    out: &mut Vec<u8>,
    version: Version,
    statements: &[Statement],
) -> Result<(), AllocError>
    ensures ok { OnOk result
        (out.new.items ≡ out.old.items ++ ended (statement_lines version 1 statements.now)) }
    ensures err { OnErr result (Extends out.old.items out.new.items) }
{
    for (i, statement) in statements.iter().enumerate() {
        push_statement(out, version, i as u64 + 1, statement)?;
    }
    Ok(())
}

#[tactic(auto, using(u_base::proofs::AppendingLaws::extends_same, u_base::proofs::AppendingLaws::extends_behind, crate::proofs::Written::loop_text))]
fn push_loop(out: &mut Vec<u8>, number: u64, held_by: u8) -> Result<(), AllocError>
    ensures ok { OnOk result
        (out.new.items ≡ out.old.items ++ (loop_line number held_by ++ (10 ∷ []))) }
    ensures err { OnErr result (Extends out.old.items out.new.items) }
{
    out.extend_from_slice(b"loop ")?;
    push_long(out, number)?;
    push_behind(out, b' ', u32::from(held_by))?;
    out.push(b'\n')?;
    Ok(())
}

#[tactic(auto, using(u_base::proofs::AppendingLaws::extends_by, u_base::proofs::AppendingLaws::extends_behind, crate::proofs::Written::loops_more))]
fn push_loops(out: &mut Vec<u8>, loops: &[u8]) -> Result<(), AllocError>
    ensures ok { OnOk result (out.new.items ≡ out.old.items ++ ended (loop_lines 1 loops.now)) }
    ensures err { OnErr result (Extends out.old.items out.new.items) }
{
    for (i, held_by) in loops.iter().enumerate() {
        push_loop(out, i as u64 + 1, *held_by)?;
    }
    Ok(())
}

#[tactic(auto, using(u_base::proofs::AppendingLaws::extends_same, u_base::proofs::AppendingLaws::extends_behind, crate::proofs::Written::begun_text))]
fn push_block_line(out: &mut Vec<u8>, name: &[u8]) -> Result<(), AllocError>
    ensures ok { OnOk result
        (out.new.items ≡ out.old.items ++ (block_line name.now ++ (10 ∷ []))) }
    ensures err { OnErr result (Extends out.old.items out.new.items) }
{
    out.extend_from_slice(b"block")?;
    push_spaced(out, name)?;
    out.push(b'\n')?;
    Ok(())
}

#[tactic(auto, using(u_base::proofs::AppendingLaws::extends_behind, crate::proofs::Written::block_text))]
fn push_block(out: &mut Vec<u8>, version: Version, block: &Block) -> Result<(), AllocError>
    ensures ok { OnOk result
        (out.new.items ≡ out.old.items ++ ended (block_lines version block.now)) }
    ensures err { OnErr result (Extends out.old.items out.new.items) }
{
    push_block_line(out, block.name().as_bytes())?;
    push_loops(out, block.loops())?;
    push_statements(out, version, block.statements())?;
    Ok(())
}

#[tactic(auto, using(u_base::proofs::AppendingLaws::extends_by, u_base::proofs::AppendingLaws::extends_behind, crate::proofs::Written::blocks_more))]
fn push_blocks(out: &mut Vec<u8>, version: Version, blocks: &[Block]) -> Result<(), AllocError>
    ensures ok { OnOk result
        (out.new.items ≡ out.old.items ++ ended (blocks_lines version blocks.now)) }
    ensures err { OnErr result (Extends out.old.items out.new.items) }
{
    for block in blocks {
        push_block(out, version, block)?;
    }
    Ok(())
}

fn push_header(out: &mut Vec<u8>, version: Version) -> Result<(), AllocError>
    ensures ok { OnOk result (out.new.items ≡ out.old.items ++ (header version ++ (10 ∷ []))) }
    ensures err { OnErr result (Extends out.old.items out.new.items) }
{
    match version {
        Version::One => out.extend_from_slice(b"u-program 1\n"),
        Version::Two => out.extend_from_slice(b"u-program 2\n"),
    }
}

impl Program {
    /// Appends the program's text. On an error a part of it may stand there.
    #[tactic(auto, using(u_base::proofs::AppendingLaws::extends_same, u_base::proofs::AppendingLaws::extends_behind, crate::proofs::Written::whole_text))]
    fn append(&self, out: &mut Vec<u8>) -> Result<(), AllocError>
        ensures ok { OnOk result
            (out.new.items ≡ out.old.items ++ program_text self.now.version self.now.blocks) }
        ensures err { OnErr result (Extends out.old.items out.new.items) }
    {
        let version = self.version();
        let blocks = self.blocks();
        push_header(out, version)?;
        push_blocks(out, version, blocks)?;
        Ok(())
    }

    /// Appends the program's text.
    ///
    /// Promise programs-are-written: `read` of what is appended gives an equal program, and a program that
    /// was read is written as the bytes that it was read from.
    ///
    /// # Errors
    /// `AllocError` where there is no memory. Then `out` is as it was.
    #[tactic(auto, using(u_base::proofs::AppendingLaws::extends_cut))]
    pub fn write_text(&self, out: &mut Vec<u8>) -> Result<(), AllocError>
        ensures ok { OnOk result
            (out.new.items ≡ out.old.items ++ program_text self.now.version self.now.blocks) }
        ensures err { OnErr result (out.new.items ≡ out.old.items) }
        ensures limits { IsProgram (limits_of self.now.version) self.now.blocks }
    {
        // Brings in that the program lies within its limits.
        let _ = self.blocks();
        let len = out.len();
        let written = self.append(out);
        cut_back(out, len, written)
    }
}
