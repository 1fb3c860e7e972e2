//! Firings read from bytes.
//!
//! Behind a value another may come, a write, or nothing. So that a byte says which, the text is read
//! with a newline behind it.
ghost use Rattle.std.specs.Prelude.{◌≡◌, [], ◌∷◌, Ok, Err, MatchResult, IfOk, length};
ghost use Rattle.u_base.specs.Choice.{mapped};
ghost use Rattle.u_base.specs.Parts.{lead};
ghost use Rattle.u_rule.specs.EntryReading.{spaced_name};
ghost use Rattle.u_rule.specs.EntryOrder.{firing};
ghost use Rattle.u_rule.specs.FiringReading as reader;
ghost use Rattle.u_rule.specs.FiringReading.{line, last_value, by_at, next_at, end_at, firing_at};
ghost use Rattle.u_rule.specs.FiringReading.{behind_name, firing_behind, IsFiringOf, IsFiringErrorOf};
ghost use Rattle.u_rule.specs.Parts.{most_ports, IsValueList};

use crate::firing::Firing;
use crate::parts::{MOST_PORTS, Written};
use crate::reading::{TextError, spaced_name, spaced_value};
use crate::shared_written::SharedWritten;
use crate::values::Values;
use std::alloc::{AllocError, Global};
use u_base::{after, after_all};
use u_name::{Front, KeptContext, Name, front_name_beside};
use u_value::{Value, front_value};

/// What stands behind a value of a firing, where another may come: the end, with the write if there
/// is one, or another value.
#[derive(Drop)]
enum Next {
    End(Option<SharedWritten>),
    Another(Value),
}

/// ` VALUE` and the newline.
fn front_last_value(alloc: Global, bytes: &[u8]) -> Result<Front<'_, Value>, AllocError>
    ensures { IfOk result (λ front. MatchResult front
        (λ found. last_value bytes.now ≡ Ok ((found.0, tt), found.1.now))
        (λ rest. last_value bytes.now ≡ Err rest.now)) }
{
    let (value, rest) = match spaced_value(alloc, bytes)? {
        Ok(found) => found,
        Err(rest) => return Ok(Err(rest)),
    };
    match after_all(rest, b"\n") {
        Ok(rest) => Ok(Ok((value, rest))),
        Err(rest) => Ok(Err(rest)),
    }
}

/// `y WRITER`, behind ` b`.
fn front_writer(alloc: Global, bytes: &[u8]) -> Result<Front<'_, Name>, AllocError>
    ensures { IfOk result (λ front. MatchResult front
        (λ found. lead 121 spaced_name bytes.now ≡ Ok (found.0, found.1.now))
        (λ rest. lead 121 spaced_name bytes.now ≡ Err rest.now)) }
{
    match after(bytes, b'y') {
        Ok(rest) => spaced_name(alloc, rest),
        Err(rest) => Ok(Err(rest)),
    }
}

/// `y WRITER VALUE` and the newline, behind ` b`.
fn front_by(alloc: Global, bytes: &[u8]) -> Result<Front<'_, Written>, AllocError>
    ensures { IfOk result (λ front. MatchResult front
        (λ found. by_at bytes.now ≡ Ok ((found.0.writer, (found.0.value, tt)), found.1.now))
        (λ rest. by_at bytes.now ≡ Err rest.now)) }
{
    let (writer, rest) = match front_writer(alloc, bytes)? {
        Ok(found) => found,
        Err(rest) => return Ok(Err(rest)),
    };
    match front_last_value(alloc, rest)? {
        Ok((value, rest)) => Ok(Ok((Written { writer, value }, rest))),
        Err(rest) => Ok(Err(rest)),
    }
}

/// The write, as what comes next.
fn next_write(alloc: Global, bytes: &[u8]) -> Result<Front<'_, Next>, AllocError>
    ensures { IfOk result (λ front. MatchResult front
        (λ found. mapped reader.written_next by_at bytes.now ≡ Ok (found.0, found.1.now))
        (λ rest. mapped reader.written_next by_at bytes.now ≡ Err rest.now)) }
{
    match front_by(alloc, bytes)? {
        Ok((write, rest)) => {
            let write = SharedWritten::new(alloc, write)?;
            Ok(Ok((Next::End(Some(write)), rest)))
        }
        Err(rest) => Ok(Err(rest)),
    }
}

/// A value, as what comes next.
fn next_value(alloc: Global, bytes: &[u8]) -> Result<Front<'_, Next>, AllocError>
    ensures { IfOk result (λ front. MatchResult front
        (λ found. reader.next_value bytes.now ≡ Ok (found.0, found.1.now))
        (λ rest. reader.next_value bytes.now ≡ Err rest.now)) }
{
    match front_value(alloc, bytes)? {
        Ok((value, rest)) => Ok(Ok((Next::Another(value), rest))),
        Err(rest) => Ok(Err(rest)),
    }
}

/// A write or a value, behind a space.
#[tactic(auto, using(crate::proofs::FiringPartLaws::space_behind_other, crate::proofs::FiringPartLaws::space_behind_nothing))]
fn behind_space(alloc: Global, bytes: &[u8]) -> Result<Front<'_, Next>, AllocError>
    ensures { IfOk result (λ front. MatchResult front
        (λ found. reader.behind_space bytes.now ≡ Ok (found.0, found.1.now))
        (λ rest. reader.behind_space bytes.now ≡ Err rest.now)) }
{
    let Some((first, rest)) = bytes.split_first() else {
        return next_value(alloc, bytes);
    };
    match *first {
        b'b' => next_write(alloc, rest),
        _ => next_value(alloc, bytes),
    }
}

/// A space, and a write or a value.
fn spaced_next(alloc: Global, bytes: &[u8]) -> Result<Front<'_, Next>, AllocError>
    ensures { IfOk result (λ front. MatchResult front
        (λ found. lead 32 reader.behind_space bytes.now ≡ Ok (found.0, found.1.now))
        (λ rest. lead 32 reader.behind_space bytes.now ≡ Err rest.now)) }
{
    match after(bytes, b' ') {
        Ok(rest) => behind_space(alloc, rest),
        Err(rest) => Ok(Err(rest)),
    }
}

/// What stands behind a value, where another may come.
#[tactic(auto, using(crate::proofs::FiringPartLaws::next_end, crate::proofs::FiringPartLaws::next_behind_other, crate::proofs::FiringPartLaws::next_behind_nothing))]
fn front_next(alloc: Global, bytes: &[u8]) -> Result<Front<'_, Next>, AllocError>
    ensures { IfOk result (λ front. MatchResult front
        (λ found. next_at bytes.now ≡ Ok (found.0, found.1.now))
        (λ rest. next_at bytes.now ≡ Err rest.now)) }
{
    let Some((first, rest)) = bytes.split_first() else {
        return spaced_next(alloc, bytes);
    };
    match *first {
        b'\n' => Ok(Ok((Next::End(None), rest))),
        _ => spaced_next(alloc, bytes),
    }
}

/// ` by WRITER VALUE` and the newline.
fn spaced_by(alloc: Global, bytes: &[u8]) -> Result<Front<'_, Written>, AllocError>
    ensures { IfOk result (λ front. MatchResult front
        (λ found. reader.spaced_by bytes.now
        ≡ Ok ((found.0.writer, (found.0.value, tt)), found.1.now))
        (λ rest. reader.spaced_by bytes.now ≡ Err rest.now)) }
{
    match after_all(bytes, b" b") {
        Ok(rest) => front_by(alloc, rest),
        Err(rest) => Ok(Err(rest)),
    }
}

/// ` by WRITER VALUE` and the newline, as what stands at the end.
fn last_write(alloc: Global, bytes: &[u8]) -> Result<Front<'_, Option<SharedWritten>>, AllocError>
    ensures { IfOk result (λ front. MatchResult front
        (λ found. reader.last_write bytes.now ≡ Ok (found.0, found.1.now))
        (λ rest. reader.last_write bytes.now ≡ Err rest.now)) }
{
    match spaced_by(alloc, bytes)? {
        Ok((write, rest)) => {
            let write = SharedWritten::new(alloc, write)?;
            Ok(Ok((Some(write), rest)))
        }
        Err(rest) => Ok(Err(rest)),
    }
}

/// What stands behind the last value that there may be.
#[tactic(auto, using(crate::proofs::FiringPartLaws::end_here, crate::proofs::FiringPartLaws::end_behind_other, crate::proofs::FiringPartLaws::end_behind_nothing))]
fn front_end(alloc: Global, bytes: &[u8]) -> Result<Front<'_, Option<SharedWritten>>, AllocError>
    ensures { IfOk result (λ front. MatchResult front
        (λ found. end_at bytes.now ≡ Ok (found.0, found.1.now))
        (λ rest. end_at bytes.now ≡ Err rest.now)) }
{
    let Some((first, rest)) = bytes.split_first() else {
        return last_write(alloc, bytes);
    };
    match *first {
        b'\n' => Ok(Ok((None, rest))),
        _ => last_write(alloc, bytes),
    }
}

/// The firing of these values, behind the last that there may be.
#[tactic(auto, using(crate::proofs::FiringPartLaws::last_end, crate::proofs::FiringPartLaws::last_refused))]
fn with_all<'a>(
    alloc: Global,
    activity: Name,
    values: &[Value],
    bytes: &'a [u8],
) -> Result<Front<'a, Firing>, AllocError>
    requires { length values.now ≡ most_ports }
    ensures { IfOk result (λ front. MatchResult front
        (λ found. firing_behind activity values.now bytes.now ≡ Ok (found.0, found.1.now))
        (λ rest. firing_behind activity values.now bytes.now ≡ Err rest.now)) }
{
    let (write, rest) = match front_end(alloc, bytes)? {
        Ok(found) => found,
        Err(rest) => return Ok(Err(rest)),
    };
    let values = Values::of(alloc, values)?;
    let firing = Firing {
        activity,
        values,
        write,
    };
    Ok(Ok((firing, rest)))
}

/// The firing of these values or of more, behind the last of them, three at least.
#[tactic(auto, using(crate::proofs::FiringPartLaws::values_end, crate::proofs::FiringPartLaws::values_another, crate::proofs::FiringPartLaws::values_refused))]
fn with_more(
    alloc: Global,
    activity: Name,
    mut values: Vec<Value>,
    bytes: &[u8],
) -> Result<Front<'_, Firing>, AllocError>
    requires { IsValueList values.items }
    ensures { IfOk result (λ front. MatchResult front
        (λ found. firing_behind activity values.items bytes.now ≡ Ok (found.0, found.1.now))
        (λ rest. firing_behind activity values.items bytes.now ≡ Err rest.now)) }
{
    if values.len() == MOST_PORTS {
        return with_all(alloc, activity, &values, bytes);
    }
    let (next, rest) = match front_next(alloc, bytes)? {
        Ok(found) => found,
        Err(rest) => return Ok(Err(rest)),
    };
    let write = match next {
        Next::Another(value) => {
            values.push(value)?;
            return with_more(alloc, activity, values, rest);
        }
        Next::End(write) => write,
    };
    let values = Values::of(alloc, &values)?;
    let firing = Firing {
        activity,
        values,
        write,
    };
    Ok(Ok((firing, rest)))
}

/// The firing of these two values or of more, behind the second. Two values take no list.
#[tactic(auto, using(crate::proofs::FiringPartLaws::second_end, crate::proofs::FiringPartLaws::second_another, crate::proofs::FiringPartLaws::second_refused))]
fn with_two(
    alloc: Global,
    activity: Name,
    first: Value,
    second: Value,
    bytes: &[u8],
) -> Result<Front<'_, Firing>, AllocError>
    ensures { IfOk result (λ front. MatchResult front
        (λ found. firing_behind activity (first ∷ second ∷ []) bytes.now
        ≡ Ok (found.0, found.1.now))
        (λ rest. firing_behind activity (first ∷ second ∷ []) bytes.now ≡ Err rest.now)) }
{
    let (next, rest) = match front_next(alloc, bytes)? {
        Ok(found) => found,
        Err(rest) => return Ok(Err(rest)),
    };
    let write = match next {
        Next::Another(third) => {
            let mut values = Vec::new(alloc);
            values.push(first)?;
            values.push(second)?;
            values.push(third)?;
            return with_more(alloc, activity, values, rest);
        }
        Next::End(write) => write,
    };
    let values = Values::two(alloc, first, second)?;
    let firing = Firing {
        activity,
        values,
        write,
    };
    Ok(Ok((firing, rest)))
}

/// The firing of this value or of more, behind the first. One value takes no list.
#[tactic(auto, using(crate::proofs::FiringPartLaws::first_end, crate::proofs::FiringPartLaws::first_another, crate::proofs::FiringPartLaws::first_refused))]
fn with_one(
    alloc: Global,
    activity: Name,
    first: Value,
    bytes: &[u8],
) -> Result<Front<'_, Firing>, AllocError>
    ensures { IfOk result (λ front. MatchResult front
        (λ found. firing_behind activity (first ∷ []) bytes.now ≡ Ok (found.0, found.1.now))
        (λ rest. firing_behind activity (first ∷ []) bytes.now ≡ Err rest.now)) }
{
    let (next, rest) = match front_next(alloc, bytes)? {
        Ok(found) => found,
        Err(rest) => return Ok(Err(rest)),
    };
    let write = match next {
        Next::Another(second) => return with_two(alloc, activity, first, second, rest),
        Next::End(write) => write,
    };
    let values = Values::one(alloc, first)?;
    let firing = Firing {
        activity,
        values,
        write,
    };
    Ok(Ok((firing, rest)))
}

/// The firing of that name, behind it.
#[tactic(auto, using(crate::proofs::FiringPartLaws::name_and_first, crate::proofs::FiringPartLaws::name_alone))]
fn with_name(alloc: Global, activity: Name, bytes: &[u8]) -> Result<Front<'_, Firing>, AllocError>
    ensures { IfOk result (λ front. MatchResult front
        (λ found. behind_name activity bytes.now ≡ Ok (found.0, found.1.now))
        (λ rest. behind_name activity bytes.now ≡ Err rest.now)) }
{
    match spaced_value(alloc, bytes)? {
        Ok((first, rest)) => with_one(alloc, activity, first, rest),
        Err(rest) => Ok(Err(rest)),
    }
}

/// `f NAME`. The name's context is kept for the next one.
fn front_activity<'a>(
    alloc: Global,
    bytes: &'a [u8],
    kept: &mut KeptContext<'a>,
) -> Result<Front<'a, Name>, AllocError>
    ensures { IfOk result (λ front. MatchResult front
        (λ found. reader.activity_at bytes.now ≡ Ok (found.0, found.1.now))
        (λ rest. reader.activity_at bytes.now ≡ Err rest.now)) }
{
    let rest = match after(bytes, b'f') {
        Ok(rest) => rest,
        Err(rest) => return Ok(Err(rest)),
    };
    match after(rest, b' ') {
        Ok(rest) => front_name_beside(alloc, rest, kept),
        Err(rest) => Ok(Err(rest)),
    }
}

/// The firing whose line stands at the front, and what is left behind it. Where there is none, what
/// begins with the byte with which no firing's line goes on. The context is kept for the next line.
#[tactic(auto, using(crate::proofs::FiringPartLaws::firing_named, crate::proofs::FiringPartLaws::firing_unnamed))]
fn front_firing<'a>(
    alloc: Global,
    bytes: &'a [u8],
    kept: &mut KeptContext<'a>,
) -> Result<Front<'a, Firing>, AllocError>
    ensures { IfOk result (λ front. MatchResult front
        (λ found. firing_at bytes.now ≡ Ok (found.0, found.1.now))
        (λ rest. firing_at bytes.now ≡ Err rest.now)) }
{
    match front_activity(alloc, bytes, kept)? {
        Ok((activity, rest)) => with_name(alloc, activity, rest),
        Err(rest) => Ok(Err(rest)),
    }
}

/// The bytes and a newline behind them.
fn line_of(alloc: Global, bytes: &[u8]) -> Result<Vec<u8>, AllocError>
    ensures { IfOk result (λ v. v.items ≡ line bytes.now) }
{
    let mut line = Vec::new(alloc);
    line.reserve_exact(bytes.len().saturating_add(1))?;
    line.extend_from_slice(bytes)?;
    line.push(b'\n')?;
    Ok(line)
}

/// The refusal where so much is left of the line of the bytes.
fn refused_at(bytes: &[u8], line: &[u8], rest: &[u8]) -> TextError
    requires refused { firing_at line.now ≡ Err rest.now }
    requires line { line.now ≡ reader.line bytes.now }
    ensures { IsFiringErrorOf bytes.now result }
{
    if rest.is_empty() {
        TextError::BadText(bytes.len())
    } else {
        TextError::BadText(line.len() - rest.len())
    }
}

/// The firing, where nothing is left of the line of the bytes.
fn whole(firing: Firing, bytes: &[u8], rest: &[u8]) -> Result<Firing, TextError>
    requires { firing_at (reader.line bytes.now) ≡ Ok (firing, rest.now) }
    ensures { MatchResult result (λ firing. IsFiringOf bytes.now firing)
        (λ error. IsFiringErrorOf bytes.now error) }
{
    if rest.is_empty() {
        Ok(firing)
    } else {
        Err(TextError::BadText(bytes.len() - rest.len()))
    }
}

impl Firing {
    /// Returns the firing whose text the bytes are: `f NAME VALUE..` with one value for each
    /// port, and ` by WRITER VALUE` behind them where it has a write.
    ///
    /// Promise firings-are-read: what is read has the bytes as its text, and the text of a firing is refused
    /// only if there is no memory.
    ///
    /// # Errors
    /// `BadText` where the bytes are no firing's text: it holds the offset where the longest front of
    /// one ends. `NoMemory` where there is no memory.
    pub fn read(alloc: Global, bytes: &[u8]) -> Result<Firing, TextError>
        ensures { MatchResult result (λ firing. IsFiringOf bytes.now firing)
            (λ error. IsFiringErrorOf bytes.now error) }
    {
        let line = line_of(alloc, bytes)?;
        let mut kept = KeptContext::root();
        Firing::read_beside(alloc, bytes, &line, &mut kept)
    }

    /// Returns the firing whose text the bytes are, as `read` does. `line` is the bytes with a newline
    /// behind them. Of lines that are read one after another with the same `kept`, one in the context of
    /// the one before shares it, and takes no memory for it.
    ///
    /// # Errors
    /// As `read`.
    pub fn read_beside<'a>(
        alloc: Global,
        bytes: &[u8],
        line: &'a [u8],
        kept: &mut KeptContext<'a>,
    ) -> Result<Firing, TextError>
        requires { line.now ≡ reader.line bytes.now }
        ensures { MatchResult result (λ firing. IsFiringOf bytes.now firing)
            (λ error. IsFiringErrorOf bytes.now error) }
    {
        match front_firing(alloc, line, kept)? {
            Ok((firing, rest)) => whole(firing, bytes, rest),
            Err(rest) => Err(refused_at(bytes, line, rest)),
        }
    }
}
