//! Lines of a program's text, read.
ghost use Rattle.std.specs.Prelude.{◌≡◌, ◌≤◌, ◌&&◌, Some, None, MatchOption, MatchResult};
ghost use Rattle.u_program.specs.Reading.{name_word, destination_at, is_slash, destinations_at, list_at, otherwise_at, constant_at, kind_among, arguments_at, parameter_at, count_at, param_at, kind_at, arrow_at, statement_at, numbers_at, line_at};
ghost use Rattle.u_program.specs.Text.{plain_kinds};
ghost use Rattle.u_program.specs.Limits.{greatest_port};
ghost use Rattle.u_program.specs.Refuses.{Refuses};
ghost use Rattle.u_base.specs.Pieces.{words};

use crate::kind_words::{has_list, has_otherwise, kind_word, plain_kinds};
use crate::program::{Arguments, Constant, Destination, Kind, Parameter, Statement, Version};
use std::alloc::{AllocFailed, Global};
use u_base::{BadWord, Words, after, number_at, number_word, number0_word, signed_word};
use u_name::BlockName;
use u_value::{BinaryOperator, UnaryOperator};

/// Why a line was not read: it is of no allowed form, or there is no memory.
#[derive(Debug, Drop)]
pub enum WordFault {
    /// It is of no allowed form.
    Bad,
    /// There is no memory.
    NoMemory,
}

impl From<BadWord> for WordFault {
    ghost use Rattle.u_program.specs.declared.reading.WordFault.TheVariants as faults;

    ghost from_gives = { λ _ e. e ≡ faults.Bad };

    fn from(_: BadWord) -> WordFault {
        WordFault::Bad
    }
}

impl<T: Drop> From<AllocFailed<T>> for WordFault {
    ghost use Rattle.u_program.specs.declared.reading.WordFault.TheVariants as faults;

    ghost from_gives = { λ _ e. e ≡ faults.NoMemory };

    fn from(_: AllocFailed<T>) -> WordFault {
        WordFault::NoMemory
    }
}

#[tactic(auto, using(crate::proofs::WordLaws::name_word_none, crate::proofs::WordLaws::name_word_complete))]
fn name_word(word: &[u8]) -> Result<BlockName, BadWord>
    ensures { MatchResult result
        (λ name. name_word word.now ≡ Some name)
        (λ _. name_word word.now ≡ None) }
{
    match BlockName::read(word) {
        Some(name) => Ok(name),
        None => Err(BadWord),
    }
}

#[tactic(auto, unfolding(crate::specs::Reading::constant_at))]
fn constant(word: &[u8]) -> Result<Constant, BadWord>
    ensures { MatchResult result
        (λ c. constant_at word.now ≡ Some c)
        (λ _. constant_at word.now ≡ None) }
{
    if word == b"true".as_slice() {
        return Ok(Constant::Bool(true));
    }
    if word == b"false".as_slice() {
        return Ok(Constant::Bool(false));
    }
    let Some((first, name)) = word.split_first() else {
        return Err(BadWord);
    };
    if *first == b'@' {
        return Ok(Constant::Proc(name_word(name)?));
    }
    Ok(Constant::Int(signed_word(word)?))
}

/// The first of these kinds that has this word.
#[tactic(auto, unfolding(crate::specs::Reading::kind_among))]
fn kind_among(kinds: &[Kind], word: &[u8]) -> Result<Kind, BadWord>
    ensures { MatchResult result
        (λ k. kind_among kinds.now word.now ≡ Some k)
        (λ _. kind_among kinds.now word.now ≡ None) }
{
    let mut rest = kinds;
    while let Some((kind, others)) = rest.split_first() {
        if word == kind_word(kind) {
            return Ok(*kind);
        }
        rest = others;
    }
    Err(BadWord)
}

/// The kind without an argument that has this word.
fn plain_kind(word: &[u8]) -> Result<Kind, BadWord>
    ensures { MatchResult result
        (λ k. kind_among plain_kinds word.now ≡ Some k)
        (λ _. kind_among plain_kinds word.now ≡ None) }
{
    kind_among(&plain_kinds(), word)
}

/// How many arguments the word says.
#[tactic(auto, unfolding(crate::specs::Reading::arguments_at))]
fn arguments(word: &[u8]) -> Result<Arguments, BadWord>
    ensures { MatchResult result
        (λ n. arguments_at word.now ≡ Some n)
        (λ _. arguments_at word.now ≡ None) }
{
    if word == b"1".as_slice() {
        return Ok(Arguments::One);
    }
    if word == b"2".as_slice() {
        return Ok(Arguments::Two);
    }
    if word == b"3".as_slice() {
        return Ok(Arguments::Three);
    }
    if word == b"4".as_slice() {
        return Ok(Arguments::Four);
    }
    Err(BadWord)
}

/// Which parameter the word says.
#[tactic(auto, unfolding(crate::specs::Reading::parameter_at))]
fn parameter(word: &[u8]) -> Result<Parameter, BadWord>
    ensures { MatchResult result
        (λ k. parameter_at word.now ≡ Some k)
        (λ _. parameter_at word.now ≡ None) }
{
    if word == b"2".as_slice() {
        return Ok(Parameter::Second);
    }
    if word == b"3".as_slice() {
        return Ok(Parameter::Third);
    }
    if word == b"4".as_slice() {
        return Ok(Parameter::Fourth);
    }
    Err(BadWord)
}

/// The number of arguments of an `apply`, which version 1 leaves out.
#[tactic(auto, unfolding(crate::specs::Reading::count_at))]
fn count(version: Version, words: &mut Words<'_>) -> Result<Arguments, BadWord>
    ensures { MatchResult result
        (λ n. count_at version words.old ≡ Some (n, words.new))
        (λ _. count_at version words.old ≡ None) }
{
    match version {
        Version::One => Ok(Arguments::One),
        Version::Two => arguments(words.word()?),
    }
}

/// What stands behind `param`, which version 1 does not have.
#[tactic(auto, unfolding(crate::specs::Reading::param_at))]
fn param(version: Version, words: &mut Words<'_>) -> Result<Kind, BadWord>
    ensures { MatchResult result
        (λ k. param_at version words.old ≡ Some (k, words.new))
        (λ _. param_at version words.old ≡ None) }
{
    match version {
        Version::One => Err(BadWord),
        Version::Two => Ok(Kind::Param(parameter(words.word()?)?)),
    }
}

#[tactic(auto, unfolding(crate::specs::Reading::kind_at), using(crate::proofs::WordLaws::loop_bound, crate::proofs::WordLaws::back_bound))]
fn kind(version: Version, words: &mut Words<'_>) -> Result<Kind, BadWord>
    ensures { MatchResult result
        (λ k. kind_at version words.old ≡ Some (k, words.new))
        (λ _. kind_at version words.old ≡ None) }
{
    let word = words.word()?;
    if word == b"const".as_slice() {
        let argument = words.word()?;
        return Ok(Kind::Const(constant(argument)?));
    }
    if word == b"enter".as_slice() {
        let number = number_word(words.word()?, 99)?;
        return Ok(Kind::Enter(number as u8));
    }
    if word == b"apply".as_slice() {
        let number = number_word(words.word()?, 999)?;
        return Ok(Kind::Apply(number as u16, count(version, words)?));
    }
    if word == b"param".as_slice() {
        return param(version, words);
    }
    plain_kind(word)
}

#[tactic(auto, unfolding(crate::specs::Reading::arrow_at))]
fn arrow(words: &mut Words<'_>) -> Result<(), BadWord>
    ensures { MatchResult result
        (λ _. arrow_at words.old ≡ Some (tt, words.new))
        (λ _. arrow_at words.old ≡ None) }
{
    let word = words.word()?;
    if word == b"->".as_slice() {
        Ok(())
    } else {
        Err(BadWord)
    }
}

/// The greatest port that a destination names.
fn greatest_port(version: Version) -> u32
    ensures { result ≡ greatest_port version }
{
    match version {
        Version::One => 3,
        Version::Two => 5,
    }
}

#[tactic(auto, unfolding(crate::specs::Reading::destination_at), using(u_base::proofs::NumberLaws::number_bound))]
fn destination(version: Version, word: &[u8]) -> Result<Destination, BadWord>
    ensures { MatchResult result
        (λ d. destination_at version word.now ≡ Some d)
        (λ _. destination_at version word.now ≡ None) }
{
    let Ok((statement, rest)) = number_at(word, 999) else {
        return Err(BadWord);
    };
    let Ok(rest) = after(rest, b'.') else {
        return Err(BadWord);
    };
    let Ok((port, [])) = number_at(rest, 9) else {
        return Err(BadWord);
    };
    if port > greatest_port(version) {
        return Err(BadWord);
    }
    Ok(Destination {
        statement: statement as u16,
        port: port as u8,
    })
}

/// Whether a list that a slash ends, if `slashed`, ends with this word.
fn ends_list(word: &[u8], slashed: bool) -> bool
    ensures { result ≡ (slashed && is_slash word.now) }
{
    slashed && word == b"/".as_slice()
}

/// The destinations that stand before a slash, or if not `slashed` in all the rest of the line.
#[tactic(auto, using(crate::proofs::ListLaws::destinations_turn, crate::proofs::ListLaws::destinations_bad, crate::proofs::ListLaws::destinations_low, crate::proofs::ListLaws::destinations_slash, crate::proofs::ListLaws::destinations_end, crate::proofs::ListLaws::destinations_open))]
fn destinations(
    alloc: Global,
    version: Version,
    words: &mut Words<'_>,
    slashed: bool,
) -> Result<Vec<Destination>, WordFault>
    ensures { MatchResult result
        (λ to. destinations_at version slashed 0 words.old ≡ Some (to.items, words.new))
        (λ fault. Refuses fault (destinations_at version slashed 0 words.old)) }
{
    let mut to = Vec::new(alloc);
    let mut below = 0;
    while let Some(word) = words.next() {
        if ends_list(word, slashed) {
            return Ok(to);
        }
        let next = destination(version, word)?;
        let rank = 8 * u32::from(next.statement) + u32::from(next.port);
        if rank <= below {
            return Err(WordFault::Bad);
        }
        below = rank;
        to.push(next)?;
    }
    if slashed {
        return Err(WordFault::Bad);
    }
    Ok(to)
}

/// The destinations of a statement of the kind; of a `switch`, those for true.
#[tactic(auto, unfolding(crate::specs::Reading::list_at))]
fn list(
    alloc: Global,
    version: Version,
    kind: &Kind,
    words: &mut Words<'_>,
) -> Result<Vec<Destination>, WordFault>
    ensures { MatchResult result
        (λ to. list_at version kind.now words.old ≡ Some (to.items, words.new))
        (λ fault. Refuses fault (list_at version kind.now words.old)) }
{
    if has_list(kind) {
        return destinations(alloc, version, words, has_otherwise(kind));
    }
    match words.next() {
        None => Ok(Vec::new(alloc)),
        Some(_) => Err(WordFault::Bad),
    }
}

/// The destinations of a `switch` for false, which stand behind those for true.
#[tactic(auto, unfolding(crate::specs::Reading::otherwise_at))]
fn otherwise(
    alloc: Global,
    version: Version,
    kind: &Kind,
    words: &mut Words<'_>,
) -> Result<Vec<Destination>, WordFault>
    ensures { MatchResult result
        (λ to. otherwise_at version kind.now words.old ≡ Some (to.items, words.new))
        (λ fault. Refuses fault (otherwise_at version kind.now words.old)) }
{
    if has_otherwise(kind) {
        return destinations(alloc, version, words, false);
    }
    Ok(Vec::new(alloc))
}

/// What stands behind a statement's number.
#[tactic(auto, unfolding(crate::specs::Reading::statement_at), using(crate::proofs::WordLaws::region_bound))]
fn statement(alloc: Global, version: Version, words: &mut Words<'_>) -> Result<Statement, WordFault>
    ensures { MatchResult result
        (λ s. statement_at version words.old ≡ Some s)
        (λ fault. Refuses fault (statement_at version words.old)) }
{
    let region = number0_word(words.word()?, 99)?;
    let kind = kind(version, words)?;
    arrow(words)?;
    let to = list(alloc, version, &kind, words)?;
    let otherwise = otherwise(alloc, version, &kind, words)?;
    Ok(Statement::new(region as u8, kind, to, otherwise))
}

/// A line of a block.
#[derive(Drop)]
pub enum Line {
    /// The line that begins a block.
    Block(BlockName),
    /// A loop's number, and the region that holds it.
    Loop(u32, u8),
    /// A statement with its number.
    Statement(u32, Statement),
}

/// What stands behind the word `loop`.
#[tactic(auto, unfolding(crate::specs::Reading::numbers_at), using(crate::proofs::WordLaws::region_bound))]
fn loop_numbers(words: &mut Words<'_>) -> Result<Line, WordFault>
    ensures { MatchResult result
        (λ l. numbers_at words.old ≡ Some l)
        (λ fault. Refuses fault (numbers_at words.old)) }
{
    let number = number_word(words.word()?, 100)?;
    let held_by = number0_word(words.word()?, 99)?;
    match words.next() {
        None => Ok(Line::Loop(number, held_by as u8)),
        Some(_) => Err(WordFault::Bad),
    }
}

/// Reads one line of a text of that version.
pub fn read_line(alloc: Global, version: Version, text: &[u8]) -> Result<Line, WordFault>
    ensures { MatchResult result
        (λ l. line_at version (words text.now) ≡ Some l)
        (λ fault. Refuses fault (line_at version (words text.now))) }
{
    let mut words = Words::new(text);
    let first = words.word()?;
    if first == b"block".as_slice() {
        let name = name_word(words.word()?)?;
        return match words.next() {
            None => Ok(Line::Block(name)),
            Some(_) => Err(WordFault::Bad),
        };
    }
    if first == b"loop".as_slice() {
        return loop_numbers(&mut words);
    }
    let number = number_word(first, 1000)?;
    let statement = statement(alloc, version, &mut words)?;
    Ok(Line::Statement(number, statement))
}
