//! Lines of a checkpoint that stand in any order, and are those of the firings that the machine fires by itself.
//!
//! Where a checkpoint is that of a run and its lines were moved about, its first lines may be those of
//! firings that need others, whose lines come behind them. A machine that takes such firings one after
//! another parks each of them, and looks for it again once it is enabled. So the lines are listed, and the
//! machine fires as long as the line of the firing that it fires next is one of them. If all of them are
//! fired then, none has to be read.
ghost use Rattle.std.specs.Prelude.{◌≡◌, [], List, IfOk, IfSome, IsTrue, Contains, MatchBool, length};
ghost use Rattle.u_rule.specs.FiringText.{firing_text};
ghost use Rattle.u_rule.specs.declared.firing.Firing.{Firing};
ghost use Rattle.u_machine.specs.State.{IsSettled};
ghost use Rattle.u_replica.specs.FiredLines.{AreLines};
ghost use Rattle.u_replica.specs.ListedLines.{texts, IsLineAt, FiresListedLine, FiresAmong, FiresListed};

use crate::onlooker::Onlooker;
use crate::spelled_context::SpelledContext;
use crate::taking::PIECE;
use indexmap::IndexMap;
use std::alloc::{AllocError, Global};
use u_delta::{Ahead, in_range, look_ahead};
use u_machine::{Machine, Refusal, Step};
use u_rule::{Firing, RuleError, TextError, needs};

/// From so many lines on, all are read, even where all their firings were fired. A count of fewer stays within
/// 64 bits where other counts are added to it.
const TOO_MANY: usize = 1 << 32;

/// Where each line stands.
type Places<'a> = IndexMap<&'a [u8], usize>;

/// Lines among which those of the machine's next firings are looked for.
#[derive(Drop)]
struct ListedLines<'a> {
    alloc: Global,
    lines: Vec<&'a [u8]>,
    /// Where each of them stands; empty until a line is first looked for by its text.
    places: Places<'a>,
    /// The place of the line that was found last. The next one mostly stands beside it.
    last: usize,
    /// The context of the firing that was looked for last.
    spelled: SpelledContext,
}

/// The lines at the front of the bytes that begin as a firing's does, and what stands behind them.
fn lines_ahead(alloc: Global, bytes: &[u8]) -> Result<(Vec<&[u8]>, &[u8]), AllocError>
    ensures { IfOk result (λ p. AreLines bytes.now p.1.now (texts p.0.items)) }
{
    let mut lines = Vec::new(alloc);
    let mut rest = bytes;
    loop {
        match look_ahead(rest) {
            Ahead::Line(line @ [b'f', b' ', ..], others) => {
                lines.push(line)?;
                rest = others;
            }
            _ => return Ok((lines, rest)),
        }
    }
}

/// Puts down where each of the lines stands; of equal ones, the last.
fn put_places<'a>(places: &mut Places<'a>, lines: &[&'a [u8]]) -> Result<(), AllocError> {
    places.reserve(lines.len())?;
    for (place, line) in lines.iter().enumerate() {
        places.insert(*line, place)?;
    }
    Ok(())
}

impl<'a> ListedLines<'a> {
    /// These lines. The first one that is looked for is expected at their end.
    fn new(alloc: Global, lines: Vec<&'a [u8]>) -> Result<ListedLines<'a>, AllocError>
        ensures { IfOk result (λ l. l.lines ≡ lines.entry) }
    {
        let spelled = SpelledContext::root(alloc)?;
        let last = lines.len();
        Ok(ListedLines {
            alloc,
            lines,
            places: IndexMap::new(alloc),
            last,
            spelled,
        })
    }

    /// Whether the line at the place is that of the firing, which is in the context that was looked for last.
    fn is_at(&self, place: usize, firing: &Firing) -> bool
        requires { firing.now.activity.context ≡ self.now.spelled.context }
        ensures { IsTrue result
            → IsLineAt self.now.lines.items place (firing_text firing.now) }
    {
        match self.lines.get(place) {
            Some(line) => self.spelled.is_plain_text(firing, line),
            None => false,
        }
    }

    /// The place of the firing's line, if it is beside that of the line that was found last.
    fn beside_last(&self, firing: &Firing) -> Option<usize>
        requires { firing.now.activity.context ≡ self.now.spelled.context }
        ensures { IfSome result (λ place.
            IsLineAt self.now.lines.items place (firing_text firing.now)) }
    {
        let before = self.last.wrapping_sub(1);
        if self.is_at(before, firing) {
            return Some(before);
        }
        let behind = self.last.wrapping_add(1);
        if self.is_at(behind, firing) {
            return Some(behind);
        }
        None
    }

    /// Sees to it that the places of the lines are put down.
    fn list_places(&mut self) -> Result<(), AllocError>
        ensures { self.new.lines ≡ self.old.lines }
    {
        if !self.places.is_empty() {
            return Ok(());
        }
        put_places(&mut self.places, self.lines.as_slice())
    }

    /// The place of a line with the text.
    fn place_of(&self, text: &[u8]) -> Option<usize>
        ensures { IfSome result (λ place. IsLineAt self.now.lines.items place text.now) }
    {
        let place = *self.places.get(text)?;
        match self.lines.get(place) {
            Some(line) if *line == text => Some(place),
            _ => None,
        }
    }

    /// Looks for a line with the firing's text. Returns whether there is one.
    #[tactic(auto, using(crate::proofs::ListedLaws::line_there))]
    fn find_text(&mut self, firing: &Firing) -> Result<bool, AllocError>
        ensures found { IfOk result (λ b. IsTrue b
            → Contains (texts self.old.lines.items) (firing_text firing.now)) }
        ensures lines { self.new.lines ≡ self.old.lines }
    {
        self.list_places()?;
        let mut text = Vec::new(self.alloc);
        firing.write_text(&mut text)?;
        let Some(place) = self.place_of(text.as_slice()) else {
            return Ok(false);
        };
        self.last = place;
        Ok(true)
    }

    /// Whether the firing's line is one of them.
    ///
    /// # Errors
    /// `AllocError` where there is no memory.
    #[tactic(auto, using(crate::proofs::ListedLaws::line_there))]
    fn find(&mut self, firing: &Firing) -> Result<bool, AllocError>
        ensures found { IfOk result (λ b. IsTrue b
            → Contains (texts self.old.lines.items) (firing_text firing.now)) }
        ensures lines { self.new.lines ≡ self.old.lines }
    {
        self.spelled.spell(firing.activity.context())?;
        if let Some(place) = self.beside_last(firing) {
            self.last = place;
            return Ok(true);
        }
        self.find_text(firing)
    }
}

/// Fires what the machine fires next, if its line is one of those that are listed. Returns whether it did.
fn fire_found(machine: &mut Machine<'_>, listed: &mut ListedLines<'_>) -> Result<bool, AllocError>
    requires { IsSettled machine.old }
    ensures fires { IfOk result (λ fired. MatchBool fired
        (FiresListedLine machine.old (texts listed.old.lines.items) machine.new)
        (machine.new ≡ machine.old)) }
    ensures lines { listed.new.lines ≡ listed.old.lines }
{
    let Some(firing) = machine.next_ready() else {
        return Ok(false);
    };
    in_range(firing);
    if !listed.find(firing)? {
        return Ok(false);
    }
    match machine.fire(0) {
        Ok(Step::Fired(_)) => Ok(true),
        Ok(Step::Quiet) => Ok(false),
        Err(Refusal::Full) => Ok(false),
        Err(Refusal::NoMemory) => Err(AllocError),
    }
}

/// Fires what the machine fires next, as long as its line is one of those that are listed. Returns how many
/// were fired. The onlooker is shown the machine between pieces.
fn fire_all<S: Onlooker>(
    machine: &mut Machine<'_>,
    listed: &mut ListedLines<'_>,
    onlooker: &mut S,
) -> Result<usize, AllocError>
    requires { IsSettled machine.old }
    ensures { IfOk result (λ count. (more : List Firing) × (count ≡ length more)
        × FiresAmong machine.old (texts listed.old.lines.items) more machine.new) }
{
    let mut fired = 0;
    while fired < listed.lines.len() {
        if !fire_found(machine, listed)? {
            return Ok(fired);
        }
        fired += 1;
        if fired % PIECE == 0 {
            onlooker.see(machine);
        }
    }
    Ok(fired)
}

/// Whether the firing of the line at the front is enabled. Where none is there it is taken for enabled.
fn is_enabled(alloc: Global, machine: &Machine<'_>, bytes: &[u8]) -> Result<bool, AllocError> {
    let Ahead::Line(line, _) = look_ahead(bytes) else {
        return Ok(true);
    };
    let firing = match Firing::read(alloc, line) {
        Ok(firing) => firing,
        Err(TextError::BadText(_)) => return Ok(true),
        Err(TextError::NoMemory) => return Err(AllocError),
    };
    let entries = match needs(alloc, machine.job(), &firing) {
        Ok(entries) => entries,
        Err(RuleError::NotAFiring) => return Ok(true),
        Err(RuleError::NoMemory) => return Err(AllocError),
    };
    for entry in &entries {
        if !machine.history().contains(entry) {
            return Ok(false);
        }
    }
    Ok(true)
}

/// Where the first line is that of a firing which is not enabled, fires what the machine fires next as long as
/// its line is one of those at the front of the bytes. If all of these are fired then, returns how many they
/// are and what stands behind them; else none, and the bytes. The onlooker is shown the machine between pieces.
///
/// # Errors
/// `AllocError` where there is no memory; then some may be fired.
pub(crate) fn fire_listed<'a, S: Onlooker>(
    alloc: Global,
    machine: &mut Machine<'_>,
    bytes: &'a [u8],
    onlooker: &mut S,
) -> Result<(usize, &'a [u8]), AllocError>
    requires settled { IsSettled machine.old }
    requires alone { machine.old.parked ≡ [] }
    ensures { IfOk result (λ p. FiresListed machine.old bytes.now p.1.now p.0 machine.new) }
{
    if is_enabled(alloc, machine, bytes)? {
        return Ok((0, bytes));
    }
    let (lines, rest) = lines_ahead(alloc, bytes)?;
    let count = lines.len();
    let mut listed = ListedLines::new(alloc, lines)?;
    let fired = fire_all(machine, &mut listed, onlooker)?;
    // Brings in that no firing was taken twice.
    machine.holds();
    if fired == count && count < TOO_MANY {
        return Ok((count, rest));
    }
    Ok((0, bytes))
}
