//! Lists of at most 16 destinations.
ghost use Rattle.std.specs.Prelude.{◌≡◌, ◌+◌, ◌<◌, ◌≤◌, ◌^◌, ◌++◌, ◌∷◌, [], length, IfOk, MatchResult};
ghost use Rattle.std.specs.Option.{option_copied};
ghost use Rattle.u_compile.specs.Graphs.{link, destinations, draft_at, IsGraph};
ghost use Rattle.u_compile.specs.Fanning.{holder, region_behind, moved, fanned, FansOut, IsNoFullLast, AreFew};

use crate::graph::{Draft, Full, Graph, Link, Output, STATEMENTS};
use std::alloc::{AllocFailed, Global};
use u_program::{Destination, Kind};

/// The most destinations of a list.
const DESTINATIONS: usize = 16;

/// How many links come from the output.
fn count_from(links: &[Link], output: Output) -> usize
    ensures { result ≡ length (destinations output links.now) }
{
    let mut count = 0;
    let mut rest = links;
    while let Some((link, others)) = rest.split_first() {
        if output.is(link.from) {
            count += 1;
        }
        rest = others;
    }
    count
}

/// The statement of that number, which counts from 1.
#[tactic(auto, using(crate::proofs::Numbers::numbered))]
pub(crate) fn draft_at(statements: &[Draft], number: u16) -> Option<&Draft>
    ensures { option_copied result ≡ draft_at statements.now number }
{
    if number == 0 {
        return None;
    }
    statements.get(number as usize - 1)
}

/// The region that holds the loop of that number: of no loop the outer one.
fn holder(loops: &[u8], number: u8) -> u8
    ensures { result ≡ holder loops.now number }
{
    if number == 0 {
        return 0;
    }
    match loops.get(number as usize - 1) {
        Some(region) => *region,
        None => 0,
    }
}

/// Where what a statement of that region and kind sends arrives.
fn region_behind(loops: &[u8], region: u8, kind: Kind) -> u8
    ensures { result ≡ region_behind loops.now region kind }
{
    match kind {
        Kind::Enter(number) => number,
        Kind::Leave => holder(loops, region),
        _ => region,
    }
}

/// The links, where all from the output but the first so many come from statement `behind`.
fn moved(
    alloc: Global,
    links: &[Link],
    output: Output,
    first: usize,
    behind: u16,
) -> Result<Vec<Link>, AllocFailed<Link>>
    ensures { IfOk result (λ v. v.items ≡ moved output first behind links.now) }
{
    let mut all = Vec::new(alloc);
    let mut left = first;
    let mut rest = links;
    while let Some((link, others)) = rest.split_first() {
        if output.is(link.from) && left == 0 {
            all.push(Link {
                from: Output {
                    statement: behind,
                    on_false: false,
                },
                to: link.to,
            })?;
        } else {
            if output.is(link.from) {
                left -= 1;
            }
            all.push(*link)?;
        }
        rest = others;
    }
    Ok(all)
}

/// The links, where statement `pass` stands behind the output: it takes the place of the 16th link from there, and
/// sends where that one and those behind it led.
fn passed(
    alloc: Global,
    links: &[Link],
    output: Output,
    pass: u16,
) -> Result<Vec<Link>, AllocFailed<Link>>
    ensures { IfOk result
        (λ v. v.items ≡ moved output 15 pass links.now ++ (link output pass 1 ∷ [])) }
{
    let mut all = moved(alloc, links, output, DESTINATIONS - 1, pass)?;
    all.push(Link {
        from: output,
        to: Destination {
            statement: pass,
            port: 1,
        },
    })?;
    Ok(all)
}

impl Graph {
    /// Puts a `pass` behind the output where it has more than 16 links. That of a `last` does not get one: it leads to
    /// `leave` statements alone.
    #[tactic(auto, using(crate::proofs::Fans::few_no_last, crate::proofs::Fans::none_no_last, crate::proofs::Fans::other_no_last))]
    fn fan_out(&mut self, alloc: Global, output: Output) -> Result<(), Full>
        ensures fanned { MatchResult result (λ _. self.new ≡ fanned output self.old)
            (λ _. self.new ≡ self.old) }
        ensures last { IfOk result (λ _. IsNoFullLast output self.old) }
        ensures graph { IsGraph self.old }
    {
        if count_from(&self.links, output) <= DESTINATIONS {
            return Ok(());
        }
        let Some(draft) = draft_at(&self.statements, output.statement) else {
            return Ok(());
        };
        if matches!(draft.kind(), Kind::Last) {
            return Err(Full::Misplaced);
        }
        let region = region_behind(&self.loops, draft.region(), draft.kind());
        if self.statements.len() >= STATEMENTS {
            return Err(Full::Statements);
        }
        let pass = self.statements.len() as u16 + 1;
        let links = passed(alloc, &self.links, output, pass)?;
        self.statements.push(Draft::new(region, Kind::Pass, pass))?;
        self.links = links;
        Ok(())
    }

    /// Puts `pass` statements behind outputs until none has more than 16 links.
    ///
    /// # Errors
    /// `Statements` where there are too many then, `NoMemory` where there is no memory, `Misplaced` where a `last` has
    /// more than 16 links.
    pub(crate) fn fan_out_all(&mut self, alloc: Global) -> Result<(), Full>
        ensures { MatchResult result (λ _. FansOut self.old self.new × AreFew self.new.links)
            (λ _. FansOut self.old self.new) }
    {
        // Brings in that it is a graph.
        let _ = self.len();
        let mut number: u16 = 1;
        while number as usize <= self.len() {
            let output = Output {
                statement: number,
                on_false: false,
            };
            if let Err(full) = self.fan_out(alloc, output) {
                return Err(full);
            }
            let otherwise = Output {
                statement: number,
                on_false: true,
            };
            if let Err(full) = self.fan_out(alloc, otherwise) {
                return Err(full);
            }
            number += 1;
        }
        Ok(())
    }
}
