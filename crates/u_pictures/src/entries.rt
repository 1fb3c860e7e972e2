//! The nodes of entries.
//!
//! Each entry is a node, so what a firing needs and gives are its arcs, and nothing is searched for. The
//! writes of a cell share its cylinder. Entries stand in order, so what lies in one place is seen by
//! looking at the neighbours.
ghost use Rattle.std.specs.Prelude.{◌≡◌, ◌++◌, IfOk, OnOk, OnErr, None};
ghost use Rattle.std.specs.Option.{option_copied};
ghost use Rattle.u_base.specs.Appending.{Extends};
ghost use Rattle.std.specs.Ordering.{eq_by_cmp};
ghost use Rattle.u_rule.specs.EntryOrder.{entry_cmp};
ghost use Rattle.u_pictures.specs.Dot.{attributes_text, shown_line, text};
ghost use Rattle.u_pictures.specs.Places.{clusters_at};
ghost use Rattle.u_pictures.specs.Picture.{entry_place, is_start, entry_attributes, meets_one, is_drawn};
ghost use Rattle.u_pictures.specs.Picture.{entry_clusters, entry_node, standing, entry_lines, nodes_from};

use crate::dot::{push_attribute, push_node};
use crate::looks::{meet, push_entry_look};
use crate::names::entry_name;
use crate::places::{Enclosure, begin_line, end_line, place_of, push_clusters};
use crate::tips::entry_tip;
use std::alloc::{AllocError, Global};
use u_check::Job;
use u_compile::BlockOrigins;
use u_program::Program;
use u_rule::{Entry, start};

/// Where an entry lies: a token where its activity does, a cell where its structure was made.
#[tactic(auto, unfolding(crate::specs::Picture::entry_place))]
fn entry_place<'a>(program: &Program, entry: &'a Entry) -> Enclosure<'a>
    ensures { clusters_at result ≡ entry_place program.now.blocks entry.now }
{
    match entry {
        Entry::Token(token) => place_of(program, token.activity()),
        Entry::Write(write) => Enclosure::Outside(write.cell.name().context()),
        Entry::Fault(fault) => place_of(program, &fault.activity),
        Entry::Answer(_) => Enclosure::Nowhere,
    }
}

/// Whether two entries are the same.
fn is_same(one: &Entry, other: &Entry) -> bool
    ensures { result ≡ eq_by_cmp entry_cmp one.now other.now }
{
    one.compare(other).is_eq()
}

/// Whether it is the token that the job begins with.
#[tactic(auto, unfolding(crate::specs::Picture::is_start))]
fn is_start(job: &Job, entry: &Entry) -> bool
    ensures { result ≡ is_start job.now entry.now }
{
    let first = start(job);
    is_same(entry, &first)
}

/// The attributes of an entry's node, in whose place another entry lies if `meets` says so.
#[tactic(auto, using(crate::proofs::Texts::join2))]
fn entry_attributes(
    alloc: Global,
    job: &Job,
    origins: &[BlockOrigins],
    meets: bool,
    entry: &Entry,
) -> Result<Vec<u8>, AllocError>
    ensures { IfOk result
        (λ v. v.items
        ≡ attributes_text (entry_attributes origins.now job.now meets entry.now)) }
{
    let tip = entry_tip(alloc, origins, entry)?;
    let begins = is_start(job, entry);
    let mut attributes = Vec::new(alloc);
    push_attribute(&mut attributes, b"tooltip", &tip)?;
    push_entry_look(&mut attributes, begins, meets, entry)?;
    Ok(attributes)
}

/// Whether the entry lies in the place of that one, if there is one.
fn meets_one(one: Option<&Entry>, entry: &Entry) -> bool
    ensures { result ≡ meets_one (option_copied one.entry) entry.now }
{
    match one {
        Some(one) => meet(one, entry),
        None => false,
    }
}

/// Whether the entry has a node: of the writes in one cell the first has it.
fn is_drawn(before: Option<&Entry>, entry: &Entry) -> bool
    ensures { result ≡ is_drawn (option_copied before.entry) entry.now }
{
    match entry {
        Entry::Write(_) => !meets_one(before, entry),
        _ => true,
    }
}

/// Appends a line for each cluster of a token, in which no firing may lie yet. On an error a part of them
/// may stand there.
#[tactic(auto, using(u_base::proofs::AppendingLaws::extends_same))]
fn push_entry_clusters(
    out: &mut Vec<u8>,
    program: &Program,
    entry: &Entry,
) -> Result<(), AllocError>
    ensures ok { OnOk result (out.new.items
        ≡ out.old.items ++ text (entry_clusters program.now.blocks entry.now)) }
    ensures err { OnErr result (Extends out.old.items out.new.items) }
{
    match entry {
        Entry::Token(token) => push_clusters(out, program, token.activity()),
        _ => Ok(()),
    }
}

/// Appends a line for the node of an entry, in whose place another entry lies if `meets` says so. On an
/// error a part of it may stand there.
#[tactic(auto, unfolding(crate::specs::Dot::shown_line), using(u_base::proofs::AppendingLaws::extends_same, u_base::proofs::AppendingLaws::extends_behind, crate::proofs::Nests::framed))]
fn push_entry_node(
    out: &mut Vec<u8>,
    job: &Job,
    origins: &[BlockOrigins],
    meets: bool,
    entry: &Entry,
) -> Result<(), AllocError>
    ensures ok { OnOk result (out.new.items
        ≡ out.old.items ++ shown_line (entry_node origins.now job.now meets entry.now)) }
    ensures err { OnErr result (Extends out.old.items out.new.items) }
{
    let alloc = *out.allocator();
    let name = entry_name(alloc, entry)?;
    let attributes = entry_attributes(alloc, job, origins, meets, entry)?;
    let place = entry_place(job.program(), entry);
    begin_line(out, place)?;
    push_node(out, &name, &attributes)?;
    end_line(out, place)
}

/// Of an entry that has this one before it and these behind it, whether another one lies in its place. If
/// it has no node, none.
#[tactic(auto, unfolding(crate::specs::Picture::standing))]
fn standing(before: Option<&Entry>, entry: &Entry, behind: &[Entry]) -> Option<bool>
    ensures { result ≡ standing (option_copied before.entry) entry.now behind.now }
{
    if is_drawn(before, entry) {
        Some(meets_one(before, entry) || meets_one(behind.first(), entry))
    } else {
        None
    }
}

/// Appends the lines of an entry that stands so: for its clusters and its node. On an error a part of them
/// may stand there.
#[tactic(auto, using(u_base::proofs::AppendingLaws::extends_same, u_base::proofs::AppendingLaws::extends_behind, crate::proofs::Shows::text_more))]
fn push_entry(
    out: &mut Vec<u8>,
    job: &Job,
    origins: &[BlockOrigins],
    standing: Option<bool>,
    entry: &Entry,
) -> Result<(), AllocError>
    ensures ok { OnOk result (out.new.items
        ≡ out.old.items ++ text (entry_lines origins.now job.now standing entry.now)) }
    ensures err { OnErr result (Extends out.old.items out.new.items) }
{
    match standing {
        Some(meets) => {
            push_entry_clusters(out, job.program(), entry)?;
            push_entry_node(out, job, origins, meets, entry)
        }
        None => Ok(()),
    }
}

/// Appends the lines of the entries, which are in order. On an error a part of them may stand there.
#[tactic(auto, using(u_base::proofs::AppendingLaws::extends_same, u_base::proofs::AppendingLaws::extends_behind))]
pub fn push_entries(
    out: &mut Vec<u8>,
    job: &Job,
    origins: &[BlockOrigins],
    entries: &[Entry],
) -> Result<(), AllocError>
    ensures ok { OnOk result (out.new.items
        ≡ out.old.items ++ text (nodes_from origins.now job.now None entries.now)) }
    ensures err { OnErr result (Extends out.old.items out.new.items) }
{
    let mut before = None;
    let mut rest = entries;
    while let Some((entry, behind)) = rest.split_first() {
        push_entry(out, job, origins, standing(before, entry, behind), entry)?;
        before = Some(entry);
        rest = behind;
    }
    Ok(())
}
