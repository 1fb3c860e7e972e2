//! The tooltips of firings and entries: their texts, and the places of the statements of which they speak.
ghost use Rattle.std.specs.Prelude.{◌≡◌, ◌++◌, IfOk};
ghost use Rattle.u_rule.specs.EntryText.{entry_text};
ghost use Rattle.u_rule.specs.FiringText.{firing_text};
ghost use Rattle.u_pictures.specs.Tips.{activity_place, spoken_place, firing_tip, entry_tip};

use std::alloc::{AllocError, Global};
use u_compile::{BlockOrigins, push_place};
use u_name::Name;
use u_rule::{Entry, Firing};

/// Appends the place of the statement that the activity executes, if it is known.
fn push_activity_place(
    out: &mut Vec<u8>,
    origins: &[BlockOrigins],
    activity: &Name,
) -> Result<(), AllocError>
    ensures { IfOk result
        (λ _. out.new.items ≡ out.old.items ++ activity_place origins.now activity.now) }
{
    push_place(
        out,
        origins,
        activity.block(),
        u64::from(activity.statement()),
    )
}

/// Appends the place of the statement of which the entry speaks, if it is known.
fn push_spoken_place(
    out: &mut Vec<u8>,
    origins: &[BlockOrigins],
    entry: &Entry,
) -> Result<(), AllocError>
    ensures { IfOk result
        (λ _. out.new.items ≡ out.old.items ++ spoken_place origins.now entry.now) }
{
    match entry {
        Entry::Token(token) => push_activity_place(out, origins, token.activity()),
        Entry::Write(write) => push_activity_place(out, origins, write.cell.name()),
        Entry::Fault(fault) => push_activity_place(out, origins, &fault.activity),
        Entry::Answer(_) => Ok(()),
    }
}

/// The tooltip of a firing.
#[tactic(auto, unfolding(crate::specs::Tips::firing_tip))]
pub fn firing_tip(
    alloc: Global,
    origins: &[BlockOrigins],
    firing: &Firing,
) -> Result<Vec<u8>, AllocError>
    ensures { IfOk result (λ v. v.items ≡ firing_tip origins.now firing.now) }
{
    let mut tip = Vec::new(alloc);
    firing.write_text(&mut tip)?;
    push_activity_place(&mut tip, origins, &firing.activity)?;
    Ok(tip)
}

/// The tooltip of an entry.
#[tactic(auto, unfolding(crate::specs::Tips::entry_tip))]
pub fn entry_tip(
    alloc: Global,
    origins: &[BlockOrigins],
    entry: &Entry,
) -> Result<Vec<u8>, AllocError>
    ensures { IfOk result (λ v. v.items ≡ entry_tip origins.now entry.now) }
{
    let mut tip = Vec::new(alloc);
    entry.write_text(&mut tip)?;
    push_spoken_place(&mut tip, origins, entry)?;
    Ok(tip)
}
