//! Which initiations the firings of a job have: of a program of version 1 those of 32 bits, of version 2
//! all that names have. The bounds are this project's profile.
ghost use Rattle.std.specs.Prelude.{◌≡◌, ◌≤◌};
ghost use Rattle.std.specs.List.{list_all};
ghost use Rattle.u_rule.specs.Initiations.{last_turn, is_turn, has_turns, wrote_in_turns, fires_in_turns};

use crate::firing::Firing;
use crate::shared_written::SharedWritten;
use u_name::Name;
use u_program::{Program, Version};
use u_value::Value;

/// The greatest initiation of an activity that a job of that version has.
pub(crate) fn last_turn(version: Version) -> u64
    ensures turn { result ≡ last_turn version }
    ensures bound { last_turn version ≤ 18446744073709551615 }
{
    match version {
        Version::One => 4294967295,
        Version::Two => 18446744073709551615,
    }
}

/// Whether the initiation of the activity, and those of its context, are at most the last turn.
fn is_turn(version: Version, activity: &Name) -> bool
    ensures { result ≡ is_turn version activity.now }
{
    activity.greatest_initiation() <= last_turn(version)
}

/// Whether the initiations in the value are: a structure has the name of an activity.
fn has_turns(version: Version, value: &Value) -> bool
    ensures { result ≡ has_turns version value.now }
{
    match value {
        Value::Ref(structure) => is_turn(version, structure.name()),
        _ => true,
    }
}

/// Whether the initiations in each of the values are.
fn have_turns(version: Version, values: &[Value]) -> bool
    ensures { result ≡ list_all (has_turns version) values.now }
{
    values.iter().all(|value| has_turns(version, value))
}

/// Whether the initiations in the write that a firing read are.
fn wrote_in_turns(version: Version, write: &Option<SharedWritten>) -> bool
    ensures { result ≡ wrote_in_turns version write.now }
{
    match write {
        None => true,
        Some(write) => {
            let written = write.get();
            is_turn(version, &written.writer) && has_turns(version, &written.value)
        }
    }
}

/// Whether each initiation in the firing is at most the last turn of the program's version, in its values
/// and its write too.
#[tactic(auto, unfolding(crate::specs::Initiations::fires_in_turns))]
pub(crate) fn fires_in_turns(program: &Program, firing: &Firing) -> bool
    ensures { result ≡ fires_in_turns program.now.version firing.now }
{
    let version = program.version();
    is_turn(version, &firing.activity)
        && (have_turns(version, firing.values.as_slice()) && wrote_in_turns(version, &firing.write))
}
