//! Which ports an activity has, and which of them have a token.
ghost use Rattle.std.specs.Prelude.{◌≡◌, ◌≤◌, ◌↔◌, ◌⊎◌, ℕ, Contains, IfOk, IsTrue};
ghost use Rattle.u_name.specs.Context.{IsBetween};
ghost use Rattle.u_rule.specs.Parts.{most_ports};
ghost use Rattle.u_trace.specs.Ports.{has_port};
ghost use Rattle.u_trace.specs.Waiting.{HasToken, IsPortOf};

use crate::ports::{MOST_PORTS, Ports};
use crate::statements::executed;
use std::alloc::AllocError;
use u_check::ports_of;
use u_history::{History, Port};
use u_name::Name;
use u_program::Program;

/// Whether the history has a token at that port of the activity.
fn has_token(history: &History, activity: &Name, number: u8) -> Result<bool, AllocError>
    ensures { IfOk result
        (λ b. IsTrue b ↔ HasToken (Contains history.now) activity.now number) }
{
    let activity = activity.copy()?;
    let port = Port { activity, number };
    Ok(!history.values_at(&port).is_empty())
}

/// The ports, and that one where the history has a token there.
fn with_filled(
    history: &History,
    activity: &Name,
    number: u8,
    ports: Ports,
) -> Result<Ports, AllocError>
    requires { number ≤ most_ports }
    ensures { IfOk result (λ p. (k : ℕ) → IsTrue (has_port p k)
        ↔ (IsTrue (has_port ports k)
        ⊎ ((k ≡ number) × HasToken (Contains history.now) activity.now k))) }
{
    let there = has_token(history, activity, number)?;
    if there {
        return Ok(ports.with(number));
    }
    Ok(ports)
}

/// Those of the ports that an activity may have at which the history has a token of this one.
pub(crate) fn filled(history: &History, activity: &Name) -> Result<Ports, AllocError>
    ensures { IfOk result (λ p. (k : ℕ) → IsTrue (has_port p k)
        ↔ (IsBetween 1 k most_ports × HasToken (Contains history.now) activity.now k)) }
{
    let mut ports = Ports::none();
    for number in 1..MOST_PORTS + 1 {
        ports = with_filled(history, activity, number, ports)?;
    }
    Ok(ports)
}

/// The ports of the activity: those of its statement, or none where the program has no such
/// statement.
pub(crate) fn ports_in(program: &Program, activity: &Name) -> Ports
    ensures { (k : ℕ) → IsTrue (has_port result k)
        ↔ IsPortOf program.now.blocks activity.now k }
{
    match executed(program, activity) {
        Some(statement) => Ports::up_to(ports_of(statement.kind())),
        None => Ports::up_to(0),
    }
}
