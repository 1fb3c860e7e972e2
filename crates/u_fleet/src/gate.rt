//! Gates: what each worker passes after each of its rounds.

/// What a gate says to a worker.
#[derive(Clone, Copy, PartialEq, Eq, Debug)]
pub enum Turn {
    /// The worker saves its replica, and goes on.
    Go,
    /// The worker ends.
    Stop,
    /// The worker starts again from what it saved last, in its next life.
    Restart,
}

/// What each worker passes after each of its rounds. Workers pass it at the same time, from their own
/// threads.
pub trait Gate {
    ghost use Rattle.std.specs.Prelude.{ℕ};
    ghost use Rattle.u_fleet.specs.declared.gate.Turn.{Turn};

    // Which turns the gate may say, to which worker and after which round.
    ghost may: { ℕ → ℕ → Turn → Type 0 };

    /// What is said to the worker, 1 to 8, after the round, counted from 0.
    fn pass(&self, worker: u8, round: u32) -> Turn
        ensures { may worker round result };
}

/// The gate that always says `Go`.
pub struct Always;

impl Gate for Always {
    ghost use Rattle.std.specs.Prelude.{◌≡◌};
    ghost use Rattle.u_fleet.specs.declared.gate.Turn.TheVariants.{Go};

    ghost may = { λ _ _ turn. turn ≡ Go };

    fn pass(&self, _worker: u8, _round: u32) -> Turn {
        Turn::Go
    }
}
