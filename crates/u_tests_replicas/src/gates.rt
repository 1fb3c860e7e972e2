//! A gate that says what a script has, and at which workers may wait for each other.
ghost use Rattle.std.specs.Bool.{⊤};

use std::sync::atomic::AtomicU64;
use std::sync::atomic::Ordering::SeqCst;
use std::thread::yield_now;
use u_fleet::{Gate, Turn};

/// How often a worker looks at most whether the other one has come. It yields after each look.
const LOOKS: usize = 10_000_000;

/// What a worker writes down at the gate.
#[derive(Drop)]
struct Visit {
    /// 1 once the worker has come, and else 0.
    came: AtomicU64,
    /// 1 once the worker has seen there that the other one has come, and else 0.
    met: AtomicU64,
}

impl Visit {
    /// The worker has not come.
    fn new() -> Visit {
        Visit {
            came: AtomicU64::new(0),
            met: AtomicU64::new(0),
        }
    }

    /// The worker comes.
    fn come(&self) {
        self.came.store(1, SeqCst);
    }

    /// Whether the worker comes while another one looks.
    fn comes(&self) -> bool {
        for _look in 0..LOOKS {
            if self.came.load(SeqCst) == 1 {
                return true;
            }
            yield_now();
        }
        false
    }

    /// The worker comes, and waits for the other one.
    fn meet(&self, other: &Visit) {
        self.come();
        self.wait_for(other);
    }

    /// The worker waits for the other one.
    fn wait_for(&self, other: &Visit) {
        if other.comes() {
            self.met.store(1, SeqCst);
        }
    }
}

/// What a gate says. If nothing is said of a worker and a round, it is `Go`.
#[derive(Clone, Copy)]
pub enum Script {
    /// `Go`.
    Go,
    /// That turn to worker 1, after that round.
    Once(u32, Turn),
    /// `Restart` to worker 1 after its second round, and `Stop` after its third.
    RestartThenStop,
    /// `Stop` to each worker after its first round.
    Stop,
    /// `Go`. Each of two workers waits for the other one after its first round.
    Meeting,
    /// `Stop` to worker 2 after its second round. Worker 1 waits after its first round until worker 2 has
    /// had its first one, and worker 2 then waits until worker 1 has had six.
    Ahead,
}

/// The gate that says what its script has.
#[derive(Drop)]
pub struct Scripted {
    script: Script,
    first: Visit,
    second: Visit,
}

impl Scripted {
    /// Nobody has come.
    pub fn new(script: Script) -> Scripted {
        Scripted {
            script,
            first: Visit::new(),
            second: Visit::new(),
        }
    }

    /// Whether both workers have met, if the script has them meet.
    pub fn is_over(&self) -> bool {
        match self.script {
            Script::Meeting => {
                self.first.met.load(SeqCst) == 1 && self.second.met.load(SeqCst) == 1
            }
            _ => true,
        }
    }

    /// The two workers meet.
    fn meet(&self, worker: u8, round: u32) {
        match (worker, round) {
            (1, 0) => self.first.meet(&self.second),
            (2, 0) => self.second.meet(&self.first),
            _ => {}
        }
    }

    /// Worker 1 goes ahead, and worker 2 is stopped.
    fn ahead(&self, worker: u8, round: u32) -> Turn {
        match (worker, round) {
            (1, 0) => self.first.wait_for(&self.second),
            (1, 5) => self.first.come(),
            (2, 0) => self.second.meet(&self.first),
            (2, 1) => return Turn::Stop,
            _ => {}
        }
        Turn::Go
    }
}

impl Gate for Scripted {
    ghost may = { λ _ _ _. ⊤ };

    fn pass(&self, worker: u8, round: u32) -> Turn {
        match self.script {
            Script::Once(at, turn) if worker == 1 && round == at => turn,
            Script::RestartThenStop if worker == 1 && round == 1 => Turn::Restart,
            Script::RestartThenStop if worker == 1 && round == 2 => Turn::Stop,
            Script::Stop => Turn::Stop,
            Script::Meeting => {
                self.meet(worker, round);
                Turn::Go
            }
            Script::Ahead => self.ahead(worker, round),
            Script::Go | Script::Once(_, _) | Script::RestartThenStop => Turn::Go,
        }
    }
}
