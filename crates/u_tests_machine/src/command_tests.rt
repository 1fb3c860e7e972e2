//! The commands over bytes that the program does not call, since it watches them.
use std::alloc::Global;
use u_cli::{
    CommandError, Events, STORED_PROGRAM, WorldPlan, restore_text, run_text, save_text, trace_text,
    world_text,
};

/// A command of the double of 4.
#[derive(Clone, Copy, Debug)]
enum Told {
    Run,
    Save,
    Restore,
    Trace,
    World,
}

/// What each command writes first.
const TEXTS: &[(Told, &str)] = &[
    (Told::Run, "state quiet\nfirings 3\n"),
    (Told::Save, "u-history 1\nf -.main.1.1 4\n"),
    (Told::Restore, "checkpoint torn\nstate quiet\n"),
    (Told::Trace, "causes 1\nf -.main.1.1 4\n"),
    (Told::World, "replica 1 firings 0 parked 0 entries 1\n"),
];

/// Lets the command write.
fn tell(alloc: Global, told: Told, writer: &mut Vec<u8>) -> Result<u8, CommandError> {
    match told {
        Told::Run => run_text(alloc, STORED_PROGRAM, b"4", 100, writer),
        Told::Save => save_text(alloc, STORED_PROGRAM, b"4", 100, writer),
        Told::Restore => restore_text(alloc, STORED_PROGRAM, b"4", b"", 100, writer),
        Told::Trace => {
            let entry = b"t -.main.2.1 2 4";
            trace_text(alloc, STORED_PROGRAM, b"4", entry, 100, writer)
        }
        Told::World => {
            let plan = WorldPlan {
                replicas: 1,
                events: Events::Random { seed: 1, count: 0 },
                firings: 100,
            };
            world_text(alloc, STORED_PROGRAM, b"4", plan, writer)
        }
    }
}

/// The commands. A proof that calls this knows none of them, and so is short.
fn texts() -> &'static [(Told, &'static str)] {
    TEXTS
}

/// Whether the command writes the text first.
fn writes(alloc: Global, told: Told, text: &str) -> bool {
    let mut out = Vec::new(alloc);
    tell(alloc, told, &mut out) == Ok(0) && out.starts_with(text.as_bytes())
}

#[test]
fn commands_write_their_texts(rt: HostRuntime) {
    for (told, text) in texts() {
        assert!(rt; writes(rt.alloc(), *told, text), "{told:?}");
    }
}
