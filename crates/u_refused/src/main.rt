//! Calls that may be refused memory, row by row, and calls that take none, for a library that refuses and
//! counts allocations (tests/memory/refuse.c).
//!
//! A refused call is looked at and made again, and a row that finds no memory for anything else is begun
//! again. So each run prints the same, whichever allocations are refused, or else what is wrong.
#![tactic(auto)]

mod lent;
mod machines;
mod replicas;
mod rows;
mod sets;
mod standing;
mod worlds;

use anyhow::Result;
use rows::{Row, Trouble, rows, tell_again};

/// Prints the row.
fn print_row(rt: &HostRuntime, row: &Row) -> Result<()> {
    let mut out = Vec::new(rt.alloc());
    let told = tell_again(rt.alloc(), row, &mut out);
    let (name, ..) = row;
    match told {
        Ok(()) => println!(rt; "{name}: {} bytes", out.len())?,
        Err(Trouble::Memory) => println!(rt; "{name}: no memory")?,
        Err(Trouble::Wrong(what)) => println!(rt; "{name}: wrong: {what}")?,
    }
    Ok(())
}

fn main(rt: HostRuntime) -> Result<()> {
    for row in rows() {
        print_row(&rt, row)?;
    }
    lent::print(&rt);
    Ok(())
}
