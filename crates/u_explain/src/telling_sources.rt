//! What is told of a port to which several destinations lead.
use crate::arcs::{Source, are_many, sources_of, statement_of};
use crate::rounds::{reached_from, stays};
use crate::scanning::BlockLine;
use crate::spot::Spot;
use crate::telling::{Quoted, Told};
use std::alloc::{AllocError, Global};
use u_check::ports_of;
use u_program::kind_word;

/// Why several destinations may not lead to one port.
#[derive(Clone, Copy)]
pub enum Why {
    /// A port of a strict program has one.
    NotOne,
    /// Two of them may both bring a value.
    NotApart,
}

/// The ports of the statement to which several destinations lead, and not just one of an `enter` and
/// one of a `next`.
fn many_ports(alloc: Global, spot: &Spot<'_>) -> Result<Vec<usize>, AllocError> {
    let mut ports = Vec::new(alloc);
    let count = match spot.statement() {
        Some(statement) => ports_of(statement.kind()),
        None => 0,
    };
    for port in 1..count + 1 {
        let sources = sources_of(alloc, spot.block, spot.port(port))?;
        if are_many(spot.block, &sources) {
            ports.push(port)?;
        }
    }
    Ok(ports)
}

/// Whether the destination is one of a statement that is reached, and stays within the turn.
fn comes_round(spot: &Spot<'_>, reached: &[bool], source: &Source) -> bool {
    match (
        reached.get(source.statement),
        statement_of(spot.block, source.statement),
    ) {
        (Some(true), Some(statement)) => stays(spot.block, spot.region(), statement),
        _ => false,
    }
}

/// The first of the ports to which a statement sends that the port's own statement sends to, at once or
/// over others, in the same turn; and that destination.
fn first_round(
    alloc: Global,
    spot: &Spot<'_>,
    ports: &[usize],
) -> Result<Option<(usize, Source)>, AllocError> {
    let reached = reached_from(alloc, spot.block, spot.number)?;
    for port in ports {
        let sources = sources_of(alloc, spot.block, spot.port(*port))?;
        let found = sources
            .iter()
            .find(|source| comes_round(spot, &reached, source));
        if let Some(source) = found {
            return Ok(Some((*port, *source)));
        }
    }
    Ok(None)
}

/// The word of the statement's kind.
fn word_of_kind(spot: &Spot<'_>) -> &'static [u8] {
    match spot.statement() {
        Some(statement) => kind_word(statement.kind()),
        None => b"",
    }
}

/// A value that comes to a port comes there again.
fn tell_round(out: &mut String, spot: &Spot<'_>, port: usize, source: &Source) -> Told {
    let kind = Quoted(word_of_kind(spot));
    let by = spot.named(source.statement);
    write!(
        out,
        "cause: the value that comes to port {port} of the {kind} goes round by {by}, "
    )?;
    match spot.region() {
        0 => out.push_str(
            "and not by a `next` of a loop: so it comes there again, and the program may go on for ever\n",
        ),
        region => writeln!(
            out,
            "and not by a `next`: so it comes there again in the same turn of loop {region}, and the loop \
                may go on for ever; only a `next` begins another turn"
        ),
    }
}

/// Why so many destinations may not lead to one port, if it is one of so many such ports.
fn reason(why: Why, sources: usize, ports: usize) -> &'static str {
    match (why, sources, ports) {
        (Why::NotOne, _, _) => "",
        (_, _, 2..) =>
            ", and two of them, or of those that lead to another of its ports, may both bring a value: no \
                control keeps them apart",
        (_, 2, _) => ", and both may bring a value: no control keeps them apart",
        _ => ", and two of them may both bring a value: no control keeps them apart",
    }
}

/// Appends the statement's line, and of each of its ports to which several destinations lead that are not
/// just one of an `enter` and one of a `next`, how many they are and why they may not, and shows them.
/// If a value comes round to one of these ports, that is told alone.
pub fn tell_ports(out: &mut String, alloc: Global, spot: &Spot<'_>, why: Why) -> Told {
    let ports = many_ports(alloc, spot)?;
    spot.show(out, BlockLine::Statement(spot.number), 2)?;
    let round = first_round(alloc, spot, &ports)?;
    let kind = Quoted(word_of_kind(spot));
    for port in &ports {
        let sources = sources_of(alloc, spot.block, spot.port(*port))?;
        let count = sources.len();
        match &round {
            Some((at, source)) if at == port => tell_round(out, spot, *port, source)?,
            Some(_) => continue,
            None => {
                let reason = reason(why, count, ports.len());
                writeln!(
                    out,
                    "cause: {count} destinations lead to port {port} of the {kind}{reason}"
                )?;
            }
        }
        out.push_str("see:\n")?;
        spot.show_sources(out, &sources)?;
    }
    Ok(())
}
