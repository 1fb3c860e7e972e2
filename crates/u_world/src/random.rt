//! Random lists of events, each fixed by a seed.
//!
//! No event brings a firing from elsewhere, so a list depends on its seed and the number of replicas, and
//! not on the job.
ghost use Rattle.std.specs.Prelude.{◌≡◌, IfOk, length};
ghost use Rattle.u_name.specs.Context.{IsBetween};
ghost use Rattle.u_world.specs.Random.{words_of, words_after, another, random_event, sent_after, random_list, NoneIsBad};

use crate::event::Event;
use rand_core::SeedableRng;
use rand_core::utils::NextWord;
use rand_pcg::Lcg64Xsh32;
use std::alloc::{AllocError, Global};

/// Four words of the generator, of which one event is made.
#[derive(Clone, Copy)]
pub(crate) struct Words {
    /// What happens.
    kind: u32,
    /// Which replica it happens to.
    replica: u32,
    /// Which other replica takes part, or how much is kept.
    other: u32,
    /// What is picked.
    pick: u32,
}

/// The next four words.
fn draw(random: &mut Lcg64Xsh32) -> Words
    ensures words { result ≡ words_of random.old }
    ensures after { random.new ≡ words_after random.old }
{
    let kind = random.next_word();
    let replica = random.next_word();
    let other = random.next_word();
    let pick = random.next_word();
    Words {
        kind,
        replica,
        other,
        pick,
    }
}

/// The number of a replica other than that one. `replicas` is 2 to 8, and `replica` 1 to that.
fn another(replicas: u8, replica: u8, word: u32) -> u8
    requires many { IsBetween 2 replicas 8 }
    requires replica { IsBetween 1 replica replicas }
    ensures { result ≡ another replicas replica word }
{
    let (count, number) = (u32::from(replicas), u32::from(replica));
    (1 + (number + word % (count - 1)) % count) as u8
}

/// The event that the four words make, where so many messages were sent before it.
#[tactic(auto, unfolding(crate::specs::Random::random_event))]
fn random_event(replicas: u8, sent: usize, words: Words) -> Event
    requires { IsBetween 1 replicas 8 }
    ensures { result ≡ random_event replicas sent words }
{
    let replica = 1 + (words.replica % u32::from(replicas)) as u8;
    let pick = words.pick as usize;
    match words.kind % 8 {
        3 if replicas > 1 => Event::Ask {
            asker: replica,
            asked: another(replicas, replica, words.other),
        },
        4 | 5 if sent > 0 => Event::Deliver {
            message: pick % sent,
        },
        6 if replicas > 1 => Event::Merge {
            replica,
            other: another(replicas, replica, words.other),
        },
        7 if words.pick % 2 == 0 => Event::Save { replica },
        7 => Event::Restart {
            replica,
            keep: words.other as usize,
        },
        _ => Event::Fire { replica, pick },
    }
}

/// Adds what the event sends to the messages, of each of which the list says whether it is an ask.
fn send(event: &Event, asks: &mut Vec<bool>) -> Result<(), AllocError>
    ensures { IfOk result (λ u. asks.new.items ≡ sent_after event.now asks.old.items) }
{
    match event {
        Event::Ask { .. } => asks.push(true)?,
        Event::Deliver { message } => {
            if let Some(true) = asks.get(*message) {
                asks.push(false)?;
            }
        }
        _ => {}
    }
    Ok(())
}

/// The list of `count` random events that the seed stands for, in a world of so many replicas, 1 to 8. There
/// are no Take and no Bytes.
///
/// Of eight events three fire, one asks, two deliver a message that was sent before, one merges, and one
/// saves or starts again. Where there is no other replica, or no message, the replica fires instead.
///
/// Promise random-events: a seed stands for one list of exactly `count` events, each of which a new world of
/// as many replicas can do.
///
/// # Errors
/// `AllocError` where there is no memory.
pub fn random_events(
    alloc: Global,
    seed: u64,
    replicas: u8,
    count: usize,
) -> Result<Vec<Event>, AllocError>
    requires { IsBetween 1 replicas 8 }
    ensures list { IfOk result (λ events. events.items ≡ random_list seed replicas count) }
    ensures count { IfOk result (λ events. length events.items ≡ count) }
    ensures doable { IfOk result (λ events. NoneIsBad replicas events.items) }
{
    let mut random = Lcg64Xsh32::seed_from_u64(seed);
    let mut asks = Vec::new(alloc);
    let mut events = Vec::new(alloc);
    for _place in 0..count {
        let words = draw(&mut random);
        let event = random_event(replicas, asks.len(), words);
        send(&event, &mut asks)?;
        events.push(event)?;
    }
    Ok(events)
}
