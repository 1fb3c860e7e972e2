//! Histories of worked programs, whose entries enter a matcher in random orders: each entry answers
//! the firings that need it and whose other needs have entered.
use std::alloc::{AllocError, Global};
use std::test::Fail;
use u_check::Job;
use u_history::History;
use u_match::{Entered, Matcher};
use u_plain::enabled;
use u_plain::examples::{EXAMPLES, job};
use u_plain::shuffling::shuffled;
use u_rule::{Entry, Firing, RuleError, gives, is_fitting, needs, start};

/// Seventeen values come to one port, and one value to the other.
const CROWD: &[u8] =
    b"u-program 1\nblock main\n1 0 begin -> 2.1 3.1 4.1 5.1 6.1 7.1 8.1 9.1 10.1 11.1 12.1 13.1 14.1 15.1 16.1 17.1\n2 0 const 2 -> 20.1\n3 0 const 3 -> 20.1\n4 0 const 4 -> 20.1\n5 0 const 5 -> 20.1\n6 0 const 6 -> 20.1\n7 0 const 7 -> 20.1\n8 0 const 8 -> 20.1\n9 0 const 9 -> 20.1\n10 0 const 10 -> 20.1\n11 0 const 11 -> 20.1\n12 0 const 12 -> 20.1\n13 0 const 13 -> 20.1\n14 0 const 14 -> 20.1\n15 0 const 15 -> 20.1\n16 0 const 16 -> 20.1\n17 0 pass -> 18.1 19.1 20.2\n18 0 const 18 -> 20.1\n19 0 const 19 -> 20.1\n20 0 add ->\n";

/// How many orders are tried of each program's history. Each is fixed by its number.
const ORDERS: u64 = 10;

/// Whether all of the entries have entered.
fn have_entered(matcher: &Matcher, entries: &[Entry]) -> bool {
    for entry in entries {
        if !matcher.contains(entry) {
            return false;
        }
    }
    true
}

/// Whether the entry is one of these.
fn is_among(entries: &[Entry], entry: &Entry) -> bool {
    for other in entries {
        if other == entry {
            return true;
        }
    }
    false
}

/// Whether the firing needs the entry, and all that it needs has entered.
fn is_woken(
    alloc: Global,
    job: &Job,
    matcher: &Matcher,
    entry: &Entry,
    firing: &Firing,
) -> Result<bool, RuleError> {
    let needed = needs(alloc, job, firing)?;
    Ok(is_among(&needed, entry) && have_entered(matcher, &needed))
}

/// Whether the answer has just those of all firings that the entry wakes.
fn is_right(
    alloc: Global,
    job: &Job,
    matcher: &Matcher,
    entry: &Entry,
    all: &[Firing],
    answer: &[Firing],
) -> Result<bool, RuleError> {
    let mut count: usize = 0;
    for firing in all {
        if is_woken(alloc, job, matcher, entry, firing)? {
            if answer.get(count) != Some(firing) {
                return Ok(false);
            }
            count = count.saturating_add(1);
        }
    }
    Ok(count == answer.len())
}

/// Whether the entry, which enters alone if it wakes many, wakes those firings. One that does not fit the
/// job enters as any other.
fn wakes(
    alloc: Global,
    job: &Job,
    matcher: &mut Matcher,
    entry: &Entry,
    wanted: &[Firing],
) -> Result<bool, AllocError> {
    if !is_fitting(job, entry) {
        let found = matcher.enter(job, entry)?;
        return Ok(found.as_slice() == wanted);
    }
    let mut woken = Vec::new(alloc);
    match matcher.enter_few(job, entry, &mut woken)? {
        Entered::Known => return Ok(false),
        Entered::Woken => {}
        Entered::Many => {
            matcher.enter_alone(entry)?;
            if !matcher.contains(entry) {
                return Ok(false);
            }
            woken = matcher.woken_by(job, entry)?;
        }
    }
    Ok(woken.as_slice() == wanted)
}

/// Whether each of the entries answers so, as they enter one after another, and wakes the same in a
/// matcher that makes no more than a few firings at once.
fn entries_agree(
    alloc: Global,
    job: &Job,
    matcher: &mut Matcher,
    entries: &[Entry],
    all: &[Firing],
) -> Result<bool, RuleError> {
    let mut other = Matcher::new(alloc);
    for entry in entries {
        let answer = matcher.enter(job, entry)?;
        if !is_right(alloc, job, matcher, entry, all, &answer)? {
            return Ok(false);
        }
        if !wakes(alloc, job, &mut other, entry, &answer)? {
            return Ok(false);
        }
    }
    Ok(true)
}

/// Whether it is so in a new matcher. Want of memory is a no, as in all checks below.
fn agree_anew(alloc: Global, job: &Job, entries: &[Entry], all: &[Firing]) -> bool {
    let mut matcher = Matcher::new(alloc);
    matches!(
        entries_agree(alloc, job, &mut matcher, entries, all),
        Ok(true)
    )
}

/// Whether it is so in the random order of that number.
fn order_agrees(
    alloc: Global,
    job: &Job,
    history: &History,
    all: &[Firing],
    seed: u64,
) -> Result<bool, AllocError> {
    let entries = shuffled(alloc, history.entries()?, seed)?;
    Ok(agree_anew(alloc, job, &entries, all))
}

/// Whether it is so in each of the random orders.
fn orders_agree(alloc: Global, job: &Job, history: &History, all: &[Firing]) -> bool {
    for seed in 0..ORDERS {
        if !matches!(order_agrees(alloc, job, history, all, seed), Ok(true)) {
            return false;
        }
    }
    true
}

/// The firings that are enabled over the history, in order.
fn enabled_over(alloc: Global, job: &Job, history: &History) -> Result<Vec<Firing>, AllocError> {
    let mut found = enabled(alloc, job, &history.entries()?)?;
    found.sort()?;
    Ok(found)
}

/// Whether it is so for the firings that are enabled over the history, of which there are some.
fn history_agrees(alloc: Global, job: &Job, history: &History) -> bool {
    match enabled_over(alloc, job, history) {
        Ok(all) => !all.is_empty() && orders_agree(alloc, job, history, &all),
        Err(_) => false,
    }
}

/// Adds the entries.
fn add(history: &mut History, entries: &[Entry]) -> Result<(), AllocError> {
    for entry in entries {
        history.insert(entry.copy()?)?;
    }
    Ok(())
}

/// Adds what the firings give.
fn fire(
    alloc: Global,
    job: &Job,
    history: &mut History,
    firings: &[Firing],
) -> Result<(), RuleError> {
    for firing in firings {
        let given = gives(alloc, job, firing)?;
        add(history, &given)?;
    }
    Ok(())
}

/// Fires all that is enabled. Answers whether an entry was new.
fn go_on(alloc: Global, job: &Job, history: &mut History) -> Result<bool, RuleError> {
    let before = history.len();
    let firings = enabled_over(alloc, job, history)?;
    fire(alloc, job, history, &firings)?;
    Ok(history.len() > before)
}

/// Adds all that can be derived from the job.
fn derive_all(alloc: Global, job: &Job, history: &mut History) -> Result<(), RuleError> {
    history.insert(start(job))?;
    for _round in 0..1000 {
        if !go_on(alloc, job, history)? {
            return Ok(());
        }
    }
    Err(RuleError::NoMemory)
}

/// Whether it is so for all that can be derived from the job.
fn job_agrees(alloc: Global, job: &Job) -> bool {
    let mut history = History::new(alloc);
    derive_all(alloc, job, &mut history).is_ok() && history_agrees(alloc, job, &history)
}

#[test]
fn each_entry_answers_what_it_wakes(rt: HostRuntime) -> Result<(), Fail> {
    for (program, argument) in EXAMPLES.iter().chain(&[(CROWD, 4)]) {
        let job = job(rt.alloc(), program, *argument)?;
        assert!(rt; job_agrees(rt.alloc(), &job));
    }
    Ok(())
}
