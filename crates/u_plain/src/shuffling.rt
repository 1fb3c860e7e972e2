//! Random orders, each fixed by a seed.
use rand_core::utils::NextWord;
use rand_pcg::Pcg32;
use std::alloc::{AllocError, Global};

/// The items in the random order of that seed: each place gets one of those that are left, all as
/// likely (Fisher and Yates).
pub fn shuffled<T: Drop>(alloc: Global, items: Vec<T>, seed: u64) -> Result<Vec<T>, AllocError> {
    let mut random = Pcg32::new(seed, 54);
    let mut rest = items;
    let mut all = Vec::new(alloc);
    for _place in 0..rest.len() {
        let word = random.next_word() as usize;
        if let Some(place) = word.checked_rem(rest.len()) {
            all.push(rest.remove(place))?;
        }
    }
    Ok(all)
}
