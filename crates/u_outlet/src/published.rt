//! Lists of sound firings of one job.
ghost use Rattle.std.specs.Prelude.{◌≡◌, [], ◌++◌, All, IfOk, MatchResult, drop, length};
ghost use Rattle.u_outlet.specs.Sound.{IsSound};

use crate::named::Named;
use left_right::Absorb;
use std::alloc::{AllocError, Global};
use std::marker::{Model, PhantomData};
use u_rule::Firing;

/// Sound firings of a job, in the order in which they were published. Contracts see a list.
///
/// Promise published-is-sound: each firing that is published is one that some run of the job makes.
#[derive(Drop)]
pub struct Published<J: Named> {
    firings: Vec<Firing>,
    alloc: Global,
    job: PhantomData<J>,
}

impl<J: Named> Model for Published<J> {
    ghost use Rattle.std.specs.Prelude.{List, All};
    ghost use Rattle.u_rule.specs.declared.firing.Firing.{Firing};
    ghost use Rattle.u_rule.specs.EntryOrder.{firing_list_code};
    ghost use Rattle.u_outlet.specs.Sound.{IsSound};

    ghost Value = { List Firing };

    ghost coded = { firing_list_code };

    ghost view = { λ p. p.firings.items };

    ghost invariant = { λ p. All (IsSound J.job) p.firings.items };
}

/// Copies of the firings, in their order.
fn copies(alloc: Global, firings: &[Firing]) -> Result<Vec<Firing>, AllocError>
    ensures { IfOk result (λ v. v.items ≡ firings.now) }
{
    let mut made = Vec::with_capacity(alloc, firings.len())?;
    for firing in firings {
        made.push(firing.copy(alloc)?)?;
    }
    Ok(made)
}

impl<J: Named> Published<J> {
    /// The empty list.
    pub(crate) fn new(alloc: Global) -> Published<J>
        ensures { result ≡ [] }
    {
        Published {
            firings: Vec::new(alloc),
            alloc,
            job: PhantomData,
        }
    }

    /// Copies of sound firings.
    pub(crate) fn of(alloc: Global, firings: &[Firing]) -> Result<Published<J>, AllocError>
        requires { All (IsSound J.job) firings.now }
        ensures { IfOk result (λ p. p ≡ firings.now) }
    {
        let firings = copies(alloc, firings)?;
        Ok(Published {
            firings,
            alloc,
            job: PhantomData,
        })
    }

    /// Copies of the firings from a place on, counted from 0. There are none where the list ends before.
    pub(crate) fn copy_from(&self, alloc: Global, place: usize) -> Result<Vec<Firing>, AllocError>
        ensures firings { IfOk result (λ v. v.items ≡ drop place self.now) }
        ensures sound { IfOk result (λ v. All (IsSound J.job) v.items) }
    {
        let start = place.min(self.firings.len());
        copies(alloc, &self.firings[start..])
    }

    /// The firings.
    pub fn as_slice(&self) -> &[Firing]
        ensures firings { result.now ≡ self.now }
        ensures sound { All (IsSound J.job) result.now }
    {
        &self.firings
    }

    /// The firings.
    pub fn into_vec(self) -> Vec<Firing>
        ensures { result.items ≡ self }
    {
        let Published {
            firings,
            alloc: _,
            job: _,
        } = self;
        firings
    }

    /// How many firings there are.
    pub fn len(&self) -> usize
        ensures { result ≡ length self.now }
    {
        self.firings.len()
    }

    /// Appends copies of the firings of another list, all or none.
    fn append_copies(&mut self, other: &Published<J>) -> Result<(), AllocError>
        ensures { MatchResult result
            (λ _. self.new ≡ self.old ++ other.now)
            (λ _. self.new ≡ self.old) }
    {
        let more = &other.firings;
        let mut made = copies(self.alloc, more.as_slice())?;
        self.firings.append(&mut made)?;
        Ok(())
    }

    /// Moves the firings of another list behind these, or returns the list.
    fn append_all(&mut self, other: Published<J>) -> Result<(), Published<J>>
        ensures { MatchResult result
            (λ _. self.new ≡ self.old ++ other)
            (λ back. (back ≡ other) × (self.new ≡ self.old)) }
    {
        let Published {
            mut firings,
            alloc,
            job,
        } = other;
        match self.firings.append(&mut firings) {
            Ok(_) => Ok(()),
            Err(_) => Err(Published {
                firings,
                alloc,
                job,
            }),
        }
    }
}

impl<J: Named> Absorb<Published<J>> for Published<J> {
    // What each seat knows is a list of firings too, which an array of firings has in contracts.
    type State = [Firing; 0];

    ghost state = { λ p. p };

    ghost applied = { λ front batch. front ++ batch };

    fn absorb_first(
        &mut self,
        operation: &Published<J>,
        _other: &Published<J>,
    ) -> Result<(), AllocError> {
        self.append_copies(operation)
    }

    // The batch moves into the second copy, so that each published firing is copied twice and not
    // three times.
    fn absorb_second(
        &mut self,
        operation: Published<J>,
        _other: &Published<J>,
    ) -> Result<(), Published<J>> {
        self.append_all(operation)
    }
}
