//! Lists that stand the other way round, last item first.
ghost use Rattle.std.specs.Prelude.{◌≡◌, ◌<◌, [], ◌∷◌, IfSome, IfNone, reverse, slice_get, vec_len, vec_capacity};
ghost use Rattle.std.specs.Option.{option_copied};

/// The first item of a list that stands the other way round, last item first.
#[tactic(auto, using(crate::proofs::Turned::last_is))]
pub fn first_of<T>(turned: &Vec<T>) -> Option<&T>
    ensures { option_copied result ≡ slice_get (reverse turned.now.items) 0 }
{
    turned.last()
}

/// Takes the first item out of a list that stands the other way round, last item first.
#[tactic(auto, using(crate::proofs::Turned::popped))]
pub fn take_first<T: Drop>(turned: &mut Vec<T>) -> Option<T>
    ensures some { IfSome result (λ x. reverse turned.old.items ≡ x ∷ reverse turned.new.items) }
    ensures room { IfSome result (λ _. vec_len turned.new < vec_capacity turned.new) }
    ensures none { IfNone result (turned.old.items ≡ []) }
{
    turned.pop()
}

/// Turns the list round.
#[tactic(auto, using(crate::proofs::Turned::alone, crate::proofs::Turned::twice))]
pub fn turn_round<T: Drop>(list: &mut Vec<T>)
    ensures { reverse list.new.items ≡ list.old.items }
{
    if list.len() < 2 {
        return;
    }
    list.reverse();
}
