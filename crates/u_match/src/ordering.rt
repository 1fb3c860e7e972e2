//! How firings that were gathered in no order are put in order.
ghost use Rattle.std.specs.Prelude.{Contains};
ghost use Rattle.u_rule.specs.EntryOrder.{firing_cmp};
ghost use Rattle.u_sets.specs.Rising.{Rises};
ghost use Rattle.u_base.specs.Firing.{Same};

use u_rule::Firing;

/// Puts the firings in order, each once.
#[inline(never)]
fn sort_each_once(firings: &mut Vec<Firing>)
    ensures rises { Rises firing_cmp firings.new.items }
    ensures same { Same (Contains firings.new.items) (Contains firings.old.items) }
{
    firings.sort_unstable();
    firings.dedup();
}

/// Puts the firings in order, each once. One firing alone is left as it is.
pub(crate) fn put_in_order(firings: &mut Vec<Firing>)
    ensures rises { Rises firing_cmp firings.new.items }
    ensures same { Same (Contains firings.new.items) (Contains firings.old.items) }
{
    if firings.len() < 2 {
        return;
    }
    sort_each_once(firings);
}
