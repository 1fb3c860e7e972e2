//! Keys of contexts: what a context is in a table of contexts.
ghost use Rattle.std.specs.Prelude.{◌≡◌, ◌<◌, IfSome, IfNone};
ghost use Rattle.u_name.specs.Context.{Top, depth};
ghost use Rattle.u_names.specs.Contexts.{tree_around, key_within};

use std::marker::Model;
use u_name::{BlockName, Context, Node};

/// A context whose outer one has a number: whether a call made it or a loop, the outer context's
/// number, and the block, the number and the initiation of the loop or of the statement that called.
#[derive(PartialEq, Eq, PartialOrd, Ord, Hash, Drop)]
pub(crate) struct ContextKey {
    is_call: bool,
    outer: u32,
    block: BlockName,
    number: u16,
    initiation: u64,
}

impl Model for ContextKey {
    ghost use Rattle.u_names.specs.Contexts.{KeyParts, context_key, key_code};

    ghost Value = { KeyParts };

    ghost coded = { key_code };

    ghost view = { λ k. context_key k.is_call k.outer k.block k.number k.initiation };

    ghost inverse = { λ k. record { is_call = k.is_call; outer = k.outer; block = k.block; number = k.number; initiation = k.initiation } };
}

impl ContextKey {
    /// The outer context, and the key of the context as it were if that one's number were 0. The root
    /// has none.
    pub(crate) fn apart(context: &Context) -> Option<(&Context, ContextKey)>
        ensures parts { IfSome result (λ p. tree_around p.0.now p.1 ≡ context.now) }
        ensures shallower { IfSome result (λ p. depth p.0.now < depth context.now) }
        ensures root { IfNone result (context.now ≡ Top) }
    {
        match context.node() {
            Node::Root => None,
            Node::Loop {
                outer,
                block,
                number,
                initiation,
            } => Some((
                outer,
                ContextKey {
                    is_call: false,
                    outer: 0,
                    block: *block,
                    number: u16::from(number),
                    initiation,
                },
            )),
            Node::Call {
                outer,
                block,
                statement,
                initiation,
            } => Some((
                outer,
                ContextKey {
                    is_call: true,
                    outer: 0,
                    block: *block,
                    number: statement,
                    initiation,
                },
            )),
        }
    }

    /// The key of the same loop or call in the outer context with that number.
    pub(crate) fn within(self, outer_number: u32) -> ContextKey
        ensures { result ≡ key_within outer_number self }
    {
        ContextKey {
            is_call: self.is_call,
            outer: outer_number,
            block: self.block,
            number: self.number,
            initiation: self.initiation,
        }
    }
}
