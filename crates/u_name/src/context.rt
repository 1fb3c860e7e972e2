//! Contexts, as trees.
//!
//! A context is one pointer to what its copies share, behind a count of owners that threads may share.
//! Copies, and the linkage calls `plain`, `next`, `last`, `leave` and `back`, take no memory. `enter` and
//! `call` take memory that grows with the depth. A context keeps a digest, made of its outer context's
//! digest, so hashing walks over no loops and calls. The digest leaves out the blocks: the other parts tell
//! almost all names of one program apart.
ghost use Rattle.std.specs.Prelude.{◌≡◌, ◌≤◌, ◌<◌, ◌↔◌, IfOk, IsTrue, ◌++◌, [], ◌∷◌};
ghost use Rattle.u_name.specs.Context.{Top, InLoop, InCall, depth, IsContext, IsBetween};
ghost use Rattle.std.proofs.Common.{rules};
ghost use Rattle.std.specs.Cmp.{partial_order_from_own_ties};
ghost use Rattle.std.specs.Cmp.Rules.{comparing, hashing};
ghost use Rattle.std.specs.Ordering.{eq_by_cmp, as_partial_cmp};
ghost use Rattle.std.proofs.lemmas.Cmp.{eq_by_cmp_equiv};
ghost use Rattle.u_name.specs.LinkTree.{tree_by, inner_tree, node_tree, IsBeside};
ghost use Rattle.u_name.specs.Path.{path, block_in, kind_by, number_by};
ghost use Rattle.u_name.specs.Digest.{digest, next_digest, mark_by};
ghost use Rattle.u_name.specs.Greatest.{greatest_turn};
ghost use Rattle.u_name.specs.ContextOrder.{context_cmp};
ghost use Rattle.u_name.specs.ContextLaws.{context_cmp_total};
ghost use Rattle.u_name.specs.ContextHash.{context_hash, hashes_alike};

use crate::block_name::BlockName;
use crate::path::{CALL, LOOP, OF_ROOT, compare_words, path_around, push_words, words_many};
use std::alloc::{AllocError, Global};
use std::cmp::Ordering;
use std::hash::{Hash, Hasher};
use std::marker::Model;
use std::sync::Arc;

/// A context: the root, or what a loop or a call makes in an outer context, at most 64 deep. Copies
/// share all that they are made of. The root comes before loops, and loops before calls; the same kind
/// goes by outer context, block, loop or statement, and initiation.
#[cycle(context)]
#[derive(Drop)]
pub struct Context {
    link: Link,
}

/// The root, or a way to what a loop's or a call's context has.
#[cycle(context)]
#[derive(Drop)]
enum Link {
    Root,
    Inner(Arc<Inner, Global>),
}

/// A loop's or a call's context: what it is made of, and beside that how deep it is, what it is
/// compared by (the kinds of its loops and calls, the innermost first, and the words of these, the
/// outermost first, where one in the block of its outer one mostly has one word), what it is hashed by,
/// and the greatest initiation of its loops and calls.
#[cycle(context)]
#[derive(Drop)]
struct Inner {
    outer: Context,
    linkage: Linkage,
    block: BlockName,
    initiation: u64,
    depth: u8,
    digest: u64,
    greatest: u64,
    path: Vec<u64>,
}

/// What leads from an outer context into another: the loop with that number, or a call by the
/// statement with that number.
#[derive(Clone, Copy, Drop)]
pub(crate) enum Linkage {
    Loop(u8),
    Call(u16),
}

/// What a context is, with its parts.
#[derive(Clone, Copy)]
pub enum Node<'a> {
    /// The context in which a program begins.
    Root,
    /// The context of a loop that was entered.
    Loop {
        /// The context of the activity that entered it.
        outer: &'a Context,
        /// The block of that activity.
        block: &'a BlockName,
        /// The loop's number, 1 to 99.
        number: u8,
        /// The initiation of that activity, 1 to 18446744073709551615.
        initiation: u64,
    },
    /// The context of a call.
    Call {
        /// The context of the activity that called.
        outer: &'a Context,
        /// The block of that activity.
        block: &'a BlockName,
        /// The statement of that activity, 1 to 999.
        statement: u16,
        /// The initiation of that activity, 1 to 18446744073709551615.
        initiation: u64,
    },
}

impl Model for Context {
    ghost use Rattle.u_name.specs.Context.{Tree, depth, IsContext, tree_code};

    ghost Value = { Tree };

    ghost coded = { tree_code };

    ghost use Rattle.u_name.specs.LinkTree.{tree_of};

    ghost view = { λ a. tree_of a.link };

    ghost use Rattle.u_name.specs.LinkTree.{IsFollowed};

    ghost invariant = { λ a. IsContext (tree_of a.link) × IsFollowed a.link };

    ghost size = { depth };

    ghost use Rattle.u_name.specs.LinkDepth.{deep-le-depth};

    ghost size_decreases = { λ a h. deep-le-depth a.link };
}

impl Linkage {
    /// The kind of the context: 1 for a loop's, 2 for a call's.
    fn kind(self) -> u8
        ensures value { result ≡ kind_by self }
        ensures bound { result ≤ 2 }
    {
        match self {
            Linkage::Loop(_) => LOOP,
            Linkage::Call(_) => CALL,
        }
    }

    /// The number of the loop, or of the statement that called.
    fn number(self) -> u16
        ensures { result ≡ number_by self }
    {
        match self {
            Linkage::Loop(number) => u16::from(number),
            Linkage::Call(statement) => statement,
        }
    }

    /// What a context adds to the digest of the outer one.
    fn mark(self, initiation: u64) -> u64
        ensures { result ≡ mark_by self initiation }
    {
        let number = match self {
            Linkage::Loop(number) => u64::from(number),
            Linkage::Call(statement) => 32768 + u64::from(statement),
        };
        (number << 48).wrapping_add(initiation)
    }
}

/// The digest of a context that adds this to the digest of its outer one.
#[tactic(auto, unfolding(crate::specs::Digest::next_digest))]
fn next_digest(outer: u64, mark: u64) -> u64
    ensures { result ≡ next_digest outer mark }
{
    outer.wrapping_mul(0x9E37_79B9_7F4A_7C15).wrapping_add(mark)
}

impl Inner {
    /// What the context has that a loop or a call makes in the outer one, which is less than 64 deep.
    #[tactic(auto, unfolding(crate::specs::Digest::digest), using(crate::proofs::PathOrder::greatest_by))]
    fn new(
        alloc: Global,
        outer: Context,
        linkage: Linkage,
        block: BlockName,
        initiation: u64,
    ) -> Result<Inner, AllocError>
        requires shallow { depth outer < 64 }
        requires number_in { number_by linkage ≤ 999 }
        ensures { IfOk result
            (λ i. (inner_tree i ≡ tree_by linkage outer block initiation) × IsBeside i) }
    {
        let path = outer.path_with(alloc, linkage, &block, initiation)?;
        let depth = outer.depth() as u8 + 1;
        let digest = next_digest(outer.digest(), linkage.mark(initiation));
        let greatest = outer.greatest_initiation().max(initiation);
        Ok(Inner {
            outer,
            linkage,
            block,
            initiation,
            depth,
            digest,
            greatest,
            path,
        })
    }

    /// Kinds first, from the innermost outwards, and then the words from the outermost inwards.
    #[tactic(auto, using(crate::proofs::PathOrder::by_paths))]
    fn compare(&self, other: &Inner) -> Ordering
        requires own { IsBeside self.now }
        requires own_in { IsContext (inner_tree self.now) }
        requires others { IsBeside other.now }
        requires others_in { IsContext (inner_tree other.now) }
        ensures { result ≡ context_cmp (inner_tree self.now) (inner_tree other.now) }
    {
        compare_words(&self.path, &other.path)
    }

    /// Whether they are the same. Where the digests differ, nothing else is looked at.
    #[tactic(auto, using(crate::proofs::EqualContexts::other_digest))]
    fn is_same(&self, other: &Inner) -> bool
        requires own { IsBeside self.now }
        requires own_in { IsContext (inner_tree self.now) }
        requires others { IsBeside other.now }
        requires others_in { IsContext (inner_tree other.now) }
        ensures { result ≡ eq_by_cmp context_cmp (inner_tree self.now) (inner_tree other.now) }
    {
        if self.digest != other.digest {
            return false;
        }
        self.compare(other).is_eq()
    }
}

impl Context {
    /// The context in which a program begins.
    pub fn root() -> Context
        ensures { result ≡ Top }
    {
        Context { link: Link::Root }
    }

    /// What the context is, with its parts.
    pub fn node(&self) -> Node<'_>
        ensures tree { node_tree result ≡ self.now }
        ensures bound { IsContext self.now }
    {
        match &self.link {
            Link::Root => Node::Root,
            Link::Inner(inner) => match inner.linkage {
                Linkage::Loop(number) => Node::Loop {
                    outer: &inner.outer,
                    block: &inner.block,
                    number,
                    initiation: inner.initiation,
                },
                Linkage::Call(statement) => Node::Call {
                    outer: &inner.outer,
                    block: &inner.block,
                    statement,
                    initiation: inner.initiation,
                },
            },
        }
    }

    /// The context of a loop, in an outer context that is less than 64 deep.
    ///
    /// # Errors
    /// `AllocError` where there is no memory.
    pub fn in_loop(
        alloc: Global,
        outer: Context,
        block: BlockName,
        number: u8,
        initiation: u64,
    ) -> Result<Context, AllocError>
        requires shallow { depth outer < 64 }
        requires number_in { IsBetween 1 number 99 }
        requires initiation_in { IsBetween 1 initiation 18446744073709551615 }
        ensures { IfOk result (λ c. c ≡ InLoop outer block number initiation) }
    {
        // Brings in that the outer context's parts are in their ranges.
        let _ = &outer.link;
        // Brings in that the block's name is one: 1 to 16 letters, digits and `_`.
        let _ = block.as_bytes();
        let inner = Inner::new(alloc, outer, Linkage::Loop(number), block, initiation)?;
        let shared = Arc::new(alloc, inner)?;
        Ok(Context {
            link: Link::Inner(shared),
        })
    }

    /// The context of a call, in an outer context that is less than 64 deep.
    ///
    /// # Errors
    /// `AllocError` where there is no memory.
    pub fn in_call(
        alloc: Global,
        outer: Context,
        block: BlockName,
        statement: u16,
        initiation: u64,
    ) -> Result<Context, AllocError>
        requires shallow { depth outer < 64 }
        requires statement_in { IsBetween 1 statement 999 }
        requires initiation_in { IsBetween 1 initiation 18446744073709551615 }
        ensures { IfOk result (λ c. c ≡ InCall outer block statement initiation) }
    {
        // Brings in that the outer context's parts are in their ranges.
        let _ = &outer.link;
        // Brings in that the block's name is one: 1 to 16 letters, digits and `_`.
        let _ = block.as_bytes();
        let inner = Inner::new(alloc, outer, Linkage::Call(statement), block, initiation)?;
        let shared = Arc::new(alloc, inner)?;
        Ok(Context {
            link: Link::Inner(shared),
        })
    }

    /// What it is compared by.
    #[tactic(auto, using(crate::proofs::PathOrder::path_of_root))]
    fn path(&self) -> &[u64]
        ensures { result.now ≡ path self.now }
    {
        match &self.link {
            Link::Root => &OF_ROOT,
            Link::Inner(inner) => &inner.path,
        }
    }

    /// What a context in it is compared by, which a loop or a call of that block makes in it.
    #[tactic(auto, using(crate::proofs::PathOrder::path_by))]
    fn path_with(
        &self,
        alloc: Global,
        linkage: Linkage,
        block: &BlockName,
        initiation: u64,
    ) -> Result<Vec<u64>, AllocError>
        requires shallow { depth self.now < 64 }
        requires number_in { number_by linkage ≤ 999 }
        ensures { IfOk result
            (λ v. v.items ≡ path (tree_by linkage self.now block.now initiation)) }
    {
        let inside = self.block_in(block);
        let words = words_many(inside, block, initiation);
        let mut all = path_around(alloc, linkage.kind(), self.path(), words)?;
        push_words(&mut all, inside, block, linkage.number(), initiation)?;
        Ok(all)
    }

    /// How the block goes with that of the innermost loop or call, and nothing for the root.
    fn block_in(&self, block: &BlockName) -> Option<Ordering>
        ensures { result ≡ block_in self.now block.now }
    {
        match &self.link {
            Link::Root => None,
            Link::Inner(inner) => Some(block.cmp(&inner.block)),
        }
    }

    /// What the context is hashed by.
    #[tactic(auto, unfolding(crate::specs::Digest::digest))]
    fn digest(&self) -> u64
        ensures { result ≡ digest self.now }
    {
        match &self.link {
            Link::Root => 0,
            Link::Inner(inner) => inner.digest,
        }
    }

    /// The greatest initiation of its loops and calls, 1 to 18446744073709551615, and 0 for the root.
    pub fn greatest_initiation(&self) -> u64
        ensures { result ≡ greatest_turn self.now }
    {
        match &self.link {
            Link::Root => 0,
            Link::Inner(inner) => inner.greatest,
        }
    }

    /// How many loops and calls it is in, 0 to 64.
    pub fn depth(&self) -> u32
        ensures value { result ≡ depth self.now }
        ensures bound { IsContext self.now }
    {
        match &self.link {
            Link::Root => 0,
            Link::Inner(inner) => u32::from(inner.depth),
        }
    }

    /// An equal context, which shares all with this one.
    pub fn copy(&self) -> Result<Context, AllocError>
        ensures { IfOk result (λ c. c ≡ self.now) }
    {
        let link = match &self.link {
            Link::Root => Link::Root,
            Link::Inner(inner) => Link::Inner(Arc::try_clone(inner)?),
        };
        Ok(Context { link })
    }

    /// Kinds first, and for the same kind the outer contexts. The parts are compared only where those
    /// are equal.
    fn compare(&self, other: &Context) -> Ordering
        ensures { result ≡ context_cmp self.now other.now }
    {
        match (&self.link, &other.link) {
            (Link::Root, Link::Root) => Ordering::Equal,
            (Link::Root, Link::Inner(_)) => Ordering::Less,
            (Link::Inner(_), Link::Root) => Ordering::Greater,
            (Link::Inner(inner), Link::Inner(others)) => inner.compare(others),
        }
    }

    /// Whether they are the same.
    fn is_same(&self, other: &Context) -> bool
        ensures { result ≡ eq_by_cmp context_cmp self.now other.now }
    {
        match (&self.link, &other.link) {
            (Link::Root, Link::Root) => true,
            (Link::Inner(inner), Link::Inner(others)) => inner.is_same(others),
            _ => false,
        }
    }
}

impl PartialEq for Context {
    ghost eq = { eq_by_cmp context_cmp };

    ghost laws = { Prim.search (comparing, rules, context_cmp_total, eq_by_cmp_equiv) };

    fn eq(&self, other: &Context) -> bool {
        self.is_same(other)
    }
}

impl Eq for Context {
    ghost laws = { eq_by_cmp_equiv context_cmp_total };
}

impl Ord for Context {
    ghost cmp = { context_cmp };

    ghost total = { context_cmp_total };

    ghost matches_partial_cmp = { Prim.search (comparing, rules) };

    ghost matches_eq = { Prim.search (comparing, rules) };

    fn cmp(&self, other: &Context) -> Ordering {
        self.compare(other)
    }
}

impl PartialOrd for Context {
    ghost partial_cmp = { as_partial_cmp context_cmp };

    ghost laws = { partial_order_from_own_ties (Prim.search (comparing, rules, context_cmp_total)) (Prim.search (comparing, rules)) };

    fn partial_cmp(&self, other: &Context) -> Option<Ordering> {
        Some(self.compare(other))
    }
}

impl Hash for Context {
    ghost hash_input = { context_hash };

    ghost respects_eq = { hashes_alike };

    /// The digest, which is made of the initiation and the loop's or statement's number of each loop and
    /// call. The blocks are left out: in the contexts of one program the other parts tell almost all of
    /// them apart.
    fn hash<H: Hasher>(&self, state: &mut H) {
        state.write_u64(self.digest());
    }
}
