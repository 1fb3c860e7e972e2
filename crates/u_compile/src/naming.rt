//! The values of names and constants in scopes.
//!
//! A scope is a procedure, a side of an `if`, or a turn of a loop. A name from outside is brought in level
//! by level at its first use: into a side by a gate that both sides share, into a turn by an `enter` and a
//! `next`. `gate` and `carry` are these two ways, and `bring` takes the one that the scope has, so the
//! three have one contract.
ghost use Rattle.std.specs.Prelude.{◌≡◌, IfNone, IfOk, IfSome, MatchResult, OnOk};
ghost use Rattle.u_compile.specs.declared.graph.Full.TheVariants as fulls;
ghost use Rattle.u_compile.specs.Scoped.{IsOf};
ghost use Rattle.u_compile.specs.Drawings.{Carries, Grows};
ghost use Rattle.u_compile.specs.Namings.{AddsNamed, Brings, HasConstant, HasNoAlias, IsNamed, IsRightAround, IsWithin, Learns, a_binding, a_constant, an_alias, known, nothing_known, with_alias, with_binding};

use crate::drawing::{Drawing, Way};
use crate::graph::Full;
use crate::notes::Notes;
use std::alloc::Global;
use u_name::BlockName;
use u_program::{Constant, Kind};
use u_source::Position;

/// The value of a name in a scope.
#[derive(Clone, Copy)]
struct Binding {
    /// The number of the scope.
    pub scope: usize,
    /// The node from which the name is known.
    pub name: usize,
    /// The number of the value.
    pub value: usize,
}

/// A constant in a scope.
#[derive(Clone, Copy)]
struct ConstantBinding {
    /// The number of the scope.
    pub scope: usize,
    /// The constant.
    pub constant: Constant,
    /// The number of the value.
    pub value: usize,
}

/// A name that is a constant.
#[derive(Clone, Copy)]
struct Alias {
    /// The node from which the name is known.
    pub name: usize,
    /// The constant.
    pub constant: Constant,
}

/// How a name is spelled.
#[derive(Clone, Copy)]
struct Spelling {
    /// The node from which the name is known.
    pub name: usize,
    /// The name.
    pub text: BlockName,
}

/// What the names of a procedure are in its scopes, and where its statements come from.
#[derive(Drop)]
pub(crate) struct ScopedNames {
    bindings: Vec<Binding>,
    aliases: Vec<Alias>,
    constants: Vec<ConstantBinding>,
    spellings: Vec<Spelling>,
    notes: Notes,
    place: Position,
}

/// The constant that a name is.
fn constant_of(aliases: &[Alias], name: usize) -> Option<Constant>
    ensures some { IfSome result (λ k. IsOf aliases.now (an_alias name k)) }
    ensures none { IfNone result (HasNoAlias aliases.now name) }
{
    let mut rest = aliases;
    while let Some((alias, others)) = rest.split_first() {
        if alias.name == name {
            return Some(alias.constant);
        }
        rest = others;
    }
    None
}

/// The value that a name has in a scope itself.
fn bound(bindings: &[Binding], scope: usize, name: usize) -> Option<usize>
    ensures { IfSome result (λ v. IsOf bindings.now (a_binding scope name v)) }
{
    let mut rest = bindings;
    while let Some((binding, others)) = rest.split_first() {
        if binding.scope == scope && binding.name == name {
            return Some(binding.value);
        }
        rest = others;
    }
    None
}

/// The value that a constant has in a scope.
fn given(constants: &[ConstantBinding], scope: usize, constant: &Constant) -> Option<usize>
    ensures { IfSome result (λ v. IsOf constants.now (a_constant scope constant.now v)) }
{
    let mut rest = constants;
    while let Some((given, others)) = rest.split_first() {
        if given.scope == scope && given.constant == *constant {
            return Some(given.value);
        }
        rest = others;
    }
    None
}

/// How a name is spelled.
fn spelled(spellings: &[Spelling], name: usize) -> Option<BlockName> {
    for spelling in spellings {
        if spelling.name == name {
            return Some(spelling.text);
        }
    }
    None
}

/// The innermost scope around a scope, or it itself, that has a value of the name, and the value.
fn home(
    bindings: &[Binding],
    drawing: &Drawing,
    scope: usize,
    name: usize,
) -> Result<(usize, usize), Full>
    ensures bound { IfOk result (λ r. IsOf bindings.now (a_binding r.0 name r.1)) }
    ensures within { IfOk result (λ r. IsWithin drawing.now.scopes r.0 scope) }
{
    let mut at = scope;
    'outwards: for _ in 0..=scope {
        if let Some(value) = bound(bindings, at, name) {
            return Ok((at, value));
        }
        at = drawing.scope(at)?.around;
    }
    Err(Full::Misplaced)
}

/// Of the scopes in `outer` the one that `scope` is, or that is around it.
fn towards(drawing: &Drawing, outer: usize, scope: usize) -> Result<usize, Full>
    ensures { IfOk result (λ s. IsRightAround drawing.now.scopes outer s) }
{
    let mut at = scope;
    for _ in 0..=scope {
        let around = drawing.scope(at)?.around;
        if around == outer {
            return Ok(at);
        }
        at = around;
    }
    Err(Full::Misplaced)
}

impl ScopedNames {
    /// Those of a procedure without scopes.
    pub fn new(alloc: Global) -> ScopedNames
        ensures { known result ≡ nothing_known }
    {
        ScopedNames {
            bindings: Vec::new(alloc),
            aliases: Vec::new(alloc),
            constants: Vec::new(alloc),
            spellings: Vec::new(alloc),
            notes: Notes::new(alloc),
            place: Position::start(),
        }
    }

    /// What was noted of its statements.
    pub fn into_notes(self) -> Notes {
        let ScopedNames { notes, .. } = self;
        notes
    }

    /// The place from which statements come from now on.
    pub fn place(&self) -> Position {
        self.place
    }

    /// Lets statements come from this place from now on.
    pub fn set_place(&mut self, place: Position)
        ensures { known self.new ≡ known self.old }
    {
        self.place = place;
    }

    /// Lets the statements that were added come from the place.
    pub fn note(&mut self, drawing: &Drawing) -> Result<(), Full>
        ensures { known self.new ≡ known self.old }
    {
        self.notes.note(drawing.len(), self.place)?;
        Ok(())
    }

    /// Lets the statements that were added come from the place, under the name that is known from that node.
    pub fn note_as(&mut self, drawing: &Drawing, name: usize) -> Result<(), Full>
        ensures { known self.new ≡ known self.old }
    {
        let first = self.notes.len();
        self.note(drawing)?;
        let Some(text) = spelled(&self.spellings, name) else {
            return Ok(());
        };
        self.notes.name_from(first, &text)?;
        Ok(())
    }

    /// Lets the statement that was added last, which reads a cell, come from the place, under the name of the structure:
    /// if that is no name, it gets none.
    pub fn note_read(&mut self, drawing: &Drawing, structure: Option<BlockName>) -> Result<(), Full>
        ensures { known self.new ≡ known self.old }
    {
        self.note(drawing)?;
        self.notes.settle(drawing.len(), structure)?;
        Ok(())
    }

    /// Gives the statement that gives a value a name, if its name is not settled.
    fn name_value(&mut self, drawing: &Drawing, value: usize, text: &BlockName) -> Result<(), Full>
        ensures { known self.new ≡ known self.old }
    {
        if let Some(output) = drawing.only_output(value)? {
            self.notes.settle(output.statement as usize, Some(*text))?;
        }
        Ok(())
    }

    /// Gives a name its value in a scope.
    fn bind(&mut self, scope: usize, name: usize, value: usize) -> Result<(), Full>
        ensures { MatchResult result (λ _. known self.new
            ≡ with_binding (known self.old) (a_binding scope name value))
            (λ e. e ≡ fulls.NoMemory) }
    {
        self.bindings.push(Binding { scope, name, value })?;
        Ok(())
    }

    /// Says how a name is spelled.
    pub fn spell(&mut self, name: usize, text: &BlockName) -> Result<(), Full>
        ensures { known self.new ≡ known self.old }
    {
        self.spellings.push(Spelling { name, text: *text })?;
        Ok(())
    }

    /// Gives a name its value in a scope.
    pub fn define(
        &mut self,
        drawing: &Drawing,
        scope: usize,
        name: usize,
        value: usize,
    ) -> Result<(), Full>
        ensures { OnOk result (known self.new
            ≡ with_binding (known self.old) (a_binding scope name value)) }
    {
        if let Some(text) = spelled(&self.spellings, name) {
            self.name_value(drawing, value, &text)?;
        }
        self.bind(scope, name, value)
    }

    /// Lets a name be a constant.
    pub fn alias(&mut self, name: usize, constant: &Constant) -> Result<(), Full>
        ensures { MatchResult result (λ _. known self.new
            ≡ with_alias (known self.old) (an_alias name constant.now))
            (λ e. e ≡ fulls.NoMemory) }
    {
        self.aliases.push(Alias {
            name,
            constant: *constant,
        })?;
        Ok(())
    }

    /// The constant that a name is.
    pub fn constant_of(&self, name: usize) -> Option<Constant>
        ensures some { IfSome result (λ k. IsOf self.now.aliases.items (an_alias name k)) }
        ensures none { IfNone result (HasNoAlias self.now.aliases.items name) }
    {
        constant_of(&self.aliases, name)
    }

    /// Lets a loop carry a value under a name, which is that of its variables, or of the names around it.
    pub fn carry(
        &mut self,
        drawing: &mut Drawing,
        turn: usize,
        name: usize,
        value: usize,
    ) -> Result<usize, Full>
        ensures brings { IfOk result (λ inner. Brings drawing.old drawing.new turn value inner) }
        ensures bound { IfOk result (λ inner. known self.new
            ≡ with_binding (known self.old) (a_binding turn name inner)) }
        ensures carries { IfOk result
            (λ inner. Carries turn name value drawing.old drawing.new inner) }
    {
        let Way::Turn(number) = drawing.scope(turn)?.way else {
            return Err(Full::Misplaced);
        };
        let inner = drawing.carry(turn, number, name, value)?;
        self.note_as(drawing, name)?;
        self.bind(turn, name, inner)?;
        Ok(inner)
    }

    /// Brings the value of a name into a side from the scope around it.
    fn gate(
        &mut self,
        drawing: &mut Drawing,
        side: usize,
        name: usize,
        value: usize,
    ) -> Result<usize, Full>
        ensures brings { IfOk result (λ inner. Brings drawing.old drawing.new side value inner) }
        ensures bound { IfOk result (λ inner. known self.new
            ≡ with_binding (known self.old) (a_binding side name inner)) }
    {
        let Way::Side(control, on) = drawing.scope(side)?.way else {
            return Err(Full::Misplaced);
        };
        let inner = drawing.gated(side, control, on, value)?;
        self.note_as(drawing, name)?;
        self.bind(side, name, inner)?;
        Ok(inner)
    }

    /// Brings the value of a name into a scope from the one around it.
    fn bring(
        &mut self,
        drawing: &mut Drawing,
        scope: usize,
        name: usize,
        value: usize,
    ) -> Result<usize, Full>
        ensures brings { IfOk result (λ inner. Brings drawing.old drawing.new scope value inner) }
        ensures bound { IfOk result (λ inner. known self.new
            ≡ with_binding (known self.old) (a_binding scope name inner)) }
    {
        match drawing.scope(scope)?.way {
            Way::Procedure => Err(Full::Misplaced),
            Way::Side(_, _) => self.gate(drawing, scope, name, value),
            Way::Turn(_) => self.carry(drawing, scope, name, value),
        }
    }

    /// The value of a name in a scope.
    ///
    /// Promise values-of-names: it is one that was bound to the name here or in a scope around, brought in by
    /// one gate or `enter` for each scope between.
    pub fn value_of(
        &mut self,
        drawing: &mut Drawing,
        scope: usize,
        name: usize,
    ) -> Result<usize, Full>
        ensures grows { OnOk result (Grows drawing.old drawing.new) }
        ensures named { IfOk result
            (λ v. IsNamed drawing.new self.old.bindings.items scope name v) }
        ensures adds { OnOk result
            (AddsNamed drawing.new (known self.old) (known self.new) name) }
    {
        let (mut at, mut value) = home(&self.bindings, drawing, scope, name)?;
        'inwards: for _ in 0..=scope {
            if at == scope {
                return Ok(value);
            }
            at = towards(drawing, at, scope)?;
            value = self.bring(drawing, at, name, value)?;
        }
        Err(Full::Misplaced)
    }

    /// Adds a constant in a scope, and returns its value. It comes where the scope's clock comes.
    fn add_constant(
        &mut self,
        drawing: &mut Drawing,
        scope: usize,
        constant: &Constant,
    ) -> Result<usize, Full>
        ensures grows { OnOk result (Grows drawing.old drawing.new) }
        ensures constant { IfOk result
            (λ v. HasConstant drawing.new (known self.old) scope constant.now v) }
        ensures learns { OnOk result (Learns drawing.new (known self.old) (known self.new)) }
    {
        let clock = drawing.scope(scope)?.clock;
        let trigger = self.value_of(drawing, scope, clock)?;
        let value = drawing.add_unary(scope, &Kind::Const(*constant), trigger)?;
        self.note(drawing)?;
        self.constants.push(ConstantBinding {
            scope,
            constant: *constant,
            value,
        })?;
        Ok(value)
    }

    /// The value of a constant in a scope.
    pub fn value_of_constant(
        &mut self,
        drawing: &mut Drawing,
        scope: usize,
        constant: &Constant,
    ) -> Result<usize, Full>
        ensures grows { OnOk result (Grows drawing.old drawing.new) }
        ensures constant { IfOk result
            (λ v. HasConstant drawing.new (known self.old) scope constant.now v) }
        ensures learns { OnOk result (Learns drawing.new (known self.old) (known self.new)) }
    {
        match given(&self.constants, scope, constant) {
            Some(value) => Ok(value),
            None => self.add_constant(drawing, scope, constant),
        }
    }
}
