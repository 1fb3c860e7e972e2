//! The lowering: one pass over the nodes of a source.
//!
//! Each node stands after its children, so one pass with a stack of operands and one of what has begun is
//! enough. ScopedNames and constants wait there as they are, so one that nobody uses costs nothing. What can't be
//! in a tree of the parser ends in one error, `Broken`.
ghost use Rattle.std.specs.Prelude.{◌≡◌, [], IfOk, MatchResult, OnOk};
ghost use Rattle.u_program.specs.Limits.{IsBlockOf, limits_of};
ghost use Rattle.u_program.specs.declared.program.Version.TheVariants as versions;
ghost use Rattle.u_determinate.specs.Determinate.{IsDeterminateBlock};
ghost use Rattle.u_compile.specs.Kept.{KeepsItself};
ghost use Rattle.u_compile.specs.Namings.{HasConstant, IsNamed, known};
ghost use Rattle.u_compile.specs.Operands.{GoesOn, lowering};
ghost use Rattle.u_compile.specs.Definitions.{TakesParameter};
ghost use Rattle.u_compile.specs.Steps.{IsWhole};
ghost use Rattle.u_compile.specs.Walks.{IsDone, beginning, is_item};
ghost use Rattle.u_compile.specs.Bodies.{Closes, ClosesBlock, Ends, EndsProcedure, Finishes, Opens, OpensBlock, with_nothing_begun, with_procedure};
ghost use Rattle.u_compile.specs.Sides.{IsFramePopped, IsLastFrame, OpensSide};

use crate::blocks::Blocks;
use crate::drawing::{Drawing, Scope, Way};
use crate::graph::{Full, Output};
use crate::naming::ScopedNames;
use crate::notes::Notes;
use crate::tree::Tree;
use std::alloc::Global;
use u_name::BlockName;
use u_program::{Block, Constant};
use u_source::{Form, Position};

/// What waits for its use.
#[derive(Clone, Copy)]
pub(crate) enum Operand {
    /// A name or a constant, by its node.
    Atom(usize),
    /// A value, by its number.
    Value(usize),
    /// The beginning of arguments.
    Arguments,
}

/// An `if` whose sides have scopes of their own.
#[derive(Clone, Copy)]
pub(crate) struct Sides {
    /// The node with which it ends.
    pub whole: usize,
    /// The control.
    pub control: Output,
    /// The number of the scope around it.
    pub around: usize,
    /// Which side was entered last: that where the control is true, or the other.
    pub on: bool,
    /// The number of the scope of that side.
    pub side: usize,
    /// The value of the first side, if it is wanted and known.
    pub first: Option<usize>,
    /// The value of the other side, if it is wanted and known.
    pub other: Option<usize>,
}

/// A loop.
#[derive(Clone, Copy)]
pub(crate) struct Turns {
    /// The number of the scope around it.
    pub around: usize,
    /// The number of the scope of its turns.
    pub turn: usize,
}

/// What has begun and not ended.
#[derive(Clone, Copy)]
pub(crate) enum Frame {
    /// An `if` that chooses one of two values, with its control, and the node with which it ends.
    Choice(usize, usize),
    /// Another `if`.
    Sides(Sides),
    /// A loop whose variables begin: how many others waited before, and the limit of a `for`.
    Begun(usize, Option<usize>),
    /// A loop whose test is looked at.
    Test(Turns),
    /// A loop whose block is looked at, with its control, and the number of the scope of its block.
    Block(Turns, Output, usize),
}

/// A loop variable that begins with a value.
#[derive(Clone, Copy)]
pub(crate) struct Start {
    /// The node from which its name is known.
    pub name: usize,
    /// The number of the value.
    pub value: usize,
    /// The place of the name.
    pub place: Position,
}

/// A source that is gone through.
#[derive(Drop)]
pub(crate) struct Lowering<'a> {
    /// The source.
    pub tree: &'a Tree<'a>,
    /// The names of the procedure.
    pub names: ScopedNames,
    /// The procedure.
    pub drawing: Drawing,
    /// What waits for its use.
    pub operands: Vec<Operand>,
    /// What has begun and not ended.
    pub frames: Vec<Frame>,
    /// The variables of loops that begin.
    pub starts: Vec<Start>,
    /// The number of the scope.
    pub scope: usize,
    /// The blocks of the procedures before.
    pub blocks: Blocks,
    /// What was noted of their statements.
    pub notes: Vec<Notes>,
    /// Where memory comes from.
    pub alloc: Global,
}

/// Whether a node of that form is an atom, a cell, a call or an item.
fn is_item(form: Form) -> bool
    ensures { result ≡ is_item form }
{
    matches!(
        form,
        Form::Name
            | Form::Number
            | Form::Negative
            | Form::True
            | Form::False
            | Form::NoArguments
            | Form::Index
            | Form::Call
            | Form::Write
            | Form::Statement
            | Form::Define
            | Form::Next
    )
}

/// A procedure's block, and what was noted of its statements.
fn finished(
    drawing: Drawing,
    names: ScopedNames,
    value: usize,
    name: BlockName,
) -> Result<(Block, Notes), Full>
    ensures block { IfOk result (λ r. IsBlockOf (limits_of versions.Two) r.0) }
    ensures determinate { IfOk result (λ r. IsDeterminateBlock r.0) }
    ensures kept { IfOk result (λ r. KeepsItself r.0) }
    ensures ends { IfOk result (λ r. Ends drawing value name r.0) }
{
    let mut drawing = drawing;
    let mut names = names;
    drawing.end(value)?;
    names.note(&drawing)?;
    let block = drawing.finish(name)?;
    Ok((block, names.into_notes()))
}

impl<'a> Lowering<'a> {
    /// The beginning of a source.
    pub fn new(alloc: Global, tree: &'a Tree<'a>) -> Result<Lowering<'a>, Full>
        ensures { IfOk result (λ l. lowering l ≡ beginning tree.now) }
    {
        Ok(Lowering {
            tree,
            names: ScopedNames::new(alloc),
            drawing: Drawing::new(alloc, 0)?,
            operands: Vec::new(alloc),
            frames: Vec::new(alloc),
            starts: Vec::new(alloc),
            scope: 0,
            blocks: Blocks::new(alloc),
            notes: Vec::new(alloc),
            alloc,
        })
    }
}

impl Lowering<'_> {
    /// What has begun last and not ended.
    pub fn pop_frame(&mut self) -> Result<Frame, Full>
        ensures { MatchResult result (IsFramePopped (lowering self.old) (lowering self.new))
            (λ _. self.old.frames.items ≡ []) }
    {
        match self.frames.pop() {
            Some(frame) => Ok(frame),
            None => Err(Full::Misplaced),
        }
    }

    /// What has begun last and not ended, which goes on.
    pub fn last_frame(&self) -> Result<Frame, Full>
        ensures { MatchResult result (IsLastFrame (lowering self.now))
            (λ _. self.now.frames.items ≡ []) }
    {
        match self.frames.last() {
            Some(frame) => Ok(*frame),
            None => Err(Full::Misplaced),
        }
    }

    /// Adds a side of a control in a scope, and returns its number. Its clock is the one around it.
    pub fn add_side(&mut self, around: usize, control: Output, on: bool) -> Result<usize, Full>
        ensures { IfOk result (OpensSide (lowering self.old) (lowering self.new)
            around control on) }
    {
        let outer = self.drawing.scope(around)?;
        let side = self.drawing.add_scope(Scope {
            region: outer.region,
            around,
            way: Way::Side(control, on),
            clock: outer.clock,
        })?;
        Ok(side)
    }

    /// The value of a name in a scope.
    pub fn value_of(&mut self, scope: usize, name: usize) -> Result<usize, Full>
        ensures named { IfOk result (λ v. IsNamed self.new.drawing
            self.old.names.bindings.items scope name v) }
        ensures goes_on { OnOk result (GoesOn (lowering self.old) (lowering self.new)) }
    {
        let value = self.names.value_of(&mut self.drawing, scope, name)?;
        Ok(value)
    }

    /// The value of a constant in the scope.
    pub fn value_of_constant(&mut self, constant: &Constant) -> Result<usize, Full>
        ensures constant { IfOk result (λ v. HasConstant self.new.drawing
            (known self.old.names) self.old.scope constant.now v) }
        ensures goes_on { OnOk result (GoesOn (lowering self.old) (lowering self.new)) }
    {
        let value = self
            .names
            .value_of_constant(&mut self.drawing, self.scope, constant)?;
        Ok(value)
    }

    /// Lets the statements that were added come from the node that is looked at.
    pub fn note(&mut self) -> Result<(), Full>
        ensures { lowering self.new ≡ lowering self.old }
    {
        self.names.note(&self.drawing)
    }

    /// Nothing has begun any more.
    fn forget_begun(&mut self)
        ensures { lowering self.new ≡ with_nothing_begun (lowering self.old) }
    {
        self.frames.clear();
        self.starts.clear();
    }

    /// A procedure begins, the parameters of which come next. An error says a want of memory, or that the node has too
    /// large a number.
    fn begin_procedure(&mut self, number: usize) -> Result<(), Full>
        ensures { OnOk result (lowering self.new ≡ with_procedure number (lowering self.old)) }
    {
        let Some(clock) = number.checked_add(2) else {
            return Err(Full::Misplaced);
        };
        self.drawing = Drawing::new(self.alloc, clock)?;
        self.names = ScopedNames::new(self.alloc);
        self.forget_begun();
        self.scope = 0;
        Ok(())
    }

    /// A parameter.
    fn parameter(&mut self, number: usize) -> Result<(), Full>
        ensures { OnOk result (TakesParameter (lowering self.old) (lowering self.new) number) }
    {
        self.pop_spelled(number)?;
        let value = self.drawing.add_parameter()?;
        self.names.note_as(&self.drawing, number)?;
        self.names.define(&self.drawing, 0, number, value)?;
        Ok(())
    }

    /// A procedure ends.
    fn end_procedure(&mut self) -> Result<(), Full>
        ensures { OnOk result (EndsProcedure (lowering self.old) (lowering self.new)) }
    {
        let value = self.pop_value()?;
        let name = self.pop_name()?;
        self.finish(value, name)?;
        Ok(())
    }

    /// Finishes the procedure, which gives the value, under that name.
    fn finish(&mut self, value: usize, name: BlockName) -> Result<(), Full>
        ensures { OnOk result (Finishes value name (lowering self.old) (lowering self.new)) }
    {
        let drawing = std::mem::replace(&mut self.drawing, Drawing::new(self.alloc, 0)?);
        let names = std::mem::replace(&mut self.names, ScopedNames::new(self.alloc));
        let (block, notes) = finished(drawing, names, value, name)?;
        self.blocks.push(block)?;
        self.notes.push(notes)?;
        self.forget_begun();
        Ok(())
    }

    /// The items of a block begin.
    fn open_block(&mut self, number: usize) -> Result<(), Full>
        ensures { OnOk result (OpensBlock number (lowering self.old) (lowering self.new)) }
    {
        let block = self.tree.around(number, Form::Block, Form::Block)?;
        let whole = self.tree.parent(block)?;
        let form = self.tree.form(whole)?;
        self.open_of(form, number, whole)?;
        Ok(())
    }

    /// The items of a block of a node of that form begin.
    fn open_of(&mut self, form: Form, number: usize, whole: usize) -> Result<(), Full>
        ensures { OnOk result (Opens form number whole (lowering self.old)
            (lowering self.new)) }
    {
        match form {
            Form::If => self.open_if(number, whole),
            Form::Loop | Form::For => self.open_turn(),
            _ => Ok(()),
        }
    }

    /// A block ends.
    fn close_block(&mut self, number: usize) -> Result<(), Full>
        ensures { OnOk result (ClosesBlock number (lowering self.old) (lowering self.new)) }
    {
        let whole = self.tree.parent(number)?;
        let form = self.tree.form(whole)?;
        self.close_of(form, number, whole)?;
        Ok(())
    }

    /// A block of a node of that form ends.
    fn close_of(&mut self, form: Form, number: usize, whole: usize) -> Result<(), Full>
        ensures { OnOk result (Closes form number whole (lowering self.old)
            (lowering self.new)) }
    {
        match form {
            Form::If => self.close_first(whole),
            Form::Loop | Form::For => self.close_loop(number, whole),
            _ => Ok(()),
        }
    }

    /// Goes on with a node of an `if`, a loop, a block or a procedure.
    fn advance_whole(&mut self, form: Form, number: usize) -> Result<(), Full>
        ensures { OnOk result (IsWhole form number (lowering self.old) (lowering self.new)) }
    {
        match form {
            Form::NoItems => self.open_block(number),
            Form::Block => self.close_block(number),
            Form::Otherwise => self.open_else(),
            Form::Else => self.close_else(number),
            Form::If => self.close_if(number),
            Form::NoVariables => self.open_variables(number),
            Form::AddVariable => self.start_variable(number),
            Form::Variables => self.open_loop(number),
            Form::Loop | Form::For => self.end_loop(number),
            Form::NoParameters => self.begin_procedure(number),
            Form::AddParameter => self.parameter(number),
            Form::AddProcedure => self.end_procedure(),
            _ => Ok(()),
        }
    }

    /// Goes on with the node with this number.
    pub fn advance(&mut self, number: usize) -> Result<(), Full>
        ensures { OnOk result (IsDone number (lowering self.old) (lowering self.new)) }
    {
        let form = self.tree.form(number)?;
        self.names.set_place(self.tree.place_of(number));
        if is_item(form) {
            self.advance_item(form, number)?;
            return Ok(());
        }
        self.advance_operator(form)?;
        self.advance_whole(form, number)?;
        Ok(())
    }
}
