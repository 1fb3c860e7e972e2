//! The lowering of `if`.
//!
//! What has begun says which `if` it is of, so an end fits its beginning by what is noted. A control is one
//! output: a value of two outputs, and one that a loop carries, gets a `pass` first. Each control has a
//! gate, so that one that is no truth value faults.
ghost use Rattle.std.specs.Prelude.{◌≡◌, ◌↔◌, true, IfOk, IsTrue, OnOk};
ghost use Rattle.u_compile.specs.Operands.{lowering};
ghost use Rattle.u_compile.specs.Sides.{ClosesElse, ClosesIf, ClosesSide, ClosesSides, IsInChoice, IsSelect, IsSidePopped, Joins, JoinsSides, KeepsGate, LeavesSide, OpensElse, OpensIf, OpensOther, OpensSides, Selects, noted, with_left};

use crate::graph::Full;
use crate::lowering::{Frame, Lowering, Sides};
use u_program::Kind;

/// The same sides, where that is noted as the value of the one with that truth value.
fn noted(sides: Sides, on: bool, value: usize) -> Sides
    ensures { result ≡ noted on value sides }
{
    if on {
        return Sides {
            first: Some(value),
            ..sides
        };
    }
    Sides {
        other: Some(value),
        ..sides
    }
}

impl Lowering<'_> {
    /// Whether the `if` that ends with node `whole`, and whose first side begins at the other, needs no scopes: its value
    /// is wanted, and both sides are just a name or a constant.
    fn is_select(&self, number: usize, whole: usize) -> Result<bool, Full>
        ensures { IfOk result (λ b. IsTrue b ↔ IsSelect self.now.tree.now number whole) }
    {
        if !self.tree.is_choice(number, whole) {
            return Ok(false);
        }
        let wanted = self.tree.is_wanted(whole)?;
        Ok(wanted)
    }

    /// The first side of an `if` that ends with node `whole` begins. An error says that there is no operand, or a want of
    /// memory.
    pub fn open_if(&mut self, number: usize, whole: usize) -> Result<(), Full>
        ensures { OnOk result (OpensIf number whole (lowering self.old) (lowering self.new)) }
    {
        let is_select = self.is_select(number, whole)?;
        let value = self.pop_value()?;
        if is_select {
            self.frames.push(Frame::Choice(value, whole))?;
            return Ok(());
        }
        self.open_sides(value, whole)?;
        Ok(())
    }

    /// The first side of an `if` with scopes of their own begins, where the value is true. An error says that the
    /// procedure has no such value or is too large, or a want of memory.
    fn open_sides(&mut self, value: usize, whole: usize) -> Result<(), Full>
        ensures { OnOk result (OpensSides value whole (lowering self.old) (lowering self.new)) }
    {
        let around = self.scope;
        let control = self.drawing.control(around, value)?;
        self.note()?;
        let side = self.add_side(around, control, true)?;
        self.frames.push(Frame::Sides(Sides {
            whole,
            control,
            around,
            on: true,
            side,
            first: None,
            other: None,
        }))?;
        self.scope = side;
        Ok(())
    }

    /// Whether what began last is an `if` that chooses one of two values. An error says that it is one that ends with
    /// another node than `whole`, or that nothing has begun.
    fn is_in_choice(&self, whole: usize) -> Result<bool, Full>
        ensures { IfOk result (λ b. IsTrue b ↔ IsInChoice whole (lowering self.now)) }
    {
        match self.last_frame()? {
            Frame::Choice(_, own) => {
                if own == whole {
                    return Ok(true);
                }
                Err(Full::Misplaced)
            }
            _ => Ok(false),
        }
    }

    /// The first side of an `if` ends, which ends with node `whole`. An error says that another side is gone through.
    pub fn close_first(&mut self, whole: usize) -> Result<(), Full>
        ensures { OnOk result (ClosesSide whole true (lowering self.old) (lowering self.new)) }
    {
        self.close_side(whole, true)
    }

    /// A side ends of an `if` that ends with node `whole`: the first one, or the other. An error says that another side is
    /// gone through, or that its value is wanted and there is none.
    fn close_side(&mut self, whole: usize, on: bool) -> Result<(), Full>
        ensures { OnOk result (ClosesSide whole on (lowering self.old) (lowering self.new)) }
    {
        if self.is_in_choice(whole)? {
            return Ok(());
        }
        let sides = self.pop_side(whole, on)?;
        self.leave_side(sides, on)?;
        Ok(())
    }

    /// The `if` with scopes of their own that began last, of which the side with that truth value is gone through. An error
    /// says that it ends with another node than `whole`, or that another side or none is gone through.
    fn pop_side(&mut self, whole: usize, on: bool) -> Result<Sides, Full>
        ensures { IfOk result (IsSidePopped whole on (lowering self.old) (lowering self.new)) }
    {
        let Frame::Sides(sides) = self.pop_frame()? else {
            return Err(Full::Misplaced);
        };
        if sides.whole != whole || sides.on != on || sides.side != self.scope {
            return Err(Full::Misplaced);
        }
        Ok(sides)
    }

    /// The side with that truth value is left. An error says that its value is wanted and there is none, or a want of
    /// memory.
    fn leave_side(&mut self, sides: Sides, on: bool) -> Result<(), Full>
        ensures { OnOk result (LeavesSide sides on (lowering self.old) (lowering self.new)) }
    {
        if self.tree.is_wanted(sides.whole)? {
            let value = self.pop_value()?;
            self.go_around(noted(sides, on, value))?;
            return Ok(());
        }
        self.go_around(sides)?;
        Ok(())
    }

    /// The scope around sides is gone through. An error says a want of memory.
    fn go_around(&mut self, sides: Sides) -> Result<(), Full>
        ensures { OnOk result (lowering self.new ≡ with_left (lowering self.old) sides) }
    {
        self.frames.push(Frame::Sides(sides))?;
        self.scope = sides.around;
        Ok(())
    }

    /// An `else` begins. An error says that no `if` began last, or that the procedure is too large, or a want of memory.
    pub fn open_else(&mut self) -> Result<(), Full>
        ensures { OnOk result (OpensElse (lowering self.old) (lowering self.new)) }
    {
        match self.last_frame()? {
            Frame::Choice(..) => Ok(()),
            _ => {
                self.open_other()?;
                Ok(())
            }
        }
    }

    /// The other side of an `if` with scopes of their own is entered. An error says that none began last, or that the
    /// procedure is too large, or a want of memory.
    fn open_other(&mut self) -> Result<(), Full>
        ensures { OnOk result (OpensOther (lowering self.old) (lowering self.new)) }
    {
        let Frame::Sides(sides) = self.pop_frame()? else {
            return Err(Full::Misplaced);
        };
        let side = self.add_side(sides.around, sides.control, false)?;
        self.frames.push(Frame::Sides(Sides {
            on: false,
            side,
            ..sides
        }))?;
        self.scope = side;
        Ok(())
    }

    /// An `else` ends, the node with this number. An error says that another side is gone through.
    pub fn close_else(&mut self, number: usize) -> Result<(), Full>
        ensures { OnOk result (ClosesElse number (lowering self.old) (lowering self.new)) }
    {
        let whole = self.tree.parent(number)?;
        self.close_side(whole, false)?;
        Ok(())
    }

    /// An `if` ends, the node with this number. An error says that another one began last, that its value is wanted and
    /// a side has none, or that the procedure is too large, or a want of memory.
    pub fn close_if(&mut self, number: usize) -> Result<(), Full>
        ensures { OnOk result (ClosesIf number (lowering self.old) (lowering self.new)) }
    {
        match self.pop_frame()? {
            Frame::Choice(control, whole) => {
                if whole != number {
                    return Err(Full::Misplaced);
                }
                self.close_choice(control)?;
                Ok(())
            }
            Frame::Sides(sides) => {
                if sides.whole != number {
                    return Err(Full::Misplaced);
                }
                self.close_sides(sides)?;
                Ok(())
            }
            _ => Err(Full::Misplaced),
        }
    }

    /// An `if` that chooses one of two values ends. An error says that there are no two operands, or that the procedure is
    /// too large, or a want of memory.
    fn close_choice(&mut self, control: usize) -> Result<(), Full>
        ensures { OnOk result (Selects control (lowering self.old) (lowering self.new)) }
    {
        let (left, right) = self.pop_two()?;
        let value = self
            .drawing
            .add_ternary(self.scope, &Kind::Select, control, left, right)?;
        self.note()?;
        self.push(value)?;
        Ok(())
    }

    /// An `if` with scopes of their own ends. An error says that its value is wanted and a side has none, or that the
    /// procedure is too large, or a want of memory.
    fn close_sides(&mut self, sides: Sides) -> Result<(), Full>
        ensures { OnOk result (ClosesSides sides (lowering self.old) (lowering self.new)) }
    {
        if self.tree.is_wanted(sides.whole)? {
            self.join_sides(sides)?;
            self.keep_gate(sides)?;
            return Ok(());
        }
        self.keep_gate(sides)?;
        Ok(())
    }

    /// The values of the two sides become one. An error says that a side has none, or a want of memory.
    fn join_sides(&mut self, sides: Sides) -> Result<(), Full>
        ensures { OnOk result (JoinsSides sides (lowering self.old) (lowering self.new)) }
    {
        let Some(left) = sides.first else {
            return Err(Full::Misplaced);
        };
        let Some(right) = sides.other else {
            return Err(Full::Misplaced);
        };
        self.join(left, right)?;
        Ok(())
    }

    /// Two values become one, which waits. An error says that there are none with these numbers, or a want of memory.
    fn join(&mut self, left: usize, right: usize) -> Result<(), Full>
        ensures { OnOk result (Joins left right (lowering self.old) (lowering self.new)) }
    {
        let value = self.drawing.merge(left, right)?;
        self.push(value)?;
        Ok(())
    }

    /// The control of sides has a gate, so that it is looked at. An error says that the procedure is too large, or a want
    /// of memory.
    fn keep_gate(&mut self, sides: Sides) -> Result<(), Full>
        ensures { OnOk result (KeepsGate (lowering self.old) (lowering self.new)) }
    {
        self.drawing.keep_gate(sides.around, sides.control)?;
        self.note()?;
        Ok(())
    }
}
