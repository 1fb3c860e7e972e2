//! The lowering of loops.
ghost use Rattle.std.specs.Prelude.{◌≡◌, ℕ, ◌↔◌, drop, length, slice_get, Some, IfNone, IfOk, IfSome, IsTrue, OnOk};
ghost use Rattle.u_compile.specs.Trees.{IsGiven};
ghost use Rattle.u_compile.specs.Operands.{lowering};
ghost use Rattle.u_compile.specs.Turns.{ClosesTurn, ClosesTurns, EntersBlock, GoesRound, OpensTurn, TestsCounter};
ghost use Rattle.u_compile.specs.Loops.{BindsLimit, CarriesEach, CarriesStart, CarriesVariables, ClosesEach, ClosesLoop, ClosesVariable, ClosesVariables, Counts, CountsOn, EndsLoop, GivesInVain, HasVariable, IsClock, OpensLoop, OpensTurns, OpensVariables, Starts, StartsCounter, StartsVariable, TestsLimit, TestsVariable};

use crate::drawing::{Scope, Way};
use crate::graph::{Full, Output};
use crate::lowering::{Frame, Lowering, Start, Turns};
use u_program::{Constant, Kind};
use u_scope::Meaning;
use u_source::Form;
use u_value::BinaryOperator;

/// Whether a variable of a loop that begins has this name.
fn is_start(starts: &[Start], name: usize) -> bool
    ensures { IsTrue result ↔ HasVariable starts.now name }
{
    let mut rest = starts;
    while let Some((start, others)) = rest.split_first() {
        if start.name == name {
            return true;
        }
        rest = others;
    }
    false
}

impl Lowering<'_> {
    /// The variables of a loop begin. That which counts in a `for` is the first.
    pub fn open_variables(&mut self, number: usize) -> Result<(), Full>
        ensures { OnOk result (OpensVariables number (lowering self.old) (lowering self.new)) }
    {
        let whole = self.tree.around(number, Form::Loop, Form::For)?;
        if self.tree.is_for(whole)? {
            self.start_counter(number)?;
            return Ok(());
        }
        self.frames.push(Frame::Begun(self.starts.len(), None))?;
        Ok(())
    }

    /// The variable of a loop that counts in a `for`, with the value that it begins with.
    fn start_counter(&mut self, number: usize) -> Result<(), Full>
        ensures { OnOk result (StartsCounter number (lowering self.old) (lowering self.new)) }
    {
        let waiting = self.starts.len();
        let (value, limit) = self.pop_two()?;
        self.pop_spelled(number)?;
        self.start(number, value)?;
        self.frames.push(Frame::Begun(waiting, Some(limit)))?;
        Ok(())
    }

    /// A variable of a loop, with the value that it begins with.
    pub fn start_variable(&mut self, number: usize) -> Result<(), Full>
        ensures { OnOk result (StartsVariable number (lowering self.old) (lowering self.new)) }
    {
        let value = self.pop_value()?;
        self.pop_spelled(number)?;
        self.start(number, value)?;
        Ok(())
    }

    /// Lets a variable of a loop begin with a value.
    fn start(&mut self, name: usize, value: usize) -> Result<(), Full>
        ensures { OnOk result (Starts name value (lowering self.old) (lowering self.new)) }
    {
        self.starts.push(Start {
            name,
            value,
            place: self.names.place(),
        })?;
        Ok(())
    }

    /// The variable of a loop that the node uses in the loop's test, outside of sides and inner loops.
    fn tested(&self, number: usize, whole: usize, waiting: usize) -> Result<Option<usize>, Full>
        ensures some { IfOk result (λ o. IfSome o (TestsVariable self.now.tree.now
            (drop waiting self.now.starts.items) whole number)) }
        ensures none { IfOk result (λ o. IfNone o ((name : ℕ) → TestsVariable self.now.tree.now
            (drop waiting self.now.starts.items) whole number name → ⊥)) }
    {
        let Meaning::Name(name) = self.tree.meaning(number)? else {
            return Ok(None);
        };
        let Some(starts) = self.starts.get(waiting..) else {
            return Err(Full::Misplaced);
        };
        if is_start(starts, name) && self.tree.is_in_test(number, whole)? {
            Ok(Some(name))
        } else {
            Ok(None)
        }
    }

    /// The loop variable that is the clock of a turn: the first that the test uses, or else the first.
    fn clock_of(&self, number: usize, whole: usize, waiting: usize) -> Result<usize, Full>
        ensures { IfOk result (IsClock self.now.tree.now (drop waiting self.now.starts.items)
            number whole) }
    {
        for at in number..whole {
            if let Some(name) = self.tested(at, whole, waiting)? {
                return Ok(name);
            }
        }
        let start = self.start_at(waiting)?;
        Ok(start.name)
    }

    /// Lets a loop carry its variables, which are those behind so many others.
    fn carry_variables(&mut self, turn: usize, waiting: usize) -> Result<(), Full>
        ensures { OnOk result (CarriesVariables turn waiting (lowering self.old)
            (lowering self.new)) }
    {
        let place = self.names.place();
        self.carry_each(turn, waiting)?;
        self.names.set_place(place);
        self.starts.truncate(waiting);
        Ok(())
    }

    /// Lets a loop carry each variable behind so many others.
    fn carry_each(&mut self, turn: usize, waiting: usize) -> Result<(), Full>
        ensures { OnOk result (CarriesEach turn (lowering self.old)
            (drop waiting self.old.starts.items) (lowering self.new)) }
    {
        for number in waiting..self.starts.len() {
            let start = self.start_at(number)?;
            self.carry_start(turn, start)?;
        }
        Ok(())
    }

    /// The variable behind so many others.
    fn start_at(&self, number: usize) -> Result<Start, Full>
        ensures { IfOk result (λ s. slice_get self.now.starts.items number ≡ Some s) }
    {
        match self.starts.get(number) {
            Some(start) => Ok(*start),
            None => Err(Full::Misplaced),
        }
    }

    /// Lets a loop carry a variable. The statements that it takes come from the place of its name.
    fn carry_start(&mut self, turn: usize, start: Start) -> Result<(), Full>
        ensures { OnOk result (CarriesStart turn start (lowering self.old) (lowering self.new)) }
    {
        self.names.set_place(start.place);
        self.names
            .carry(&mut self.drawing, turn, start.name, start.value)?;
        Ok(())
    }

    /// The test of a `for`, whose limit is known by the node with this number.
    fn test_counter(&mut self, turn: usize, clock: usize, number: usize) -> Result<(), Full>
        ensures { OnOk result (TestsCounter turn clock number (lowering self.old)
            (lowering self.new)) }
    {
        let counter = self.value_of(turn, clock)?;
        let limit = self.value_of(turn, number)?;
        self.add_binary(&Kind::Binary(BinaryOperator::Lt), counter, limit)?;
        Ok(())
    }

    /// The variables of a loop have the values that they begin with.
    pub fn open_loop(&mut self, number: usize) -> Result<(), Full>
        ensures { OnOk result (OpensLoop number (lowering self.old) (lowering self.new)) }
    {
        let Frame::Begun(waiting, limit) = self.pop_frame()? else {
            return Err(Full::Misplaced);
        };
        let whole = self.tree.parent(number)?;
        let clock = self.clock_of(number, whole, waiting)?;
        self.bind_limit(number, limit)?;
        let around = self.scope;
        let turn = self.add_turns(around, clock)?;
        self.carry_variables(turn, waiting)?;
        self.scope = turn;
        self.test_limit(turn, clock, number, limit)?;
        self.frames.push(Frame::Test(Turns { around, turn }))?;
        Ok(())
    }

    /// Binds the limit of a `for` in the scope, under the node with this number.
    fn bind_limit(&mut self, number: usize, limit: Option<usize>) -> Result<(), Full>
        ensures { OnOk result (BindsLimit number limit (lowering self.old) (lowering self.new)) }
    {
        match limit {
            Some(limit) => {
                self.names.define(&self.drawing, self.scope, number, limit)?;
                Ok(())
            }
            None => Ok(()),
        }
    }

    /// Adds the scope of the turns of a loop, and returns its number.
    fn add_turns(&mut self, around: usize, clock: usize) -> Result<usize, Full>
        ensures { IfOk result (OpensTurns (lowering self.old) (lowering self.new) around clock) }
    {
        let region = self.drawing.add_loop(around)?;
        let turn = self.drawing.add_scope(Scope {
            region,
            around,
            way: Way::Turn(region),
            clock,
        })?;
        Ok(turn)
    }

    /// The test of a loop that counts, if it has a limit, which is known by the node with this number.
    fn test_limit(
        &mut self,
        turn: usize,
        clock: usize,
        number: usize,
        limit: Option<usize>,
    ) -> Result<(), Full>
        ensures { OnOk result (TestsLimit turn clock number limit (lowering self.old)
            (lowering self.new)) }
    {
        match limit {
            Some(_) => {
                self.test_counter(turn, clock, number)?;
                Ok(())
            }
            None => Ok(()),
        }
    }

    /// The test of a loop ends, and its block begins.
    pub fn open_turn(&mut self) -> Result<(), Full>
        ensures { OnOk result (OpensTurn (lowering self.old) (lowering self.new)) }
    {
        let Frame::Test(turns) = self.pop_frame()? else {
            return Err(Full::Misplaced);
        };
        let value = self.pop_value()?;
        self.enter_block(turns, value)?;
        Ok(())
    }

    /// The block of a loop begins, where the value is true.
    fn enter_block(&mut self, turns: Turns, value: usize) -> Result<(), Full>
        ensures { OnOk result (EntersBlock turns value (lowering self.old) (lowering self.new)) }
    {
        let control = self.drawing.control(turns.turn, value)?;
        self.note()?;
        self.drawing.set_test(turns.turn, control)?;
        let block = self.add_side(turns.turn, control, true)?;
        self.frames.push(Frame::Block(turns, control, block))?;
        self.scope = block;
        Ok(())
    }

    /// The next value of the variable that counts in a `for`.
    fn count_on(&mut self, turn: usize) -> Result<(), Full>
        ensures { OnOk result (CountsOn turn (lowering self.old) (lowering self.new)) }
    {
        let counter = self.drawing.scope(turn)?.clock;
        let value = self.value_of(self.scope, counter)?;
        let one = self.value_of_constant(&Constant::Int(1))?;
        let next = self
            .drawing
            .add_binary(self.scope, &Kind::Binary(BinaryOperator::Add), value, one)?;
        self.note()?;
        self.drawing.set_next(turn, counter, next)?;
        Ok(())
    }

    /// The variable that counts in a `for` goes on, if the loop that ends with node `whole` is one.
    fn count(&mut self, turn: usize, whole: usize) -> Result<(), Full>
        ensures { OnOk result (Counts turn whole (lowering self.old) (lowering self.new)) }
    {
        if self.tree.is_for(whole)? {
            self.count_on(turn)?;
            return Ok(());
        }
        Ok(())
    }

    /// The `next` of what is carried under this number, if this loop carries it. A name of a scope around the loop
    /// has the value that it had.
    fn close_turn(&mut self, turns: Turns, block: usize, number: usize) -> Result<(), Full>
        ensures { OnOk result (ClosesTurn turns.turn block number (lowering self.old)
            (lowering self.new)) }
    {
        let Some(carried) = self.drawing.carried(number) else {
            return Err(Full::Misplaced);
        };
        if carried.turn != turns.turn {
            return Ok(());
        }
        match carried.next {
            Some(value) => {
                self.go_round(block, carried.name, number, value)?;
                Ok(())
            }
            None => {
                let value = self.value_of(block, carried.name)?;
                self.go_round(block, carried.name, number, value)?;
                Ok(())
            }
        }
    }

    /// The `next` of what is carried under this number and name gets a value that the block of its loop has.
    fn go_round(
        &mut self,
        block: usize,
        name: usize,
        number: usize,
        value: usize,
    ) -> Result<(), Full>
        ensures { OnOk result (GoesRound number value (lowering self.old) (lowering self.new)) }
    {
        self.drawing.add_next(block, number, value)?;
        self.names.note_as(&self.drawing, name)?;
        Ok(())
    }

    /// The last value of a loop variable, if it is carried under this number and the loop gives it.
    fn close_variable(
        &mut self,
        turns: Turns,
        end: usize,
        given: (usize, usize),
        number: usize,
    ) -> Result<(), Full>
        ensures { OnOk result (ClosesVariable turns end given.0 given.1 number
            (lowering self.old) (lowering self.new)) }
    {
        let Some(carried) = self.drawing.carried(number) else {
            return Err(Full::Misplaced);
        };
        let turn = turns.turn;
        if carried.turn != turn {
            return Ok(());
        }
        if !self.is_given(given, carried.name)? {
            return Ok(());
        }
        let value = self.value_of(end, carried.name)?;
        let last = self.drawing.leave(end, value)?;
        self.names.note_as(&self.drawing, carried.name)?;
        self.names
            .define(&self.drawing, turns.around, carried.name, last)?;
        Ok(())
    }

    /// The block of a loop ends.
    pub fn close_loop(&mut self, number: usize, whole: usize) -> Result<(), Full>
        ensures { OnOk result (ClosesLoop number whole (lowering self.old) (lowering self.new)) }
    {
        let Frame::Block(turns, control, block) = self.pop_frame()? else {
            return Err(Full::Misplaced);
        };
        self.count(turns.turn, whole)?;
        self.close_turns(turns, block)?;
        self.close_variables(turns, control, (number, whole))?;
        self.scope = turns.around;
        Ok(())
    }

    /// The `next` of all that a loop carries.
    fn close_turns(&mut self, turns: Turns, block: usize) -> Result<(), Full>
        ensures { OnOk result (ClosesTurns turns.turn block (lowering self.old)
            (length self.old.drawing.carried) (lowering self.new)) }
    {
        for carried in 0..self.drawing.count_carried() {
            self.close_turn(turns, block, carried)?;
        }
        Ok(())
    }

    /// The last values of the variables of a loop.
    fn close_variables(
        &mut self,
        turns: Turns,
        control: Output,
        given: (usize, usize),
    ) -> Result<(), Full>
        ensures { OnOk result (ClosesVariables turns control given.0 given.1
            (lowering self.old) (lowering self.new)) }
    {
        let end = self.add_side(turns.turn, control, false)?;
        self.close_each(turns, end, given)?;
        Ok(())
    }

    /// The last value of each variable of a loop, in the scope where it ends.
    fn close_each(&mut self, turns: Turns, end: usize, given: (usize, usize)) -> Result<(), Full>
        ensures { OnOk result (ClosesEach turns end given.0 given.1 (lowering self.old)
            (length self.old.drawing.carried) (lowering self.new)) }
    {
        for carried in 0..self.drawing.count_carried() {
            self.close_variable(turns, end, given, carried)?;
        }
        Ok(())
    }

    /// Whether a loop gives what one of its variables is in the end: some node between those of the pair, which are the
    /// end of its block and its own, uses the name, and the name is that of a variable of the loop.
    fn is_given(&self, given: (usize, usize), name: usize) -> Result<bool, Full>
        ensures { IfOk result (λ b. IsTrue b
            ↔ IsGiven self.now.tree.now given.0 given.1 name) }
    {
        let (number, whole) = given;
        if !self.tree.is_variable(whole, name)? {
            return Ok(false);
        }
        let used = self.tree.is_used(number, whole, name)?;
        Ok(used)
    }

    /// Whether a loop gives what nobody wants.
    fn gives_in_vain(&self, number: usize) -> Result<bool, Full>
        ensures { IfOk result (λ b. IsTrue b ↔ GivesInVain self.now.tree.now number) }
    {
        let Some(before) = number.checked_sub(1) else {
            return Err(Full::Misplaced);
        };
        if self.tree.is_wanted(number)? {
            return Ok(false);
        }
        Ok(self.tree.form(before)? == Form::Give)
    }

    /// A loop ends. What it gives is let go where nobody wants it.
    pub fn end_loop(&mut self, number: usize) -> Result<(), Full>
        ensures { OnOk result (EndsLoop number (lowering self.old) (lowering self.new)) }
    {
        if self.gives_in_vain(number)? {
            self.pop()?;
            return Ok(());
        }
        Ok(())
    }
}
