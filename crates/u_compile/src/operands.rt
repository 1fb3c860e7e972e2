//! The lowering of operators, calls, cells and definitions.
ghost use Rattle.std.specs.Prelude.{◌≡◌, ℕ, [], ◌∷◌, reverse, Some, IfNone, IfOk, IfSome, MatchResult, OnOk, pos, neg_ℤ};
ghost use Rattle.u_program.specs.declared.program.Kind.TheVariants as kinds;
ghost use Rattle.u_compile.specs.declared.graph.Full.TheVariants as fulls;
ghost use Rattle.u_compile.specs.declared.lowering.Operand.TheVariants as operands;
ghost use Rattle.u_compile.specs.Namings.{IsUsed};
ghost use Rattle.u_compile.specs.Definitions.{Defines, DefinesConstant, PopsName};
ghost use Rattle.u_compile.specs.Steps.{IsItem};
ghost use Rattle.u_compile.specs.Loops.{IsVariableTaken, TakesNext};
ghost use Rattle.u_compile.specs.Trees.{IsAtWord};
ghost use Rattle.u_source.specs.declared.token.Word.TheVariants as words;
ghost use Rattle.u_compile.specs.Operands.{AreOperands, ArePopped, GoesOn, IsAtom, IsNoConstant, IsOperand, IsPopped, IsWritten, Negates, Operates, Pops, Pushes, Reads, TakesCall, TakesOne, TakesSwapped, TakesTwo, Writes, lowering, scene, with_operand};

use crate::graph::Full;
use crate::lowering::{Frame, Lowering, Operand};
use u_name::BlockName;
use u_program::{Constant, Kind};
use u_scope::Meaning;
use u_source::Form;
use u_value::{BinaryOperator, UnaryOperator};

/// The number 2^63.
const TOP: u64 = 1 << 63;

/// A number below 2^63.
fn positive(number: u64) -> Option<i64>
    ensures { IfSome result (λ i. i ≡ pos number) }
{
    if number < TOP {
        Some(number as i64)
    } else {
        None
    }
}

/// A number of at most 2^63 with a minus before it.
fn negative(number: u64) -> Option<i64>
    ensures { IfSome result (λ i. i ≡ neg_ℤ (pos number)) }
{
    if number == TOP {
        return Some(i64::MIN);
    }
    match positive(number) {
        Some(number) => number.checked_neg(),
        None => None,
    }
}

/// The number, which is there.
fn there(number: Option<i64>) -> Result<i64, Full>
    ensures { IfOk result (λ i. number ≡ Some i) }
{
    match number {
        Some(number) => Ok(number),
        None => Err(Full::Misplaced),
    }
}

impl Lowering<'_> {
    /// What waits last for its use.
    pub fn pop(&mut self) -> Result<Operand, Full>
        ensures { MatchResult result (IsPopped (lowering self.old) (lowering self.new))
            (λ _. self.old.operands.items ≡ []) }
    {
        match self.operands.pop() {
            Some(operand) => Ok(operand),
            None => Err(Full::Misplaced),
        }
    }

    /// Lets a value wait for its use.
    pub fn push(&mut self, value: usize) -> Result<(), Full>
        ensures { MatchResult result (λ _. lowering self.new
            ≡ with_operand (lowering self.old) (operands.Value value))
            (λ e. e ≡ fulls.NoMemory) }
    {
        self.operands.push(Operand::Value(value))?;
        Ok(())
    }

    /// The name that waits last for its use.
    pub fn pop_name(&mut self) -> Result<BlockName, Full>
        ensures { IfOk result (λ name. (node : ℕ)
            × IsPopped (lowering self.old) (lowering self.new) (operands.Atom node)
            × IsAtWord self.old.tree.now node (words.Name name)) }
    {
        match self.pop()? {
            Operand::Atom(number) => self.tree.name_of(number),
            _ => Err(Full::Misplaced),
        }
    }

    /// The name that waits last for its use, as that which is known from this node. Statements come from its place from
    /// now on.
    pub fn pop_spelled(&mut self, name: usize) -> Result<(), Full>
        ensures { OnOk result (PopsName (lowering self.old) (lowering self.new)) }
    {
        let Operand::Atom(number) = self.pop()? else {
            return Err(Full::Misplaced);
        };
        self.names.set_place(self.tree.place_of(number));
        self.names.spell(name, &self.tree.name_of(number)?)?;
        Ok(())
    }

    /// The constant that a name is.
    fn constant_of(&self, number: usize) -> Result<Option<Constant>, Full>
        ensures some { IfOk result (λ o. IfSome o (IsWritten self.now.tree.now
            self.now.names.aliases.items number)) }
        ensures none { IfOk result (λ o. IfNone o (IsNoConstant self.now.tree.now
            self.now.names.aliases.items number)) }
    {
        match self.tree.meaning(number)? {
            Meaning::Procedure(_) => Ok(Some(Constant::Proc(self.tree.name_of(number)?))),
            Meaning::Name(name) => Ok(self.names.constant_of(name)),
            Meaning::Nothing => Err(Full::Misplaced),
        }
    }

    /// The constant that an atom is.
    fn constant(&self, number: usize) -> Result<Option<Constant>, Full>
        ensures some { IfOk result (λ o. IfSome o (IsWritten self.now.tree.now
            self.now.names.aliases.items number)) }
        ensures none { IfOk result (λ o. IfNone o (IsNoConstant self.now.tree.now
            self.now.names.aliases.items number)) }
    {
        match self.tree.form(number)? {
            Form::True => Ok(Some(Constant::Bool(true))),
            Form::False => Ok(Some(Constant::Bool(false))),
            Form::Number => {
                let value = there(positive(self.tree.number_of(number)?))?;
                Ok(Some(Constant::Int(value)))
            }
            Form::Negative => {
                let value = there(negative(self.tree.number_of(number)?))?;
                Ok(Some(Constant::Int(value)))
            }
            Form::Name => self.constant_of(number),
            _ => Err(Full::Misplaced),
        }
    }

    /// The value of a name that is used in the scope, and is no constant.
    fn value_of_use(&mut self, number: usize) -> Result<usize, Full>
        ensures used { IfOk result (λ v. IsUsed self.old.tree.now.meanings.now
            self.new.drawing self.old.names.bindings.items self.old.scope number v) }
        ensures goes_on { OnOk result (GoesOn (lowering self.old) (lowering self.new)) }
    {
        match self.tree.meaning(number)? {
            Meaning::Name(name) => {
                let value = self.value_of(self.scope, name)?;
                Ok(value)
            }
            _ => Err(Full::Misplaced),
        }
    }

    /// The value of an atom in the scope.
    fn value_of_atom(&mut self, number: usize) -> Result<usize, Full>
        ensures atom { IfOk result (IsAtom (scene self.old) self.new.drawing number) }
        ensures goes_on { OnOk result (GoesOn (lowering self.old) (lowering self.new)) }
    {
        match self.constant(number)? {
            Some(constant) => {
                let value = self.value_of_constant(&constant)?;
                Ok(value)
            }
            None => {
                let value = self.value_of_use(number)?;
                Ok(value)
            }
        }
    }

    /// The value of an operand in the scope. The statements that it takes come from the operand's place.
    pub fn resolve(&mut self, operand: Operand) -> Result<usize, Full>
        ensures is { IfOk result (IsOperand (scene self.old) self.new.drawing operand) }
        ensures goes_on { OnOk result (GoesOn (lowering self.old) (lowering self.new)) }
    {
        match operand {
            Operand::Value(value) => Ok(value),
            Operand::Arguments => Err(Full::Misplaced),
            Operand::Atom(number) => {
                let place = self.names.place();
                self.names.set_place(self.tree.place_of(number));
                let value = self.value_of_atom(number)?;
                self.names.set_place(place);
                Ok(value)
            }
        }
    }

    /// The value that waits last for its use.
    pub fn pop_value(&mut self) -> Result<usize, Full>
        ensures { IfOk result (λ v. Pops (lowering self.old) (lowering self.new) (v ∷ [])) }
    {
        let operand = self.pop()?;
        let value = self.resolve(operand)?;
        Ok(value)
    }

    /// The two values that wait last for their use.
    pub fn pop_two(&mut self) -> Result<(usize, usize), Full>
        ensures { IfOk result (λ p. Pops (lowering self.old) (lowering self.new)
            (p.0 ∷ p.1 ∷ [])) }
    {
        let right = self.pop()?;
        let left = self.pop()?;
        let left = self.resolve(left)?;
        let right = self.resolve(right)?;
        Ok((left, right))
    }

    /// A statement of one port.
    fn unary(&mut self, kind: &Kind) -> Result<(), Full>
        ensures { OnOk result (TakesOne kind.now (lowering self.old) (lowering self.new)) }
    {
        let value = self.pop_value()?;
        self.add_unary(kind, value)?;
        Ok(())
    }

    /// Adds a statement of one port.
    fn add_unary(&mut self, kind: &Kind, value: usize) -> Result<(), Full>
        ensures { OnOk result (Pushes (lowering self.old) (lowering self.new) kind.now
            (value ∷ [])) }
    {
        let given = self.drawing.add_unary(self.scope, kind, value)?;
        self.note()?;
        self.push(given)?;
        Ok(())
    }

    /// Adds a statement of two ports.
    pub fn add_binary(&mut self, kind: &Kind, left: usize, right: usize) -> Result<(), Full>
        ensures { OnOk result (Pushes (lowering self.old) (lowering self.new) kind.now
            (left ∷ right ∷ [])) }
    {
        let value = self.drawing.add_binary(self.scope, kind, left, right)?;
        self.note()?;
        self.push(value)?;
        Ok(())
    }

    /// A statement of two ports.
    fn binary(&mut self, kind: &Kind) -> Result<(), Full>
        ensures { OnOk result (TakesTwo kind.now (lowering self.old) (lowering self.new)) }
    {
        let (left, right) = self.pop_two()?;
        self.add_binary(kind, left, right)?;
        Ok(())
    }

    /// A statement of two ports, which gets its operands the other way round.
    fn swapped(&mut self, kind: &Kind) -> Result<(), Full>
        ensures { OnOk result (TakesSwapped kind.now (lowering self.old) (lowering self.new)) }
    {
        let (left, right) = self.pop_two()?;
        self.add_binary(kind, right, left)?;
        Ok(())
    }

    /// A number taken from 0.
    fn negate(&mut self) -> Result<(), Full>
        ensures { OnOk result (Negates (lowering self.old) (lowering self.new)) }
    {
        let value = self.pop_value()?;
        let zero = self.value_of_constant(&Constant::Int(0))?;
        self.add_binary(&Kind::Binary(BinaryOperator::Sub), zero, value)?;
        Ok(())
    }

    /// The name that waits before the index of a cell, if it is a name that waits there.
    fn structure(&self) -> Result<Option<BlockName>, Full> {
        let Some(before) = self.operands.len().checked_sub(2) else {
            return Err(Full::Misplaced);
        };
        match self.operand(before)? {
            Operand::Atom(number) if self.tree.form(number)? == Form::Name => {
                Ok(Some(self.tree.name_of(number)?))
            }
            _ => Ok(None),
        }
    }

    /// A cell that is read. The array and the index of one that is written wait on.
    fn index(&mut self, number: usize) -> Result<(), Full>
        ensures { OnOk result (Reads number (lowering self.old) (lowering self.new)) }
    {
        if self.tree.is_cell_written(number)? {
            return Ok(());
        }
        self.read()?;
        Ok(())
    }

    /// A cell that is read.
    fn read(&mut self) -> Result<(), Full>
        ensures { OnOk result (TakesTwo kinds.Fetch (lowering self.old) (lowering self.new)) }
    {
        let structure = self.structure()?;
        let (array, index) = self.pop_two()?;
        self.add_read(structure, array, index)?;
        Ok(())
    }

    /// Adds a statement that reads a cell of a structure, under its name if it is one.
    fn add_read(
        &mut self,
        structure: Option<BlockName>,
        array: usize,
        index: usize,
    ) -> Result<(), Full>
        ensures { OnOk result (Pushes (lowering self.old) (lowering self.new) kinds.Fetch
            (array ∷ index ∷ [])) }
    {
        let value = self
            .drawing
            .add_binary(self.scope, &Kind::Fetch, array, index)?;
        self.names.note_read(&self.drawing, structure)?;
        self.push(value)?;
        Ok(())
    }

    /// A cell that is written.
    fn write(&mut self) -> Result<(), Full>
        ensures { OnOk result (Writes (lowering self.old) (lowering self.new)) }
    {
        let value = self.pop()?;
        let (array, index) = self.pop_two()?;
        let value = self.resolve(value)?;
        self.drawing
            .add_ternary(self.scope, &Kind::Store, array, index, value)?;
        self.note()?;
        Ok(())
    }

    /// What waits behind so many operands.
    fn operand(&self, number: usize) -> Result<Operand, Full> {
        match self.operands.get(number) {
            Some(operand) => Ok(*operand),
            None => Err(Full::Misplaced),
        }
    }

    /// The operands that wait behind the last beginning of arguments, the last one first.
    fn pop_arguments(&mut self) -> Result<Vec<Operand>, Full>
        ensures { IfOk result (λ os. ArePopped (lowering self.old) (lowering self.new) os.items) }
    {
        let mut taken: Vec<Operand> = Vec::new(self.alloc);
        'taking: for _ in 0..self.operands.len() {
            let operand = self.pop()?;
            if let Operand::Arguments = operand {
                return Ok(taken);
            }
            taken.push(operand)?;
        }
        Err(Full::Misplaced)
    }

    /// The values of operands that were taken, the last one first. The first one is looked at first.
    fn resolve_all(&mut self, taken: Vec<Operand>) -> Result<Vec<usize>, Full>
        ensures are { IfOk result (λ vs. AreOperands (scene self.old) self.new.drawing
            (reverse taken.items) vs.items) }
        ensures goes_on { OnOk result (GoesOn (lowering self.old) (lowering self.new)) }
    {
        let mut waiting = taken;
        let mut values: Vec<usize> = Vec::new(self.alloc);
        'resolving: while let Some(operand) = waiting.pop() {
            let value = self.resolve(operand)?;
            values.push(value)?;
        }
        Ok(values)
    }

    /// A call: what is called, and the arguments.
    fn call(&mut self) -> Result<(), Full>
        ensures { OnOk result (TakesCall (lowering self.old) (lowering self.new)) }
    {
        let taken = self.pop_arguments()?;
        let callee = self.pop()?;
        let procedure = self.resolve(callee)?;
        let arguments = self.resolve_all(taken)?;
        let value = self.drawing.add_call(self.scope, procedure, &arguments)?;
        self.note()?;
        self.push(value)?;
        Ok(())
    }

    /// A definition of a name that is a constant, if the operand is one.
    fn define_constant(&mut self, number: usize, operand: Operand) -> Result<bool, Full>
        ensures { IfOk result (DefinesConstant (lowering self.old) (lowering self.new)
            number operand) }
    {
        let Operand::Atom(atom) = operand else {
            return Ok(false);
        };
        match self.constant(atom)? {
            Some(constant) => {
                self.names.alias(number, &constant)?;
                Ok(true)
            }
            None => Ok(false),
        }
    }

    /// A definition.
    fn define(&mut self, number: usize) -> Result<(), Full>
        ensures { OnOk result (Defines (lowering self.old) (lowering self.new) number) }
    {
        let operand = self.pop()?;
        self.pop_spelled(number)?;
        if self.define_constant(number, operand)? {
            return Ok(());
        }
        let value = self.resolve(operand)?;
        self.names.define(&self.drawing, self.scope, number, value)?;
        Ok(())
    }

    /// The name that waits last for its use, by the node from which it is known.
    fn pop_variable(&mut self) -> Result<usize, Full>
        ensures { IfOk result (IsVariableTaken (lowering self.old) (lowering self.new)) }
    {
        let Operand::Atom(atom) = self.pop()? else {
            return Err(Full::Misplaced);
        };
        match self.tree.meaning(atom)? {
            Meaning::Name(name) => Ok(name),
            _ => Err(Full::Misplaced),
        }
    }

    /// The next value of a loop variable.
    fn next(&mut self) -> Result<(), Full>
        ensures { OnOk result (TakesNext (lowering self.old) (lowering self.new)) }
    {
        let value = self.pop_value()?;
        let name = self.pop_variable()?;
        let Frame::Block(turns, _, _) = self.last_frame()? else {
            return Err(Full::Misplaced);
        };
        self.drawing.set_next(turns.turn, name, value)?;
        Ok(())
    }

    /// Goes on with a node of an operator, if it is one.
    pub fn advance_operator(&mut self, form: Form) -> Result<(), Full>
        ensures { OnOk result (Operates form (lowering self.old) (lowering self.new)) }
    {
        match form {
            Form::Or => self.binary(&Kind::Binary(BinaryOperator::Or)),
            Form::And => self.binary(&Kind::Binary(BinaryOperator::And)),
            Form::Less => self.binary(&Kind::Binary(BinaryOperator::Lt)),
            Form::AtMost => self.binary(&Kind::Binary(BinaryOperator::Le)),
            Form::Greater => self.swapped(&Kind::Binary(BinaryOperator::Lt)),
            Form::AtLeast => self.swapped(&Kind::Binary(BinaryOperator::Le)),
            Form::Equal => self.binary(&Kind::Binary(BinaryOperator::Eq)),
            Form::Unequal => {
                self.binary(&Kind::Binary(BinaryOperator::Eq))?;
                self.unary(&Kind::Unary(UnaryOperator::Not))
            }
            Form::Add => self.binary(&Kind::Binary(BinaryOperator::Add)),
            Form::Subtract => self.binary(&Kind::Binary(BinaryOperator::Sub)),
            Form::Multiply => self.binary(&Kind::Binary(BinaryOperator::Mul)),
            Form::Divide => self.binary(&Kind::Binary(BinaryOperator::Div)),
            Form::Remainder => self.binary(&Kind::Binary(BinaryOperator::Rem)),
            Form::Not => self.unary(&Kind::Unary(UnaryOperator::Not)),
            Form::Length => self.unary(&Kind::Unary(UnaryOperator::Length)),
            Form::Array => self.unary(&Kind::Alloc),
            Form::Negate => self.negate(),
            _ => Ok(()),
        }
    }

    /// Lets an operand wait for its use.
    fn wait(&mut self, operand: Operand) -> Result<(), Full>
        ensures { MatchResult result
            (λ _. lowering self.new ≡ with_operand (lowering self.old) operand)
            (λ e. e ≡ fulls.NoMemory) }
    {
        self.operands.push(operand)?;
        Ok(())
    }

    /// Goes on with a node of an atom, a cell, a call or an item.
    pub fn advance_item(&mut self, form: Form, number: usize) -> Result<(), Full>
        ensures { OnOk result (IsItem form number (lowering self.old) (lowering self.new)) }
    {
        match form {
            Form::NoArguments => self.wait(Operand::Arguments),
            Form::Index => self.index(number),
            Form::Call => self.call(),
            Form::Write => self.write(),
            Form::Statement => {
                self.pop()?;
                Ok(())
            }
            Form::Define => self.define(number),
            Form::Next => self.next(),
            _ => self.wait(Operand::Atom(number)),
        }
    }
}
