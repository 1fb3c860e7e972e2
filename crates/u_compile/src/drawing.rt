//! A procedure under construction: its graph, its scopes and its values.
//!
//! A value is a list of outputs, and each port that uses it is linked to all of them. A procedure is broken
//! once a value was linked in part, since links are not taken back: it never becomes a block.
ghost use Rattle.std.specs.Prelude.{◌≡◌, ℕ, ◌+◌, ◌≤◌, List, [], ◌∷◌, ◌++◌, length, slice_get, slice_set, get_or, false, Some, None, IfOk, OnOk, IfSome, IfNone, MatchResult};
ghost use Rattle.u_program.specs.Limits.{IsBlockOf, limits_of, place_of};
ghost use Rattle.u_program.specs.declared.program.Version.TheVariants as versions;
ghost use Rattle.u_determinate.specs.Determinate.{IsDeterminateBlock};
ghost use Rattle.u_compile.specs.Kept.{KeepsItself};
ghost use Rattle.u_program.specs.declared.program.Kind.{Kind as a_kind};
ghost use Rattle.u_program.specs.declared.program.Kind.TheVariants as kinds;
ghost use Rattle.u_compile.specs.declared.drawing.Carried.{Carried as a_carried_value};
ghost use Rattle.u_compile.specs.Fanning.{IsFinished};
ghost use Rattle.u_compile.specs.Graphs.{graph, output};
ghost use Rattle.u_compile.specs.Scoped.{IsOf};
ghost use Rattle.u_compile.specs.Scopes.{HasRegion, IsPlaceOf};
ghost use Rattle.u_compile.specs.Drawings.{Adds, AddsNext, AreValues, Calls, Chooses, EachIsFed, Gives, Grows, HasNoGate, IsGate, IsGated, IsNextOf, IsOnly, IsOpen, IsOwn, IsParameter, IsValue, LeadsOn, Leaves, Merges, SetsNext, SharesGate, StandsIn, a_carried, a_gate, input_links, links_to, no_statements, with_links, with_scope, with_value};

use crate::graph::{Full, Output, STATEMENTS};
use crate::place::{Guard, GuardedRegion};
use crate::placed::Noted;
use std::alloc::Global;
use std::marker::Model;
use u_name::BlockName;
use u_program::{Arguments, Block, Kind, Parameter};

/// How a scope is entered.
#[derive(Clone, Copy)]
pub(crate) enum Way {
    /// It is the procedure's.
    Procedure,
    /// Where this output of a control gives that truth value.
    Side(Output, bool),
    /// In each turn of the loop with this number.
    Turn(u8),
}

/// A scope: one run of a procedure, of a side of an `if`, or of a turn.
#[derive(Clone, Copy)]
pub(crate) struct Scope {
    /// The region of its statements.
    pub region: u8,
    /// The number of the scope around it; of a procedure's, its own.
    pub around: usize,
    /// How it is entered.
    pub way: Way,
    /// The name whose value comes wherever the scope is entered.
    pub clock: usize,
}

/// A gate: a `switch` that sends a value to one of the sides of a control.
#[derive(Clone, Copy)]
struct Gate {
    /// The control.
    pub control: Output,
    /// The number of the value.
    pub value: usize,
    /// The number of the `switch`.
    pub switch: u16,
}

/// A value that a loop carries from turn to turn.
#[derive(Clone, Copy)]
pub(crate) struct Carried {
    /// The number of the scope of the loop's turns.
    pub turn: usize,
    /// The node from which its name is known.
    pub name: usize,
    /// The number of its `enter`.
    pub enter: u16,
    /// The number of the value that it has in the next turn, once that is known.
    pub next: Option<usize>,
}

/// The outputs that give a value: one of them gives it.
#[derive(Drop)]
struct Outputs {
    list: Vec<Output>,
}

impl Model for Outputs {
    ghost use Rattle.std.specs.Prelude.{List};
    ghost use Rattle.u_compile.specs.declared.graph.Output.{Output};

    ghost Value = { List Output };

    ghost view = { λ o. o.list.items };
}

impl Outputs {
    /// The outputs, in their order.
    fn list(&self) -> &[Output]
        ensures { result.now ≡ self.now }
    {
        &self.list
    }
}

/// A procedure under construction. Scopes and values are numbered from 0; scope 0 is the procedure's. It is broken once
/// not all outputs of a value could be linked: then it never ends.
#[derive(Drop)]
pub(crate) struct Drawing {
    graph: Noted,
    scopes: Vec<Scope>,
    values: Vec<Outputs>,
    gates: Vec<Gate>,
    carried: Vec<Carried>,
    broken: bool,
    alloc: Global,
}

impl Model for Drawing {
    ghost use Rattle.u_compile.specs.Drawings.{DrawingParts, drawing, IsDrawn};
    ghost use Rattle.u_compile.specs.Placed.{places_of};

    ghost Value = { DrawingParts };

    ghost view = { λ d. drawing d.graph.graph.statements d.graph.graph.links d.scopes.items
        d.values.items d.gates.items d.carried.items (places_of d.graph) };

    ghost invariant = { λ d. IsDrawn d.graph.graph.statements d.graph.graph.links
        d.values.items d.gates.items d.broken };
}

/// The list of a statement that is no `switch`, or that of a `switch` on true.
fn output_of(statement: u16) -> Output
    ensures { result ≡ output statement false }
{
    Output {
        statement,
        on_false: false,
    }
}

/// The outputs of the value with this number.
fn outputs_of(values: &[Outputs], value: usize) -> Result<&[Output], Full>
    ensures { IfOk result (λ os. slice_get values.now value ≡ Some os.now) }
{
    match values.get(value) {
        Some(outputs) => Ok(outputs.list()),
        None => Err(Full::Misplaced),
    }
}

/// Links each of the outputs to a port of the last statement.
fn lead_all(graph: &mut Noted, outputs: &[Output], port: u8) -> Result<(), Full>
    ensures ok { let last = length graph.old.graph.statements in
        OnOk result (graph.new ≡ with_links graph.old (links_to last port outputs.now)) }
    ensures some { LeadsOn graph.old graph.new }
{
    let mut rest = outputs;
    while let Some((output, others)) = rest.split_first() {
        graph.lead(*output, port)?;
        rest = others;
    }
    Ok(())
}

/// Links a value to a port of the last statement.
fn lead_value(graph: &mut Noted, values: &[Outputs], value: usize, port: u8) -> Result<(), Full>
    ensures ok { let last = length graph.old.graph.statements in
        OnOk result (graph.new ≡ with_links graph.old
        (links_to last port (get_or values.now value []))) }
    ensures value { OnOk result (IsValue values.now value) }
    ensures some { LeadsOn graph.old graph.new }
{
    lead_all(graph, outputs_of(values, value)?, port)
}

/// Links values to the ports of the last statement, one to each, from the first on.
fn lead_values(graph: &mut Noted, values: &[Outputs], inputs: &[usize]) -> Result<(), Full>
    requires { length inputs.now ≤ 5 }
    ensures ok { let last = length graph.old.graph.statements in
        OnOk result (graph.new ≡ with_links graph.old
        (input_links values.now last 1 inputs.now)) }
    ensures values { OnOk result (AreValues values.now inputs.now) }
    ensures some { LeadsOn graph.old graph.new }
{
    let mut rest = inputs;
    let mut port: u8 = 1;
    while let Some((value, others)) = rest.split_first() {
        lead_value(graph, values, *value, port)?;
        port += 1;
        rest = others;
    }
    Ok(())
}

/// The `switch` of the gate of a value under a control.
fn gate_of(gates: &[Gate], control: Output, value: usize) -> Option<u16>
    ensures some { IfSome result (λ s. IsOf gates.now (a_gate control value s)) }
    ensures none { IfNone result (HasNoGate gates.now control value) }
{
    let mut rest = gates;
    while let Some((gate, others)) = rest.split_first() {
        if gate.control.is(control) && gate.value == value {
            return Some(gate.switch);
        }
        rest = others;
    }
    None
}

/// The number of what the loop with these turns carries under the name, if its value in the next turn is not known yet.
fn open_next(carried: &[Carried], turn: usize, name: usize) -> Option<usize>
    ensures { IfSome result (IsOpen carried.now turn name) }
{
    for (number, one) in carried.iter().enumerate() {
        if one.turn == turn && one.name == name && one.next.is_none() {
            return Some(number);
        }
    }
    None
}

/// Whether a control has a gate.
fn has_gate(gates: &[Gate], control: Output) -> bool {
    for gate in gates {
        if gate.control.is(control) {
            return true;
        }
    }
    false
}

/// The number of the `back` behind an `apply` that comes behind so many statements.
fn back_behind(statements: usize) -> Result<u16, Full>
    ensures { IfOk result (λ n. n ≡ statements + 2) }
{
    if statements < STATEMENTS - 1 {
        Ok(statements as u16 + 2)
    } else {
        Err(Full::Statements)
    }
}

/// How many arguments an `apply` has, of 1 to 4.
fn count_of(arguments: &[usize]) -> Result<Arguments, Full>
    ensures { OnOk result (length arguments.now ≤ 4) }
{
    match arguments.len() {
        1 => Ok(Arguments::One),
        2 => Ok(Arguments::Two),
        3 => Ok(Arguments::Three),
        4 => Ok(Arguments::Four),
        _ => Err(Full::Misplaced),
    }
}

/// The parameter behind so many others, which is not the first.
fn parameter_behind(count: usize) -> Result<Parameter, Full>
    ensures { IfOk result (λ p. place_of p ≡ count + 1) }
{
    match count {
        1 => Ok(Parameter::Second),
        2 => Ok(Parameter::Third),
        3 => Ok(Parameter::Fourth),
        _ => Err(Full::Misplaced),
    }
}

impl Drawing {
    /// A procedure without statements, whose first parameter is this name.
    pub fn new(alloc: Global, clock: usize) -> Result<Drawing, Full>
        ensures { IfOk result (λ d. d ≡ no_statements clock) }
    {
        let mut scopes = Vec::new(alloc);
        scopes.push(Scope {
            region: 0,
            around: 0,
            way: Way::Procedure,
            clock,
        })?;
        Ok(Drawing {
            graph: Noted::new(alloc),
            scopes,
            values: Vec::new(alloc),
            gates: Vec::new(alloc),
            carried: Vec::new(alloc),
            broken: false,
            alloc,
        })
    }

    /// How many statements it has.
    pub fn len(&self) -> usize
        ensures { result ≡ length self.now.statements }
    {
        self.graph.len()
    }

    /// The scope with this number.
    pub fn scope(&self, number: usize) -> Result<Scope, Full>
        ensures { MatchResult result (λ s. slice_get self.now.scopes number ≡ Some s)
            (λ _. length self.now.scopes ≤ number) }
    {
        match self.scopes.get(number) {
            Some(scope) => Ok(*scope),
            None => Err(Full::Misplaced),
        }
    }

    /// The region of the scope with this number.
    fn region(&self, scope: usize) -> Result<u8, Full>
        ensures { IfOk result (HasRegion self.now.scopes scope) }
    {
        match self.scopes.get(scope) {
            Some(scope) => Ok(scope.region),
            None => Err(Full::Misplaced),
        }
    }

    /// Adds a scope, and returns its number.
    pub fn add_scope(&mut self, scope: Scope) -> Result<usize, Full>
        ensures number { IfOk result (λ n. n ≡ length self.old.scopes) }
        ensures adds { OnOk result (self.new ≡ with_scope self.old scope) }
    {
        let number = self.scopes.len();
        self.scopes.push(scope)?;
        Ok(number)
    }

    /// Where the statements of a scope lie: in its region, and in the sides of controls there that it stands in.
    fn place(&self, scope: usize) -> Result<GuardedRegion, Full>
        ensures { IfOk result (IsPlaceOf self.now.scopes scope) }
    {
        let region = self.region(scope)?;
        let mut guards = Vec::new(self.alloc);
        let mut at = scope;
        'outwards: for _ in 0..=scope {
            let outer = self.scope(at)?;
            match outer.way {
                Way::Procedure => return Ok(GuardedRegion::of(region, guards)),
                Way::Turn(_) => return Ok(GuardedRegion::of(region, guards)),
                Way::Side(control, value) => {
                    guards.push(Guard {
                        control: control.statement,
                        value,
                    })?;
                    at = outer.around;
                }
            }
        }
        Err(Full::Misplaced)
    }

    /// Adds a loop, which stands in that scope, and returns its number.
    pub fn add_loop(&mut self, around: usize) -> Result<u8, Full>
        ensures { OnOk result (self.new ≡ self.old) }
    {
        let place = self.place(around)?;
        let number = self.graph.put_loop(&place)?;
        Ok(number)
    }

    /// Lets a control say whether the loop with these turns goes on.
    pub fn set_test(&mut self, turn: usize, control: Output) -> Result<(), Full>
        ensures { OnOk result (self.new ≡ self.old) }
    {
        let region = self.region(turn)?;
        self.graph.set_test(region, control.statement)?;
        Ok(())
    }

    /// Adds a value with these outputs, and returns its number.
    fn add_outputs(&mut self, list: Vec<Output>) -> Result<usize, Full>
        ensures { IfOk result (λ v. (v ≡ length self.old.values)
            × (self.new ≡ with_value self.old list.items)) }
    {
        let number = self.values.len();
        self.values.push(Outputs { list })?;
        Ok(number)
    }

    /// Adds a value with one output, and returns its number.
    fn add_value(&mut self, output: Output) -> Result<usize, Full>
        ensures { IfOk result (λ v. (v ≡ length self.old.values)
            × (self.new ≡ with_value self.old (output ∷ []))) }
    {
        let mut list = Vec::new(self.alloc);
        list.push(output)?;
        self.add_outputs(list)
    }

    /// The one output of a value.
    pub fn only_output(&self, value: usize) -> Result<Option<Output>, Full>
        ensures { IfOk result (IsOnly self.now.values value) }
    {
        match outputs_of(&self.values, value)? {
            [output] => Ok(Some(*output)),
            _ => Ok(None),
        }
    }

    /// Adds a statement in a place, and links values to its ports, one to each. Returns its number. A `switch` gets what
    /// chooses its side.
    fn add(
        &mut self,
        place: &GuardedRegion,
        kind: &Kind,
        control: u16,
        inputs: &[usize],
    ) -> Result<u16, Full>
        requires { length inputs.now ≤ 5 }
        ensures number { IfOk result (λ n. n ≡ length self.old.statements + 1) }
        ensures adds { OnOk result (Adds self.old self.new kind.now inputs.now) }
        ensures carried { OnOk result (self.new.carried ≡ self.old.carried) }
        ensures gates { OnOk result (self.new.gates ≡ self.old.gates) }
        ensures places { OnOk result (self.new.places ≡ self.old.places ++ (place.now ∷ [])) }
    {
        let statement = self.graph.put(place, kind, control)?;
        if let Err(full) = lead_values(&mut self.graph, &self.values, inputs) {
            self.broken = true;
            return Err(full);
        }
        Ok(statement)
    }

    /// Adds a `next` of an `enter` in a place, to which the value leads.
    fn add_going_on(&mut self, place: &GuardedRegion, enter: u16, value: usize) -> Result<(), Full>
        ensures adds { OnOk result (Adds self.old self.new kinds.Next (value ∷ [])) }
        ensures of { OnOk result (IsNextOf self.new.statements
            (length self.old.statements + 1) enter) }
    {
        self.graph.put_next(place, enter)?;
        if let Err(full) = lead_values(&mut self.graph, &self.values, &[value]) {
            self.broken = true;
            return Err(full);
        }
        Ok(())
    }

    /// Adds a statement in a scope, and links values to its ports, one to each. Returns what it gives.
    fn add_giving(&mut self, scope: usize, kind: &Kind, inputs: &[usize]) -> Result<usize, Full>
        requires { length inputs.now ≤ 5 }
        ensures gives { IfOk result (λ v. Gives self.old self.new kind.now inputs.now v) }
        ensures stands { IfOk result (λ _. StandsIn self.old self.new scope) }
    {
        let place = self.place(scope)?;
        let statement = self.add(&place, kind, 0, inputs)?;
        self.add_value(output_of(statement))
    }

    /// Adds the next parameter, and returns its value.
    pub fn add_parameter(&mut self) -> Result<usize, Full>
        ensures { IfOk result (λ v. (k : a_kind) × IsParameter (length self.old.statements) k
            × Gives self.old self.new k [] v) }
    {
        if self.len() == 0 {
            let value = self.add_giving(0, &Kind::Begin, &[])?;
            return Ok(value);
        }
        let parameter = parameter_behind(self.len())?;
        let value = self.add_giving(0, &Kind::Param(parameter), &[])?;
        Ok(value)
    }

    /// Adds a statement of one port, and returns its value.
    pub fn add_unary(&mut self, scope: usize, kind: &Kind, value: usize) -> Result<usize, Full>
        ensures gives { IfOk result (λ v. Gives self.old self.new kind.now (value ∷ []) v) }
        ensures stands { IfOk result (λ _. StandsIn self.old self.new scope) }
    {
        self.add_giving(scope, kind, &[value])
    }

    /// Adds a statement of two ports, and returns its value.
    pub fn add_binary(
        &mut self,
        scope: usize,
        kind: &Kind,
        left: usize,
        right: usize,
    ) -> Result<usize, Full>
        ensures gives { IfOk result
            (λ v. Gives self.old self.new kind.now (left ∷ right ∷ []) v) }
        ensures stands { IfOk result (λ _. StandsIn self.old self.new scope) }
    {
        self.add_giving(scope, kind, &[left, right])
    }

    /// Adds a statement of three ports, and returns its value.
    pub fn add_ternary(
        &mut self,
        scope: usize,
        kind: &Kind,
        first: usize,
        second: usize,
        third: usize,
    ) -> Result<usize, Full>
        ensures gives { IfOk result
            (λ v. Gives self.old self.new kind.now (first ∷ second ∷ third ∷ []) v) }
        ensures stands { IfOk result (λ _. StandsIn self.old self.new scope) }
    {
        self.add_giving(scope, kind, &[first, second, third])
    }

    /// Adds the `back` behind the last statement, which is an `apply`, and returns its value.
    fn add_back(&mut self, place: &GuardedRegion) -> Result<usize, Full>
        ensures { IfOk result (λ v. Gives self.old self.new kinds.Back [] v) }
    {
        let back = self.add(place, &Kind::Back, 0, &[])?;
        self.graph.finish_call(back)?;
        self.add_value(output_of(back))
    }

    /// Adds a call of one to four arguments, and returns its result.
    pub fn add_call(
        &mut self,
        scope: usize,
        procedure: usize,
        arguments: &[usize],
    ) -> Result<usize, Full>
        ensures { IfOk result (λ v. Calls self.old self.new procedure arguments.now v) }
    {
        let count = count_of(arguments)?;
        let back = back_behind(self.len())?;
        let place = self.place(scope)?;
        let mut inputs = Vec::new(self.alloc);
        inputs.push(procedure)?;
        inputs.extend_from_slice(arguments)?;
        self.add(&place, &Kind::Apply(back, count), 0, &inputs)?;
        self.add_back(&place)
    }

    /// The value that comes from one of two sides.
    pub fn merge(&mut self, left: usize, right: usize) -> Result<usize, Full>
        ensures { IfOk result (λ v. Merges self.old self.new left right v) }
    {
        let mut outputs = Vec::new(self.alloc);
        outputs.extend_from_slice(outputs_of(&self.values, left)?)?;
        outputs.extend_from_slice(outputs_of(&self.values, right)?)?;
        self.add_outputs(outputs)
    }

    /// The one output of a value that no loop carries, if it has one.
    fn own_output(&self, value: usize) -> Result<Option<Output>, Full>
        ensures { IfOk result (IsOwn self.now value) }
    {
        match self.only_output(value)? {
            Some(output) => {
                if self.graph.is_entered(output) {
                    return Ok(None);
                }
                Ok(Some(output))
            }
            None => Ok(None),
        }
    }

    /// Adds a `pass` to which the value leads.
    fn add_pass(&mut self, scope: usize, value: usize) -> Result<Output, Full>
        ensures { IfOk result (λ o. (Adds self.old self.new kinds.Pass (value ∷ []))
            × (o ≡ output (length self.old.statements + 1) false)) }
    {
        let place = self.place(scope)?;
        let statement = self.add(&place, &Kind::Pass, 0, &[value])?;
        Ok(output_of(statement))
    }

    /// The one output of a value that chooses a side: its own, or that of a `pass` behind it. A value that a loop
    /// carries, and one that comes from one of two sides, get a `pass`.
    pub fn control(&mut self, scope: usize, value: usize) -> Result<Output, Full>
        ensures { IfOk result (λ o. Chooses self.old self.new value o) }
    {
        let one = self.own_output(value)?;
        match one {
            Some(output) => Ok(output),
            None => self.add_pass(scope, value),
        }
    }

    /// Adds a gate of a value in a scope under a control, and returns its `switch`.
    fn add_gate(&mut self, scope: usize, control: Output, value: usize) -> Result<u16, Full>
        ensures grows { OnOk result (Grows self.old self.new) }
        ensures gate { IfOk result (λ s. IsGate self.new.statements self.new.links
            self.new.values (a_gate control value s)) }
        ensures notes { IfOk result (λ s. self.new.gates
            ≡ self.old.gates ++ (a_gate control value s ∷ [])) }
    {
        let place = self.place(scope)?;
        let switch = self.add(&place, &Kind::Switch, control.statement, &[value])?;
        self.graph.lead(control, 2)?;
        self.graph.finish_switch(control)?;
        self.gates.push(Gate {
            control,
            value,
            switch,
        })?;
        Ok(switch)
    }

    /// Gives a control a gate of its own value, if it has no gate.
    pub fn keep_gate(&mut self, scope: usize, control: Output) -> Result<(), Full>
        ensures { OnOk result (Grows self.old self.new) }
    {
        if has_gate(&self.gates, control) {
            return Ok(());
        }
        let value = self.add_value(control)?;
        self.add_gate(scope, control, value)?;
        Ok(())
    }

    /// The `switch` of the gate of a value into a side, which is added if there is none.
    fn gate(&mut self, side: usize, control: Output, value: usize) -> Result<u16, Full>
        ensures grows { OnOk result (Grows self.old self.new) }
        ensures gate { IfOk result (λ s. IsGate self.new.statements self.new.links
            self.new.values (a_gate control value s)) }
        ensures shared { OnOk result (SharesGate self.old self.new control value) }
    {
        match gate_of(&self.gates, control, value) {
            Some(switch) => Ok(switch),
            None => {
                let around = self.scope(side)?.around;
                let switch = self.add_gate(around, control, value)?;
                Ok(switch)
            }
        }
    }

    /// What the gate of a value sends into a side.
    pub fn gated(
        &mut self,
        side: usize,
        control: Output,
        on: bool,
        value: usize,
    ) -> Result<usize, Full>
        ensures grows { OnOk result (Grows self.old self.new) }
        ensures gated { IfOk result (λ w. IsGated self.new control on value w) }
        ensures shared { OnOk result (SharesGate self.old self.new control value) }
    {
        let switch = self.gate(side, control, value)?;
        self.add_value(Output {
            statement: switch,
            on_false: !on,
        })
    }

    /// Lets a loop carry a value under a name. Returns what the name is in the turns.
    pub fn carry(
        &mut self,
        turn: usize,
        number: u8,
        name: usize,
        value: usize,
    ) -> Result<usize, Full>
        ensures gives { IfOk result
            (λ v. Gives self.old self.new (kinds.Enter number) (value ∷ []) v) }
        ensures carried { OnOk result (self.new.carried ≡ self.old.carried
            ++ (a_carried turn name (length self.old.statements + 1) None ∷ [])) }
    {
        let around = self.scope(turn)?.around;
        let place = self.place(around)?;
        let enter = self.add(&place, &Kind::Enter(number), 0, &[value])?;
        self.carried.push(Carried {
            turn,
            name,
            enter,
            next: None,
        })?;
        self.add_value(output_of(enter))
    }

    /// What is carried, by its number from 0: the first loops first.
    pub fn carried(&self, number: usize) -> Option<Carried>
        ensures { result ≡ slice_get self.now.carried number }
    {
        match self.carried.get(number) {
            Some(carried) => Some(*carried),
            None => None,
        }
    }

    /// How much is carried.
    pub fn count_carried(&self) -> usize
        ensures { result ≡ length self.now.carried }
    {
        self.carried.len()
    }

    /// Lets a variable of the loop with these turns have that value in the next turn.
    pub fn set_next(&mut self, turn: usize, name: usize, value: usize) -> Result<(), Full>
        ensures same { self.new ≡ record self.old { carried = self.new.carried } }
        ensures sets { OnOk result (SetsNext turn name value self.old self.new) }
    {
        match open_next(&self.carried, turn, name) {
            Some(number) => {
                self.keep_next(number, value);
                Ok(())
            }
            None => Err(Full::Misplaced),
        }
    }

    /// Notes that what is carried under this number has that value in the next turn.
    fn keep_next(&mut self, number: usize, value: usize)
        ensures same { self.new ≡ record self.old { carried = self.new.carried } }
        ensures sets { (c : a_carried_value) → slice_get self.old.carried number ≡ Some c
            → self.new.carried ≡ slice_set self.old.carried number
            (record c { next = Some value }) }
    {
        if let Some(carried) = self.carried.get_mut(number) {
            carried.next = Some(value);
        }
    }

    /// Adds the `next` of what is carried under this number, which gets a value that the block of its loop has.
    pub fn add_next(&mut self, block: usize, number: usize, value: usize) -> Result<(), Full>
        ensures { OnOk result (AddsNext self.old self.new number value) }
    {
        let Some(carried) = self.carried(number) else {
            return Err(Full::Misplaced);
        };
        let place = self.place(block)?;
        self.add_going_on(&place, carried.enter, value)?;
        self.keep_next(number, value);
        Ok(())
    }

    /// The last value, which comes in the scope where a loop ends, outside of the loop.
    pub fn leave(&mut self, end: usize, value: usize) -> Result<usize, Full>
        ensures { IfOk result (λ v. Leaves self.old self.new value v) }
    {
        let last = self.add_unary(end, &Kind::Last, value)?;
        let turn = self.scope(end)?.around;
        self.add_unary(turn, &Kind::Leave, last)
    }

    /// Lets the procedure give that value.
    pub fn end(&mut self, value: usize) -> Result<(), Full>
        ensures { OnOk result (Adds self.old self.new kinds.End (value ∷ [])) }
    {
        let place = self.place(0)?;
        self.add(&place, &Kind::End, 0, &[value])?;
        Ok(())
    }

    /// The procedure as a block with this name. It is determinate, and keeps the rules of the checker.
    ///
    /// Promise no-other-arc: to each port of the block nothing leads, or exactly the outputs of one value, or
    /// one output to port 2 of a `switch`.
    pub fn finish(self, name: BlockName) -> Result<Block, Full>
        ensures block { IfOk result (λ b. IsBlockOf (limits_of versions.Two) b) }
        ensures determinate { IfOk result (λ b. IsDeterminateBlock b) }
        ensures kept { IfOk result (λ b. KeepsItself b) }
        ensures arcs { OnOk result (EachIsFed self.statements self.links self.values) }
        ensures finished { IfOk result (λ b. (loops : List ℕ)
            × IsFinished name (graph loops self.statements self.links) b) }
    {
        let broken = self.broken;
        if broken {
            return Err(Full::Misplaced);
        }
        let Drawing { graph, .. } = self;
        graph.complete(name)
    }
}
