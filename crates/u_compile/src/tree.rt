//! What stands around the nodes of a syntax tree.
ghost use Rattle.std.specs.Prelude.{◌≡◌, ◌+◌, ◌-◌, ◌<◌, ◌≤◌, ◌↔◌, length, slice_get, slice_set, Some, IfNone, IfOk, IfSome, IsTrue, MatchResult, OnOk};
ghost use Rattle.u_source.specs.Trees.{children};
ghost use Rattle.u_compile.specs.Forests.{Adopts, AreParents, AreWanted, IsWantedBy, wanted_below};
ghost use Rattle.u_source.specs.declared.form.Form.TheVariants as forms;
ghost use Rattle.u_source.specs.declared.token.Word.TheVariants as words;
ghost use Rattle.u_compile.specs.Trees.{HasForm, IsAround, IsAtWord, IsAtomAt, IsCellWritten, IsChoice, IsEither, IsJustAtom, IsParent, IsUsedFrom, IsVariable, IsWanted, StandsInTest, is_apart, is_atom};

use crate::graph::Full;
use std::alloc::Global;
use u_name::BlockName;
use u_scope::Meaning;
use u_source::{Form, Node, Position, Token, Word};

/// How many children a node of the form has.
fn children(form: Form) -> usize
    ensures { result ≡ length (children form) }
{
    match form {
        Form::Name
        | Form::Number
        | Form::Negative
        | Form::True
        | Form::False
        | Form::NoElse
        | Form::Otherwise
        | Form::NoGive
        | Form::NoArguments
        | Form::NoVariables
        | Form::NoItems
        | Form::NoParameters
        | Form::NoProcedures => 0,
        Form::Not
        | Form::Negate
        | Form::Array
        | Form::Length
        | Form::Give
        | Form::Variables
        | Form::Block
        | Form::Statement => 1,
        Form::If | Form::AddVariable => 3,
        Form::Loop | Form::AddProcedure => 4,
        Form::For => 6,
        _ => 2,
    }
}

/// Lets a node have that parent.
fn set_parent(parents: &mut Vec<usize>, child: usize, parent: usize) -> Result<(), Full>
    ensures there { OnOk result (child < length parents.old.items) }
    ensures sets { OnOk result (parents.new.items ≡ slice_set parents.old.items child parent) }
{
    if child >= parents.len() {
        return Err(Full::Misplaced);
    }
    parents[child] = parent;
    Ok(())
}

/// Takes so many of the last roots as children of the node with this number.
fn adopt(
    parents: &mut Vec<usize>,
    roots: &mut Vec<usize>,
    number: usize,
    count: usize,
) -> Result<(), Full>
    ensures { OnOk result (Adopts number count parents.old.items roots.old.items
        parents.new.items roots.new.items) }
{
    'adopting: for _ in 0..count {
        let Some(child) = roots.pop() else {
            return Err(Full::Misplaced);
        };
        set_parent(parents, child, number)?;
    }
    Ok(())
}

/// The node with this number.
fn node_at(nodes: &[Node], number: usize) -> Result<Node, Full>
    ensures { IfOk result (λ n. slice_get nodes.now number ≡ Some n) }
{
    match nodes.get(number) {
        Some(node) => Ok(*node),
        None => Err(Full::Misplaced),
    }
}

/// For each node its parent; for the root, its own number.
fn parents(alloc: Global, nodes: &[Node]) -> Result<Vec<usize>, Full>
    ensures { IfOk result (λ ps. AreParents nodes.now ps.items) }
{
    let mut parents: Vec<usize> = Vec::new(alloc);
    let mut roots: Vec<usize> = Vec::new(alloc);
    for number in 0..nodes.len() {
        let node = node_at(nodes, number)?;
        adopt(&mut parents, &mut roots, number, children(node.form))?;
        parents.push(number)?;
        roots.push(number)?;
    }
    Ok(parents)
}

/// Whether the value of a node is wanted, if it is an `if`, a loop or a block, where its parent has this form, and
/// the value of the parent is wanted or not.
fn is_wanted_below(form: Form, parent: Form, wanted: bool) -> bool
    ensures { result ≡ wanted_below form parent wanted }
{
    match parent {
        Form::AddItem => false,
        Form::Loop | Form::For => !matches!(form, Form::Block),
        Form::AddValue | Form::Else | Form::Block => wanted,
        Form::If => wanted || !matches!(form, Form::Block | Form::Else),
        _ => true,
    }
}

/// The parent of the node with this number.
fn parent_at(parents: &[usize], number: usize) -> Result<usize, Full>
    ensures { IfOk result (λ p. slice_get parents.now number ≡ Some p) }
{
    match parents.get(number) {
        Some(parent) => Ok(*parent),
        None => Err(Full::Misplaced),
    }
}

/// Whether the value of the node with this number is wanted, where the list says it of the nodes behind it, from the
/// last one on.
fn is_wanted_with(
    nodes: &[Node],
    parents: &[usize],
    behind: &[bool],
    number: usize,
) -> Result<bool, Full>
    requires { length behind.now + 1 + number ≡ length nodes.now }
    ensures { IfOk result (IsWantedBy nodes.now parents.now behind.now number) }
{
    let node = node_at(nodes, number)?;
    let parent = parent_at(parents, number)?;
    let above = node_at(nodes, parent)?;
    match is_wanted_at(behind, nodes.len(), parent) {
        Some(wanted) => Ok(is_wanted_below(node.form, above.form, wanted)),
        None => Ok(is_wanted_below(node.form, above.form, true)),
    }
}

/// For each node, from the last one on, whether its value is wanted, if it is an `if`, a loop or a block.
fn wanted(alloc: Global, nodes: &[Node], parents: &[usize]) -> Result<Vec<bool>, Full>
    ensures { IfOk result (λ ws. AreWanted nodes.now parents.now ws.items) }
{
    let mut wanted: Vec<bool> = Vec::new(alloc);
    for back in 0..nodes.len() {
        let number = nodes.len() - 1 - back;
        let is_wanted = is_wanted_with(nodes, parents, &wanted, number)?;
        wanted.push(is_wanted)?;
    }
    Ok(wanted)
}

/// Of a list from the last of so many nodes on, what it says of the node with this number.
fn is_wanted_at(wanted: &[bool], count: usize, number: usize) -> Option<bool>
    ensures some { IfSome result (λ b. (number < count)
        × (slice_get wanted.now (count - 1 - number) ≡ Some b)) }
    ensures none { IfNone result (number < count → length wanted.now ≤ count - 1 - number) }
{
    if number >= count {
        return None;
    }
    match wanted.get(count - 1 - number) {
        Some(is_wanted) => Some(*is_wanted),
        None => None,
    }
}

/// Whether the form is the one or the other.
fn is_either(form: Form, one: Form, other: Form) -> bool
    ensures { IsTrue result ↔ IsEither form one other }
{
    form == one || form == other
}

/// The nodes of a source, and what stands around them.
#[derive(Drop)]
pub(crate) struct Tree<'a> {
    tokens: &'a [Token],
    nodes: &'a [Node],
    meanings: &'a [Meaning],
    parents: Vec<usize>,
    wanted: Vec<bool>,
}

impl<'a> Tree<'a> {
    /// The tree of these nodes.
    pub fn new(
        alloc: Global,
        tokens: &'a [Token],
        nodes: &'a [Node],
        meanings: &'a [Meaning],
    ) -> Result<Tree<'a>, Full>
        ensures tokens { IfOk result (λ t. t.tokens.now ≡ tokens.now) }
        ensures nodes { IfOk result (λ t. t.nodes.now ≡ nodes.now) }
        ensures meanings { IfOk result (λ t. t.meanings.now ≡ meanings.now) }
        ensures parents { IfOk result (λ t. AreParents nodes.now t.parents.items) }
        ensures wanted { IfOk result
            (λ t. AreWanted nodes.now t.parents.items t.wanted.items) }
    {
        let parents = parents(alloc, nodes)?;
        let wanted = wanted(alloc, nodes, &parents)?;
        Ok(Tree {
            tokens,
            nodes,
            meanings,
            parents,
            wanted,
        })
    }

    /// How many nodes it has.
    pub fn len(&self) -> usize
        ensures { result ≡ length self.now.nodes.now }
    {
        self.nodes.len()
    }

    /// The node with this number.
    pub fn node(&self, number: usize) -> Result<Node, Full>
        ensures { MatchResult result (λ n. slice_get self.now.nodes.now number ≡ Some n)
            (λ _. length self.now.nodes.now ≤ number) }
    {
        match self.nodes.get(number) {
            Some(node) => Ok(*node),
            None => Err(Full::Misplaced),
        }
    }

    /// The form of the node with this number.
    pub fn form(&self, number: usize) -> Result<Form, Full>
        ensures { MatchResult result (λ form. HasForm self.now number form)
            (λ _. length self.now.nodes.now ≤ number) }
    {
        match self.nodes.get(number) {
            Some(node) => Ok(node.form),
            None => Err(Full::Misplaced),
        }
    }

    /// The parent of the node with this number; of the root, the root.
    pub fn parent(&self, number: usize) -> Result<usize, Full>
        ensures { MatchResult result (λ p. IsParent self.now p number)
            (λ _. length self.now.parents.items ≤ number) }
    {
        match self.parents.get(number) {
            Some(parent) => Ok(*parent),
            None => Err(Full::Misplaced),
        }
    }

    /// Whether the cell that the node is, is written: it is the first child of a write.
    pub fn is_cell_written(&self, number: usize) -> Result<bool, Full>
        ensures { IfOk result (λ b. IsTrue b ↔ IsCellWritten self.now number) }
    {
        let parent = self.parent(number)?;
        let form = self.form(parent)?;
        Ok(form == Form::Write && number.checked_add(1) != Some(parent))
    }

    /// Whether the value of the node with this number is wanted, if it is an `if`, a loop or a block.
    pub fn is_wanted(&self, number: usize) -> Result<bool, Full>
        ensures { IfOk result (λ b. IsWanted self.now number b) }
    {
        match is_wanted_at(&self.wanted, self.nodes.len(), number) {
            Some(is_wanted) => Ok(is_wanted),
            None => Err(Full::Misplaced),
        }
    }

    /// What the node with this number means.
    pub fn meaning(&self, number: usize) -> Result<Meaning, Full>
        ensures { MatchResult result (λ m. slice_get self.now.meanings.now number ≡ Some m)
            (λ _. length self.now.meanings.now ≤ number) }
    {
        match self.meanings.get(number) {
            Some(meaning) => Ok(*meaning),
            None => Err(Full::Misplaced),
        }
    }

    /// The first node around this one that has the form or the other.
    pub fn around(&self, number: usize, form: Form, other: Form) -> Result<usize, Full>
        ensures { IfOk result (λ outer. IsAround self.now form other outer number) }
    {
        let mut at = number;
        'outwards: for _ in 0..self.nodes.len() {
            let parent = self.parent(at)?;
            let found = self.form(parent)?;
            if is_either(found, form, other) {
                return Ok(parent);
            }
            at = parent;
        }
        Err(Full::Misplaced)
    }

    /// Whether the node stands in the test of the loop outside of sides and inner loops.
    pub fn is_in_test(&self, number: usize, whole: usize) -> Result<bool, Full>
        ensures { IfOk result (λ b. IsTrue b ↔ StandsInTest self.now whole number) }
    {
        let mut at = number;
        'upwards: for _ in number..whole {
            at = self.parent(at)?;
            if at == whole {
                return Ok(true);
            }
            if is_apart(self.form(at)?) {
                return Ok(false);
            }
        }
        Err(Full::Misplaced)
    }

    /// Whether the node is a `for`.
    pub fn is_for(&self, number: usize) -> Result<bool, Full>
        ensures { IfOk result (λ b. IsTrue b ↔ HasForm self.now number forms.For) }
    {
        let form = self.form(number)?;
        Ok(form == Form::For)
    }

    /// Whether the name that is known from the node is a variable of the loop.
    pub fn is_variable(&self, whole: usize, name: usize) -> Result<bool, Full>
        ensures { IfOk result (λ b. IsTrue b ↔ IsVariable self.now whole name) }
    {
        let form = self.form(name)?;
        if !is_either(form, Form::AddVariable, Form::NoVariables) {
            return Ok(false);
        }
        let outer = self.around(name, Form::Loop, Form::For)?;
        Ok(outer == whole)
    }

    /// Whether a node from the first on, before the last, uses the name.
    pub fn is_used(&self, first: usize, last: usize, name: usize) -> Result<bool, Full>
        ensures { IfOk result (λ b. IsTrue b ↔ IsUsedFrom self.now first last name) }
    {
        for at in first..last {
            if self.meaning(at)? == Meaning::Name(name) {
                return Ok(true);
            }
        }
        Ok(false)
    }

    /// Whether the node has that form.
    fn has_form(&self, number: usize, form: Form) -> bool
        ensures { IsTrue result ↔ HasForm self.now number form }
    {
        match self.form(number) {
            Ok(found) => is_either(found, form, form),
            Err(_) => false,
        }
    }

    /// Whether the node is a name or a constant.
    fn is_atom(&self, number: usize) -> bool
        ensures { IsTrue result ↔ IsAtomAt self.now number }
    {
        match self.form(number) {
            Ok(form) => is_atom(form),
            Err(_) => false,
        }
    }

    /// Whether the block whose items begin at the first of the nodes, and which ends with the last, is just a name or a
    /// constant.
    fn is_just_atom(&self, first: usize, last: usize) -> bool
        requires { last ≡ first + 3 }
        ensures { IsTrue result ↔ IsJustAtom self.now first }
    {
        self.has_form(first, Form::NoItems)
            && self.is_atom(first + 1)
            && self.has_form(first + 2, Form::AddValue)
            && self.has_form(last, Form::Block)
    }

    /// Whether both sides of the `if` that ends with node `whole`, and whose first side begins at the other, are just a
    /// name or a constant.
    pub fn is_choice(&self, number: usize, whole: usize) -> bool
        ensures { IsTrue result ↔ IsChoice self.now number whole }
    {
        if whole.checked_sub(number) != Some(10) {
            return false;
        }
        self.is_just_atom(number, number + 3)
            && self.has_form(number + 4, Form::Otherwise)
            && self.is_just_atom(number + 5, number + 8)
            && self.has_form(number + 9, Form::Else)
    }

    /// The place of the token with this number, or of the first byte where there is none.
    pub fn place_at(&self, token: usize) -> Position {
        match self.tokens.get(token) {
            Some(token) => token.place(),
            None => Position::start(),
        }
    }

    /// The place of the node with this number, or of the first byte where there is none.
    pub fn place_of(&self, number: usize) -> Position {
        match self.nodes.get(number) {
            Some(node) => self.place_at(node.token),
            None => Position::start(),
        }
    }

    /// The name that a node is.
    pub fn name_of(&self, number: usize) -> Result<BlockName, Full>
        ensures { IfOk result (λ name. IsAtWord self.now number (words.Name name)) }
    {
        let node = self.node(number)?;
        match self.tokens.get(node.token) {
            Some(token) => match token.word() {
                Word::Name(name) => Ok(name),
                _ => Err(Full::Misplaced),
            },
            None => Err(Full::Misplaced),
        }
    }

    /// The number that a node is, without its sign.
    pub fn number_of(&self, number: usize) -> Result<u64, Full>
        ensures { IfOk result (λ n. IsAtWord self.now number (words.Number n)) }
    {
        let node = self.node(number)?;
        match self.tokens.get(node.token) {
            Some(token) => match token.word() {
                Word::Number(number) => Ok(number),
                _ => Err(Full::Misplaced),
            },
            None => Err(Full::Misplaced),
        }
    }
}

/// Whether a node of that form is a name or a constant.
fn is_atom(form: Form) -> bool
    ensures { result ≡ is_atom form }
{
    matches!(
        form,
        Form::Name | Form::Number | Form::Negative | Form::True | Form::False
    )
}

/// Whether what stands below a node of that form is no part of the test of the loop around it.
pub(crate) fn is_apart(form: Form) -> bool
    ensures { result ≡ is_apart form }
{
    matches!(
        form,
        Form::Block | Form::Else | Form::Loop | Form::For | Form::Give
    )
}
