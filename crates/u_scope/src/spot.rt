//! What a name means where it stands, and why it is not allowed there.
//!
//! What a name is shows at the tokens beside it and at the node after it. So names are judged one after
//! another, and nothing goes up and down the tree.
ghost use Rattle.std.specs.Prelude.{◌≡◌};
ghost use Rattle.u_scope.specs.Finding.{named};
ghost use Rattle.u_scope.specs.Meanings.{here, role, role_by, event_next, is_main, is_shown_by, is_over, own_name, parameters, procedure_meaning, defined, variable_meaning, next_meaning, next_by, called, used, why_unknown, judged, meaning};

use crate::check_error::CheckProblem;
use crate::checked::Meaning;
use crate::counting::{commas, given, has_next, in_loops_block};
use crate::entry::{Entry, Event, event_of, is_for};
use crate::finding::{Found, earlier, known, later, named, next_before, variable};
use crate::naming::{Sign, named_at, sign_at, sign_behind};
use u_name::BlockName;
use u_source::{Node, Token};

/// How many procedures a source may have.
const PROCEDURES: usize = 64;

/// What a name is where it stands.
#[derive(Clone, Copy)]
pub(crate) enum Role {
    /// The name of a procedure that is defined here.
    Procedure,
    /// A parameter.
    Parameter,
    /// A name that an item defines.
    Definition,
    /// A variable of a loop, with the value that it begins with.
    Variable,
    /// The variable of a `for` that counts.
    Counter,
    /// A variable of a loop, with its next value.
    Next,
    /// A name whose value is used.
    Use,
}

/// A name in a source, and what stands around it.
#[derive(Drop)]
pub(crate) struct Spot<'a> {
    /// The tokens of the source.
    pub tokens: &'a [Token],
    /// Its procedures.
    pub procedures: &'a [Entry],
    /// The nodes before the name in scopes that have not ended.
    pub scopes: &'a [Entry],
    /// The nodes before the name.
    pub before: &'a [Node],
    /// The nodes behind it.
    pub behind: &'a [Node],
    /// The number of its token.
    pub token: usize,
}

/// What a name is, by the token before it, the one behind it, and what the node behind it does.
fn role_by(before: Sign, after: Sign, behind: Event) -> Role
    ensures { result ≡ role_by before after behind }
{
    match (before, after, behind) {
        (Sign::Def, _, _) => Role::Procedure,
        (Sign::For, _, _) => Role::Counter,
        (Sign::Next, _, _) => Role::Next,
        (_, _, Event::Parameter) => Role::Parameter,
        (Sign::Loop, Sign::Becomes, _) => Role::Variable,
        (Sign::Comma, Sign::Becomes, _) => Role::Variable,
        (_, Sign::Becomes, _) => Role::Definition,
        _ => Role::Use,
    }
}

/// What the first of these nodes does.
fn event_next(nodes: &[Node]) -> Event
    ensures { result ≡ event_next nodes.now }
{
    match nodes.split_first() {
        Some((node, _)) => event_of(node.form),
        None => Event::Other,
    }
}

/// Whether the name is `main`.
fn is_main(name: BlockName) -> bool
    ensures { result ≡ is_main name }
{
    name.as_bytes() == b"main".as_slice()
}

/// How many parameters the procedure has that this token shows.
fn parameters(tokens: &[Token], token: usize) -> usize
    ensures { result ≡ parameters tokens.now token }
{
    if token > tokens.len() {
        return 1;
    }
    commas(&tokens[token..]) + 1
}

impl<'a> Spot<'a> {
    /// What the name is.
    fn role(&self) -> Role
        ensures { result ≡ role (here self.now) }
    {
        let before = sign_at(self.tokens, self.token.saturating_sub(1));
        let after = sign_behind(self.tokens, self.token, 1);
        role_by(before, after, event_next(self.behind))
    }

    /// Whether the token before the name shows the first of these procedures.
    fn is_shown_by(&self, procedures: &[Entry]) -> bool
        ensures { result ≡ is_shown_by self.now.token procedures.now }
    {
        match procedures.split_first() {
            Some((entry, _)) => entry.token == self.token.saturating_sub(1),
            None => false,
        }
    }

    /// Whether the name is that of the procedure behind the last one that is allowed.
    fn is_over(&self) -> bool
        ensures { result ≡ is_over self.now.token self.now.procedures.now }
    {
        if self.procedures.len() <= PROCEDURES {
            return false;
        }
        self.is_shown_by(&self.procedures[PROCEDURES..])
    }

    /// The procedure of this name is the one that is defined here.
    fn own_name(&self, name: BlockName, found: Found) -> Result<Meaning, CheckProblem>
        ensures { result ≡ own_name (here self.now) name found }
    {
        if found.token != self.token.saturating_sub(1) {
            return Err(CheckProblem::DefinedAlready(name, found.line));
        }
        if is_main(name) && parameters(self.tokens, found.token) != 1 {
            return Err(CheckProblem::MainParameters);
        }
        Ok(Meaning::Nothing)
    }

    /// The name of a procedure that is defined.
    fn procedure_meaning(&self, name: BlockName) -> Result<Meaning, CheckProblem>
        ensures { result ≡ procedure_meaning (here self.now) name }
    {
        if self.is_over() {
            return Err(CheckProblem::MoreProcedures);
        }
        match named(self.tokens, name, self.procedures) {
            Some(found) => self.own_name(name, found),
            None => Ok(Meaning::Nothing),
        }
    }

    /// A name that is defined, where the variables of a loop whose list has not ended count or not.
    fn defined(&self, name: BlockName, variables: bool) -> Result<Meaning, CheckProblem>
        ensures { result ≡ defined (here self.now) name variables }
    {
        if let Some(_) = named(self.tokens, name, self.procedures) {
            return Err(CheckProblem::IsProcedure(name));
        }
        match known(self.tokens, name, variables, self.scopes) {
            Some(found) => Err(CheckProblem::DefinedAlready(name, found.line)),
            None => Ok(Meaning::Nothing),
        }
    }

    /// A variable of a loop.
    fn variable_meaning(&self, name: BlockName) -> Result<Meaning, CheckProblem>
        ensures { result ≡ variable_meaning (here self.now) name }
    {
        match self.defined(name, true) {
            Ok(meaning) => {
                if has_next(self.tokens, name, self.behind) {
                    Ok(meaning)
                } else {
                    Err(CheckProblem::NoNext(name))
                }
            }
            Err(problem) => Err(problem),
        }
    }

    /// A next value of a variable of the loop.
    fn next_by(&self, name: BlockName, found: Found) -> Result<Meaning, CheckProblem>
        ensures { result ≡ next_by (here self.now) name found }
    {
        if is_for(sign_at(self.tokens, found.token)) {
            return Err(CheckProblem::SecondNext(name, found.line));
        }
        match next_before(self.tokens, name, self.scopes) {
            Some(line) => Err(CheckProblem::SecondNext(name, line)),
            None => Ok(Meaning::Name(found.number)),
        }
    }

    /// A next value.
    fn next_meaning(&self, name: BlockName) -> Result<Meaning, CheckProblem>
        ensures { result ≡ next_meaning (here self.now) name }
    {
        if !in_loops_block(self.behind) {
            return Err(CheckProblem::NextOutside);
        }
        match variable(self.tokens, name, self.scopes) {
            Some(found) => self.next_by(name, found),
            None => Err(CheckProblem::NoVariable(name)),
        }
    }

    /// The name of a procedure that is used.
    fn called(&self, name: BlockName, found: Found) -> Result<Meaning, CheckProblem>
        ensures { result ≡ called (here self.now) name found }
    {
        let meaning = Meaning::Procedure(found.number);
        match event_next(self.behind) {
            Event::Arguments => {
                let takes = parameters(self.tokens, found.token);
                let given = given(self.behind);
                if takes == given {
                    Ok(meaning)
                } else {
                    Err(CheckProblem::Arguments(name, takes, given))
                }
            }
            _ => Ok(meaning),
        }
    }

    /// Why a name is not known.
    fn why_unknown(&self, name: BlockName) -> CheckProblem
        ensures { result ≡ why_unknown (here self.now) name }
    {
        if let Some(line) = earlier(self.tokens, name, self.before) {
            return CheckProblem::NotKnownHere(name, line);
        }
        match later(self.tokens, name, self.behind) {
            Some(line) => CheckProblem::DefinedLater(name, line),
            None => CheckProblem::NotKnown(name),
        }
    }

    /// A name whose value is used.
    fn used(&self, name: BlockName) -> Result<Meaning, CheckProblem>
        ensures { result ≡ used (here self.now) name }
    {
        if let Some(found) = named(self.tokens, name, self.procedures) {
            return self.called(name, found);
        }
        match known(self.tokens, name, false, self.scopes) {
            Some(found) => Ok(Meaning::Name(found.number)),
            None => Err(self.why_unknown(name)),
        }
    }

    /// What this name means, by what it is.
    fn judged(&self, name: BlockName, role: Role) -> Result<Meaning, CheckProblem>
        ensures { result ≡ judged (here self.now) name role }
    {
        match role {
            Role::Procedure => self.procedure_meaning(name),
            Role::Parameter => self.defined(name, false),
            Role::Definition => self.defined(name, false),
            Role::Variable => self.variable_meaning(name),
            Role::Counter => self.defined(name, false),
            Role::Next => self.next_meaning(name),
            Role::Use => self.used(name),
        }
    }

    /// What the name means here.
    pub fn meaning(&self) -> Result<Meaning, CheckProblem>
        ensures { result ≡ meaning (here self.now) }
    {
        match named_at(self.tokens, self.token) {
            Some(found) => self.judged(found.name, self.role()),
            None => Ok(Meaning::Nothing),
        }
    }
}
