//! The rules of the grammar.
//!
//! The laws hold of any table. What depends on this one are finite checks: weights by which the loop ends
//! (`Measure`), the sorts of nodes (`OneTree`), and what may follow a part (`Soonest`).
ghost use Rattle.std.specs.Prelude.{◌≡◌};
ghost use Rattle.u_source.specs.Rules.{symbols};

use crate::form::Form;
use crate::mark::Mark;
use crate::part::Part;

/// What stands on the right side of a rule.
#[derive(Clone, Copy)]
pub(crate) enum Symbol {
    /// A keyword or a sign.
    Sign(Mark),
    /// A part of the source.
    Part(Part),
    /// A part of the source that is nested one level deeper.
    Inner(Part),
    /// No token: a node of the tree is made, whose children were made before.
    Make(Form),
}

/// A rule: what a part of the source consists of, without the token that it is chosen by. The comments give
/// the symbols of the right side in their order, a node that is made in braces.
#[derive(Clone, Copy)]
pub(crate) enum Rule {
    /// Nothing.
    Nothing,
    /// `{NoProcedures} Procedures`
    Source,
    /// `Name "(" {NoParameters} Name {AddParameter} SecondParameter ")" Block {AddProcedure} Procedures`
    Procedure,
    /// `Name {AddParameter} ThirdParameter`
    SecondParameter,
    /// `Name {AddParameter} FourthParameter`
    ThirdParameter,
    /// `Name {AddParameter} FifthParameter`
    FourthParameter,
    /// `{Name}`
    Name,
    /// `{NoItems} Items {Block}`
    Block,
    /// `Name "=" Expression ";" {Next} {AddItem} Items`
    Next,
    /// `Expression Block Else {If} IfEnd`
    IfItem,
    /// `{NoVariables} Name "=" Expression {AddVariable} Variables {Variables} "while" Expression Block Give {Loop} LoopEnd`
    LoopItem,
    /// `Name "in" Expression ".." Expression {NoVariables} Variables {Variables} Block Give {For} LoopEnd`
    ForItem,
    /// `{Name} AfterName`
    NameFirst,
    /// `{Number} AfterValue`
    NumberFirst,
    /// `{True} AfterValue`
    TrueFirst,
    /// `{False} AfterValue`
    FalseFirst,
    /// `Expression ")" AfterValue`
    GroupFirst,
    /// `Expression Last`
    ValueFirst,
    /// `{AddItem} Items`
    NextItem,
    /// `{AddValue}`
    Value,
    /// `Expression ";" {Define} {AddItem} Items`
    Definition,
    /// `Expression ";" {Write} {AddItem} Items`
    Write,
    /// `{Statement} {AddItem} Items`
    Statement,
    /// `Expression "]" {Index} AfterIndex`
    IndexFirst,
    /// `{NoArguments} Expression {AddArgument} SecondArgument ")" {Call} AfterCall`
    CallFirst,
    /// `Terms Sums Comparison Ands Ors Last`
    Operators,
    /// `Expression Block Else {If}`
    If,
    /// `{Otherwise} AfterElse {Else}`
    Else,
    /// `{NoElse}`
    NoElse,
    /// `{NoVariables} Name "=" Expression {AddVariable} Variables {Variables} "while" Expression Block Give {Loop}`
    Loop,
    /// `Name "in" Expression ".." Expression {NoVariables} Variables {Variables} Block Give {For}`
    For,
    /// `Name "=" Expression {AddVariable} Variables`
    Variable,
    /// `Expression {Give}`
    Give,
    /// `{NoGive}`
    NoGive,
    /// `Conjunction Ors`
    Expression,
    /// `Conjunction {Or} Ors`
    Or,
    /// `Test Ands`
    Conjunction,
    /// `Test {And} Ands`
    And,
    /// `Sum Comparison`
    Test,
    /// `Test {Not}`
    Not,
    /// `Sum {Less}`
    Less,
    /// `Sum {AtMost}`
    AtMost,
    /// `Sum {Greater}`
    Greater,
    /// `Sum {AtLeast}`
    AtLeast,
    /// `Sum {Equal}`
    Equal,
    /// `Sum {Unequal}`
    Unequal,
    /// `Term Sums`
    Sum,
    /// `Term {Add} Sums`
    Add,
    /// `Term {Subtract} Sums`
    Subtract,
    /// `Unary Terms`
    Term,
    /// `Unary {Multiply} Terms`
    Multiply,
    /// `Unary {Divide} Terms`
    Divide,
    /// `Unary {Remainder} Terms`
    Remainder,
    /// `Primary Posts`
    Unary,
    /// `Negated`
    Minus,
    /// `Unary {Array}`
    Array,
    /// `Unary {Length}`
    Length,
    /// `{Negative} Posts`
    Negative,
    /// `Unary {Negate}`
    Negate,
    /// `Expression "]" {Index} Posts`
    Index,
    /// `{NoArguments} Expression {AddArgument} SecondArgument ")" {Call} Posts`
    Call,
    /// `Expression {AddArgument} ThirdArgument`
    SecondArgument,
    /// `Expression {AddArgument} FourthArgument`
    ThirdArgument,
    /// `Expression {AddArgument} FifthArgument`
    FourthArgument,
    /// `{Number}`
    Number,
    /// `{True}`
    True,
    /// `{False}`
    False,
    /// `Expression ")"`
    Group,
}

/// The right side of a rule.
pub(crate) fn symbols(rule: Rule) -> &'static [Symbol]
    ensures { result.now ≡ symbols rule }
{
    match rule {
        Rule::Nothing => &[],
        Rule::Source => &[
            Symbol::Make(Form::NoProcedures),
            Symbol::Part(Part::Procedures),
        ],
        Rule::Procedure => &[
            Symbol::Part(Part::Name),
            Symbol::Sign(Mark::OpenParenthesis),
            Symbol::Make(Form::NoParameters),
            Symbol::Part(Part::Name),
            Symbol::Make(Form::AddParameter),
            Symbol::Part(Part::SecondParameter),
            Symbol::Sign(Mark::CloseParenthesis),
            Symbol::Part(Part::Block),
            Symbol::Make(Form::AddProcedure),
            Symbol::Part(Part::Procedures),
        ],
        Rule::SecondParameter => &[
            Symbol::Part(Part::Name),
            Symbol::Make(Form::AddParameter),
            Symbol::Part(Part::ThirdParameter),
        ],
        Rule::ThirdParameter => &[
            Symbol::Part(Part::Name),
            Symbol::Make(Form::AddParameter),
            Symbol::Part(Part::FourthParameter),
        ],
        Rule::FourthParameter => &[
            Symbol::Part(Part::Name),
            Symbol::Make(Form::AddParameter),
            Symbol::Part(Part::FifthParameter),
        ],
        Rule::Name => &[Symbol::Make(Form::Name)],
        Rule::Block => &[
            Symbol::Make(Form::NoItems),
            Symbol::Part(Part::Items),
            Symbol::Make(Form::Block),
        ],
        Rule::Next => &[
            Symbol::Part(Part::Name),
            Symbol::Sign(Mark::Becomes),
            Symbol::Part(Part::Expression),
            Symbol::Sign(Mark::Semicolon),
            Symbol::Make(Form::Next),
            Symbol::Make(Form::AddItem),
            Symbol::Part(Part::Items),
        ],
        Rule::IfItem => &[
            Symbol::Inner(Part::Expression),
            Symbol::Inner(Part::Block),
            Symbol::Inner(Part::Else),
            Symbol::Make(Form::If),
            Symbol::Part(Part::IfEnd),
        ],
        Rule::LoopItem => &[
            Symbol::Make(Form::NoVariables),
            Symbol::Part(Part::Name),
            Symbol::Sign(Mark::Becomes),
            Symbol::Inner(Part::Expression),
            Symbol::Make(Form::AddVariable),
            Symbol::Inner(Part::Variables),
            Symbol::Make(Form::Variables),
            Symbol::Sign(Mark::While),
            Symbol::Inner(Part::Expression),
            Symbol::Inner(Part::Block),
            Symbol::Inner(Part::Give),
            Symbol::Make(Form::Loop),
            Symbol::Part(Part::LoopEnd),
        ],
        Rule::ForItem => &[
            Symbol::Part(Part::Name),
            Symbol::Sign(Mark::In),
            Symbol::Inner(Part::Expression),
            Symbol::Sign(Mark::Dots),
            Symbol::Inner(Part::Expression),
            Symbol::Make(Form::NoVariables),
            Symbol::Inner(Part::Variables),
            Symbol::Make(Form::Variables),
            Symbol::Inner(Part::Block),
            Symbol::Inner(Part::Give),
            Symbol::Make(Form::For),
            Symbol::Part(Part::LoopEnd),
        ],
        Rule::NameFirst => &[Symbol::Make(Form::Name), Symbol::Part(Part::AfterName)],
        Rule::NumberFirst => &[Symbol::Make(Form::Number), Symbol::Part(Part::AfterValue)],
        Rule::TrueFirst => &[Symbol::Make(Form::True), Symbol::Part(Part::AfterValue)],
        Rule::FalseFirst => &[Symbol::Make(Form::False), Symbol::Part(Part::AfterValue)],
        Rule::GroupFirst => &[
            Symbol::Inner(Part::Expression),
            Symbol::Sign(Mark::CloseParenthesis),
            Symbol::Part(Part::AfterValue),
        ],
        Rule::ValueFirst => &[Symbol::Part(Part::Expression), Symbol::Part(Part::Last)],
        Rule::NextItem => &[Symbol::Make(Form::AddItem), Symbol::Part(Part::Items)],
        Rule::Value => &[Symbol::Make(Form::AddValue)],
        Rule::Definition => &[
            Symbol::Part(Part::Expression),
            Symbol::Sign(Mark::Semicolon),
            Symbol::Make(Form::Define),
            Symbol::Make(Form::AddItem),
            Symbol::Part(Part::Items),
        ],
        Rule::Write => &[
            Symbol::Part(Part::Expression),
            Symbol::Sign(Mark::Semicolon),
            Symbol::Make(Form::Write),
            Symbol::Make(Form::AddItem),
            Symbol::Part(Part::Items),
        ],
        Rule::Statement => &[
            Symbol::Make(Form::Statement),
            Symbol::Make(Form::AddItem),
            Symbol::Part(Part::Items),
        ],
        Rule::IndexFirst => &[
            Symbol::Inner(Part::Expression),
            Symbol::Sign(Mark::CloseBracket),
            Symbol::Make(Form::Index),
            Symbol::Part(Part::AfterIndex),
        ],
        Rule::CallFirst => &[
            Symbol::Make(Form::NoArguments),
            Symbol::Inner(Part::Expression),
            Symbol::Make(Form::AddArgument),
            Symbol::Inner(Part::SecondArgument),
            Symbol::Sign(Mark::CloseParenthesis),
            Symbol::Make(Form::Call),
            Symbol::Part(Part::AfterCall),
        ],
        Rule::Operators => &[
            Symbol::Part(Part::Terms),
            Symbol::Part(Part::Sums),
            Symbol::Part(Part::Comparison),
            Symbol::Part(Part::Ands),
            Symbol::Part(Part::Ors),
            Symbol::Part(Part::Last),
        ],
        Rule::If => &[
            Symbol::Inner(Part::Expression),
            Symbol::Inner(Part::Block),
            Symbol::Inner(Part::Else),
            Symbol::Make(Form::If),
        ],
        Rule::Else => &[
            Symbol::Make(Form::Otherwise),
            Symbol::Part(Part::AfterElse),
            Symbol::Make(Form::Else),
        ],
        Rule::NoElse => &[Symbol::Make(Form::NoElse)],
        Rule::Loop => &[
            Symbol::Make(Form::NoVariables),
            Symbol::Part(Part::Name),
            Symbol::Sign(Mark::Becomes),
            Symbol::Inner(Part::Expression),
            Symbol::Make(Form::AddVariable),
            Symbol::Inner(Part::Variables),
            Symbol::Make(Form::Variables),
            Symbol::Sign(Mark::While),
            Symbol::Inner(Part::Expression),
            Symbol::Inner(Part::Block),
            Symbol::Inner(Part::Give),
            Symbol::Make(Form::Loop),
        ],
        Rule::For => &[
            Symbol::Part(Part::Name),
            Symbol::Sign(Mark::In),
            Symbol::Inner(Part::Expression),
            Symbol::Sign(Mark::Dots),
            Symbol::Inner(Part::Expression),
            Symbol::Make(Form::NoVariables),
            Symbol::Inner(Part::Variables),
            Symbol::Make(Form::Variables),
            Symbol::Inner(Part::Block),
            Symbol::Inner(Part::Give),
            Symbol::Make(Form::For),
        ],
        Rule::Variable => &[
            Symbol::Part(Part::Name),
            Symbol::Sign(Mark::Becomes),
            Symbol::Part(Part::Expression),
            Symbol::Make(Form::AddVariable),
            Symbol::Part(Part::Variables),
        ],
        Rule::Give => &[Symbol::Part(Part::Expression), Symbol::Make(Form::Give)],
        Rule::NoGive => &[Symbol::Make(Form::NoGive)],
        Rule::Expression => &[Symbol::Part(Part::Conjunction), Symbol::Part(Part::Ors)],
        Rule::Or => &[
            Symbol::Part(Part::Conjunction),
            Symbol::Make(Form::Or),
            Symbol::Part(Part::Ors),
        ],
        Rule::Conjunction => &[Symbol::Part(Part::Test), Symbol::Part(Part::Ands)],
        Rule::And => &[
            Symbol::Part(Part::Test),
            Symbol::Make(Form::And),
            Symbol::Part(Part::Ands),
        ],
        Rule::Test => &[Symbol::Part(Part::Sum), Symbol::Part(Part::Comparison)],
        Rule::Not => &[Symbol::Inner(Part::Test), Symbol::Make(Form::Not)],
        Rule::Less => &[Symbol::Part(Part::Sum), Symbol::Make(Form::Less)],
        Rule::AtMost => &[Symbol::Part(Part::Sum), Symbol::Make(Form::AtMost)],
        Rule::Greater => &[Symbol::Part(Part::Sum), Symbol::Make(Form::Greater)],
        Rule::AtLeast => &[Symbol::Part(Part::Sum), Symbol::Make(Form::AtLeast)],
        Rule::Equal => &[Symbol::Part(Part::Sum), Symbol::Make(Form::Equal)],
        Rule::Unequal => &[Symbol::Part(Part::Sum), Symbol::Make(Form::Unequal)],
        Rule::Sum => &[Symbol::Part(Part::Term), Symbol::Part(Part::Sums)],
        Rule::Add => &[
            Symbol::Part(Part::Term),
            Symbol::Make(Form::Add),
            Symbol::Part(Part::Sums),
        ],
        Rule::Subtract => &[
            Symbol::Part(Part::Term),
            Symbol::Make(Form::Subtract),
            Symbol::Part(Part::Sums),
        ],
        Rule::Term => &[Symbol::Part(Part::Unary), Symbol::Part(Part::Terms)],
        Rule::Multiply => &[
            Symbol::Part(Part::Unary),
            Symbol::Make(Form::Multiply),
            Symbol::Part(Part::Terms),
        ],
        Rule::Divide => &[
            Symbol::Part(Part::Unary),
            Symbol::Make(Form::Divide),
            Symbol::Part(Part::Terms),
        ],
        Rule::Remainder => &[
            Symbol::Part(Part::Unary),
            Symbol::Make(Form::Remainder),
            Symbol::Part(Part::Terms),
        ],
        Rule::Unary => &[Symbol::Part(Part::Primary), Symbol::Part(Part::Posts)],
        Rule::Minus => &[Symbol::Inner(Part::Negated)],
        Rule::Array => &[Symbol::Inner(Part::Unary), Symbol::Make(Form::Array)],
        Rule::Length => &[Symbol::Inner(Part::Unary), Symbol::Make(Form::Length)],
        Rule::Negative => &[Symbol::Make(Form::Negative), Symbol::Part(Part::Posts)],
        Rule::Negate => &[Symbol::Part(Part::Unary), Symbol::Make(Form::Negate)],
        Rule::Index => &[
            Symbol::Inner(Part::Expression),
            Symbol::Sign(Mark::CloseBracket),
            Symbol::Make(Form::Index),
            Symbol::Part(Part::Posts),
        ],
        Rule::Call => &[
            Symbol::Make(Form::NoArguments),
            Symbol::Inner(Part::Expression),
            Symbol::Make(Form::AddArgument),
            Symbol::Inner(Part::SecondArgument),
            Symbol::Sign(Mark::CloseParenthesis),
            Symbol::Make(Form::Call),
            Symbol::Part(Part::Posts),
        ],
        Rule::SecondArgument => &[
            Symbol::Part(Part::Expression),
            Symbol::Make(Form::AddArgument),
            Symbol::Part(Part::ThirdArgument),
        ],
        Rule::ThirdArgument => &[
            Symbol::Part(Part::Expression),
            Symbol::Make(Form::AddArgument),
            Symbol::Part(Part::FourthArgument),
        ],
        Rule::FourthArgument => &[
            Symbol::Part(Part::Expression),
            Symbol::Make(Form::AddArgument),
            Symbol::Part(Part::FifthArgument),
        ],
        Rule::Number => &[Symbol::Make(Form::Number)],
        Rule::True => &[Symbol::Make(Form::True)],
        Rule::False => &[Symbol::Make(Form::False)],
        Rule::Group => &[
            Symbol::Inner(Part::Expression),
            Symbol::Sign(Mark::CloseParenthesis),
        ],
    }
}
