//! The parts of a source, and which rule the next token chooses.
ghost use Rattle.std.specs.Prelude.{◌≡◌};
ghost use Rattle.u_source.specs.Parts.{rows, otherwise};

use crate::mark::Mark;
use crate::rule::Rule;
use crate::source_error::Expected;

/// A part of a source.
#[derive(Clone, Copy)]
pub(crate) enum Part {
    /// A whole source.
    Source,
    /// The procedures that follow.
    Procedures,
    /// A second parameter and those behind it.
    SecondParameter,
    /// A third parameter and those behind it.
    ThirdParameter,
    /// A fourth parameter.
    FourthParameter,
    /// No fifth parameter.
    FifthParameter,
    /// A name.
    Name,
    /// A block.
    Block,
    /// The items of a block that follow, and its end.
    Items,
    /// What may follow an `if` among the items.
    IfEnd,
    /// What may follow a loop among the items.
    LoopEnd,
    /// What may follow a name at the front of an item.
    AfterName,
    /// What may follow a value at the front of an item.
    AfterValue,
    /// What may follow a cell at the front of an item.
    AfterIndex,
    /// What may follow a call at the front of an item.
    AfterCall,
    /// The end of a block behind its value.
    Last,
    /// An `else`, or none.
    Else,
    /// What follows `else`.
    AfterElse,
    /// The loop variables that follow.
    Variables,
    /// A `give`, or none.
    Give,
    /// An expression.
    Expression,
    /// More operands of `or`.
    Ors,
    /// An operand of `or`.
    Conjunction,
    /// More operands of `and`.
    Ands,
    /// An operand of `and`.
    Test,
    /// A comparison with a second sum, or none.
    Comparison,
    /// A sum.
    Sum,
    /// More terms of a sum.
    Sums,
    /// A term.
    Term,
    /// More factors of a term.
    Terms,
    /// A factor.
    Unary,
    /// What follows a minus that stands before a factor.
    Negated,
    /// Indices and arguments behind a value.
    Posts,
    /// A second argument and those behind it.
    SecondArgument,
    /// A third argument and those behind it.
    ThirdArgument,
    /// A fourth argument.
    FourthArgument,
    /// No fifth argument.
    FifthArgument,
    /// A value.
    Primary,
}

/// A kind of token, by which a rule is chosen.
#[derive(Clone, Copy)]
pub(crate) enum Kind {
    /// A keyword or a sign.
    Sign(Mark),
    /// A name.
    Name,
    /// A number below 2^63.
    Number,
    /// The number 2^63.
    TwoTo63,
    /// No token: the end of the text.
    End,
}

/// Why no rule goes on at a token.
#[derive(Clone, Copy)]
pub(crate) enum Stop {
    /// It is not what is expected.
    Wants(Expected),
    /// It begins a fifth parameter.
    MoreParameters,
    /// It begins a fifth argument.
    MoreArguments,
    /// It is the number 2^63, without a minus before it.
    NumberRange,
    /// It is a `;` behind a value that is no call.
    Nowhere,
    /// It opens one level of nesting too many.
    TooDeep,
}

/// What a token chooses.
#[derive(Clone, Copy)]
pub(crate) enum Outcome {
    /// A rule.
    Goes(Rule),
    /// No rule.
    Stops(Stop),
}

/// A kind of token, and what it chooses.
#[derive(Clone, Copy)]
pub(crate) struct Row {
    /// The kind of token.
    pub kind: Kind,
    /// What it chooses.
    pub outcome: Outcome,
}

/// What is done where the next token chooses nothing.
#[derive(Clone, Copy)]
pub(crate) enum Fallback {
    /// This rule, which takes no token.
    Goes(Rule),
    /// The token is refused, and this was expected.
    Wants(Expected),
}

/// What the next token chooses for a part of a source, by its kind.
pub(crate) fn rows(part: Part) -> &'static [Row]
    ensures { result.now ≡ rows part }
{
    match part {
        Part::Source => &[],
        Part::Procedures => &[Row {
            kind: Kind::Sign(Mark::Def),
            outcome: Outcome::Goes(Rule::Procedure),
        }],
        Part::SecondParameter => &[Row {
            kind: Kind::Sign(Mark::Comma),
            outcome: Outcome::Goes(Rule::SecondParameter),
        }],
        Part::ThirdParameter => &[Row {
            kind: Kind::Sign(Mark::Comma),
            outcome: Outcome::Goes(Rule::ThirdParameter),
        }],
        Part::FourthParameter => &[Row {
            kind: Kind::Sign(Mark::Comma),
            outcome: Outcome::Goes(Rule::FourthParameter),
        }],
        Part::FifthParameter => &[Row {
            kind: Kind::Sign(Mark::Comma),
            outcome: Outcome::Stops(Stop::MoreParameters),
        }],
        Part::Name => &[Row {
            kind: Kind::Name,
            outcome: Outcome::Goes(Rule::Name),
        }],
        Part::Block => &[Row {
            kind: Kind::Sign(Mark::OpenBrace),
            outcome: Outcome::Goes(Rule::Block),
        }],
        Part::Items => &[
            Row {
                kind: Kind::Sign(Mark::CloseBrace),
                outcome: Outcome::Goes(Rule::Nothing),
            },
            Row {
                kind: Kind::Sign(Mark::Next),
                outcome: Outcome::Goes(Rule::Next),
            },
            Row {
                kind: Kind::Sign(Mark::If),
                outcome: Outcome::Goes(Rule::IfItem),
            },
            Row {
                kind: Kind::Sign(Mark::Loop),
                outcome: Outcome::Goes(Rule::LoopItem),
            },
            Row {
                kind: Kind::Sign(Mark::For),
                outcome: Outcome::Goes(Rule::ForItem),
            },
            Row {
                kind: Kind::Name,
                outcome: Outcome::Goes(Rule::NameFirst),
            },
            Row {
                kind: Kind::Number,
                outcome: Outcome::Goes(Rule::NumberFirst),
            },
            Row {
                kind: Kind::TwoTo63,
                outcome: Outcome::Stops(Stop::NumberRange),
            },
            Row {
                kind: Kind::Sign(Mark::True),
                outcome: Outcome::Goes(Rule::TrueFirst),
            },
            Row {
                kind: Kind::Sign(Mark::False),
                outcome: Outcome::Goes(Rule::FalseFirst),
            },
            Row {
                kind: Kind::Sign(Mark::OpenParenthesis),
                outcome: Outcome::Goes(Rule::GroupFirst),
            },
        ],
        Part::IfEnd => &[
            Row {
                kind: Kind::Sign(Mark::Semicolon),
                outcome: Outcome::Goes(Rule::NextItem),
            },
            Row {
                kind: Kind::Sign(Mark::CloseBrace),
                outcome: Outcome::Goes(Rule::Value),
            },
        ],
        Part::LoopEnd => &[
            Row {
                kind: Kind::Sign(Mark::Semicolon),
                outcome: Outcome::Goes(Rule::NextItem),
            },
            Row {
                kind: Kind::Sign(Mark::CloseBrace),
                outcome: Outcome::Goes(Rule::Value),
            },
        ],
        Part::AfterName => &[
            Row {
                kind: Kind::Sign(Mark::Becomes),
                outcome: Outcome::Goes(Rule::Definition),
            },
            Row {
                kind: Kind::Sign(Mark::OpenBracket),
                outcome: Outcome::Goes(Rule::IndexFirst),
            },
            Row {
                kind: Kind::Sign(Mark::OpenParenthesis),
                outcome: Outcome::Goes(Rule::CallFirst),
            },
        ],
        Part::AfterValue => &[
            Row {
                kind: Kind::Sign(Mark::OpenBracket),
                outcome: Outcome::Goes(Rule::IndexFirst),
            },
            Row {
                kind: Kind::Sign(Mark::OpenParenthesis),
                outcome: Outcome::Goes(Rule::CallFirst),
            },
        ],
        Part::AfterIndex => &[
            Row {
                kind: Kind::Sign(Mark::Becomes),
                outcome: Outcome::Goes(Rule::Write),
            },
            Row {
                kind: Kind::Sign(Mark::OpenBracket),
                outcome: Outcome::Goes(Rule::IndexFirst),
            },
            Row {
                kind: Kind::Sign(Mark::OpenParenthesis),
                outcome: Outcome::Goes(Rule::CallFirst),
            },
        ],
        Part::AfterCall => &[
            Row {
                kind: Kind::Sign(Mark::Semicolon),
                outcome: Outcome::Goes(Rule::Statement),
            },
            Row {
                kind: Kind::Sign(Mark::OpenBracket),
                outcome: Outcome::Goes(Rule::IndexFirst),
            },
            Row {
                kind: Kind::Sign(Mark::OpenParenthesis),
                outcome: Outcome::Goes(Rule::CallFirst),
            },
        ],
        Part::Last => &[
            Row {
                kind: Kind::Sign(Mark::CloseBrace),
                outcome: Outcome::Goes(Rule::Value),
            },
            Row {
                kind: Kind::Sign(Mark::Semicolon),
                outcome: Outcome::Stops(Stop::Nowhere),
            },
        ],
        Part::Else => &[Row {
            kind: Kind::Sign(Mark::Else),
            outcome: Outcome::Goes(Rule::Else),
        }],
        Part::AfterElse => &[
            Row {
                kind: Kind::Sign(Mark::If),
                outcome: Outcome::Goes(Rule::If),
            },
            Row {
                kind: Kind::Sign(Mark::OpenBrace),
                outcome: Outcome::Goes(Rule::Block),
            },
        ],
        Part::Variables => &[Row {
            kind: Kind::Sign(Mark::Comma),
            outcome: Outcome::Goes(Rule::Variable),
        }],
        Part::Give => &[Row {
            kind: Kind::Sign(Mark::Give),
            outcome: Outcome::Goes(Rule::Give),
        }],
        Part::Expression => &[],
        Part::Ors => &[Row {
            kind: Kind::Sign(Mark::Or),
            outcome: Outcome::Goes(Rule::Or),
        }],
        Part::Conjunction => &[],
        Part::Ands => &[Row {
            kind: Kind::Sign(Mark::And),
            outcome: Outcome::Goes(Rule::And),
        }],
        Part::Test => &[Row {
            kind: Kind::Sign(Mark::Not),
            outcome: Outcome::Goes(Rule::Not),
        }],
        Part::Comparison => &[
            Row {
                kind: Kind::Sign(Mark::Less),
                outcome: Outcome::Goes(Rule::Less),
            },
            Row {
                kind: Kind::Sign(Mark::AtMost),
                outcome: Outcome::Goes(Rule::AtMost),
            },
            Row {
                kind: Kind::Sign(Mark::Greater),
                outcome: Outcome::Goes(Rule::Greater),
            },
            Row {
                kind: Kind::Sign(Mark::AtLeast),
                outcome: Outcome::Goes(Rule::AtLeast),
            },
            Row {
                kind: Kind::Sign(Mark::Equal),
                outcome: Outcome::Goes(Rule::Equal),
            },
            Row {
                kind: Kind::Sign(Mark::Unequal),
                outcome: Outcome::Goes(Rule::Unequal),
            },
        ],
        Part::Sum => &[],
        Part::Sums => &[
            Row {
                kind: Kind::Sign(Mark::Plus),
                outcome: Outcome::Goes(Rule::Add),
            },
            Row {
                kind: Kind::Sign(Mark::Minus),
                outcome: Outcome::Goes(Rule::Subtract),
            },
        ],
        Part::Term => &[],
        Part::Terms => &[
            Row {
                kind: Kind::Sign(Mark::Times),
                outcome: Outcome::Goes(Rule::Multiply),
            },
            Row {
                kind: Kind::Sign(Mark::Divide),
                outcome: Outcome::Goes(Rule::Divide),
            },
            Row {
                kind: Kind::Sign(Mark::Remainder),
                outcome: Outcome::Goes(Rule::Remainder),
            },
        ],
        Part::Unary => &[
            Row {
                kind: Kind::Sign(Mark::Minus),
                outcome: Outcome::Goes(Rule::Minus),
            },
            Row {
                kind: Kind::Sign(Mark::Array),
                outcome: Outcome::Goes(Rule::Array),
            },
            Row {
                kind: Kind::Sign(Mark::Length),
                outcome: Outcome::Goes(Rule::Length),
            },
        ],
        Part::Negated => &[
            Row {
                kind: Kind::Number,
                outcome: Outcome::Goes(Rule::Negative),
            },
            Row {
                kind: Kind::TwoTo63,
                outcome: Outcome::Goes(Rule::Negative),
            },
        ],
        Part::Posts => &[
            Row {
                kind: Kind::Sign(Mark::OpenBracket),
                outcome: Outcome::Goes(Rule::Index),
            },
            Row {
                kind: Kind::Sign(Mark::OpenParenthesis),
                outcome: Outcome::Goes(Rule::Call),
            },
        ],
        Part::SecondArgument => &[Row {
            kind: Kind::Sign(Mark::Comma),
            outcome: Outcome::Goes(Rule::SecondArgument),
        }],
        Part::ThirdArgument => &[Row {
            kind: Kind::Sign(Mark::Comma),
            outcome: Outcome::Goes(Rule::ThirdArgument),
        }],
        Part::FourthArgument => &[Row {
            kind: Kind::Sign(Mark::Comma),
            outcome: Outcome::Goes(Rule::FourthArgument),
        }],
        Part::FifthArgument => &[Row {
            kind: Kind::Sign(Mark::Comma),
            outcome: Outcome::Stops(Stop::MoreArguments),
        }],
        Part::Primary => &[
            Row {
                kind: Kind::Number,
                outcome: Outcome::Goes(Rule::Number),
            },
            Row {
                kind: Kind::TwoTo63,
                outcome: Outcome::Stops(Stop::NumberRange),
            },
            Row {
                kind: Kind::Sign(Mark::True),
                outcome: Outcome::Goes(Rule::True),
            },
            Row {
                kind: Kind::Sign(Mark::False),
                outcome: Outcome::Goes(Rule::False),
            },
            Row {
                kind: Kind::Name,
                outcome: Outcome::Goes(Rule::Name),
            },
            Row {
                kind: Kind::Sign(Mark::OpenParenthesis),
                outcome: Outcome::Goes(Rule::Group),
            },
            Row {
                kind: Kind::Sign(Mark::If),
                outcome: Outcome::Goes(Rule::If),
            },
            Row {
                kind: Kind::Sign(Mark::Loop),
                outcome: Outcome::Goes(Rule::Loop),
            },
            Row {
                kind: Kind::Sign(Mark::For),
                outcome: Outcome::Goes(Rule::For),
            },
        ],
    }
}

/// What is done for a part of a source where the next token chooses nothing.
pub(crate) fn otherwise(part: Part) -> Fallback
    ensures { result ≡ otherwise part }
{
    match part {
        Part::Source => Fallback::Goes(Rule::Source),
        Part::Procedures => Fallback::Goes(Rule::Nothing),
        Part::SecondParameter => Fallback::Goes(Rule::Nothing),
        Part::ThirdParameter => Fallback::Goes(Rule::Nothing),
        Part::FourthParameter => Fallback::Goes(Rule::Nothing),
        Part::FifthParameter => Fallback::Goes(Rule::Nothing),
        Part::Name => Fallback::Wants(Expected::Name),
        Part::Block => Fallback::Wants(Expected::Mark(Mark::OpenBrace)),
        Part::Items => Fallback::Goes(Rule::ValueFirst),
        Part::IfEnd => Fallback::Goes(Rule::NextItem),
        Part::LoopEnd => Fallback::Goes(Rule::NextItem),
        Part::AfterName => Fallback::Goes(Rule::Operators),
        Part::AfterValue => Fallback::Goes(Rule::Operators),
        Part::AfterIndex => Fallback::Goes(Rule::Operators),
        Part::AfterCall => Fallback::Goes(Rule::Operators),
        Part::Last => Fallback::Wants(Expected::Mark(Mark::CloseBrace)),
        Part::Else => Fallback::Goes(Rule::NoElse),
        Part::AfterElse => Fallback::Wants(Expected::Mark(Mark::OpenBrace)),
        Part::Variables => Fallback::Goes(Rule::Nothing),
        Part::Give => Fallback::Goes(Rule::NoGive),
        Part::Expression => Fallback::Goes(Rule::Expression),
        Part::Ors => Fallback::Goes(Rule::Nothing),
        Part::Conjunction => Fallback::Goes(Rule::Conjunction),
        Part::Ands => Fallback::Goes(Rule::Nothing),
        Part::Test => Fallback::Goes(Rule::Test),
        Part::Comparison => Fallback::Goes(Rule::Nothing),
        Part::Sum => Fallback::Goes(Rule::Sum),
        Part::Sums => Fallback::Goes(Rule::Nothing),
        Part::Term => Fallback::Goes(Rule::Term),
        Part::Terms => Fallback::Goes(Rule::Nothing),
        Part::Unary => Fallback::Goes(Rule::Unary),
        Part::Negated => Fallback::Goes(Rule::Negate),
        Part::Posts => Fallback::Goes(Rule::Nothing),
        Part::SecondArgument => Fallback::Goes(Rule::Nothing),
        Part::ThirdArgument => Fallback::Goes(Rule::Nothing),
        Part::FourthArgument => Fallback::Goes(Rule::Nothing),
        Part::FifthArgument => Fallback::Goes(Rule::Nothing),
        Part::Primary => Fallback::Wants(Expected::Expression),
    }
}
