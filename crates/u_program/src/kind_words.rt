//! The kinds of statements: their words, and how many lists they have.
ghost use Rattle.std.specs.Prelude.{◌≡◌};
ghost use Rattle.u_program.specs.Limits.{has_list, has_otherwise};
ghost use Rattle.u_program.specs.Text.{unary_word, binary_word, kind_word, plain_kinds, count_word, place_word};

use crate::program::{Arguments, Kind, Parameter};
use u_value::{BinaryOperator, UnaryOperator};

/// The kinds without an argument.
const PLAIN_KINDS: [Kind; 24] = [
    Kind::Begin,
    Kind::Pass,
    Kind::Unary(UnaryOperator::Not),
    Kind::Unary(UnaryOperator::Length),
    Kind::Binary(BinaryOperator::And),
    Kind::Binary(BinaryOperator::Or),
    Kind::Binary(BinaryOperator::Add),
    Kind::Binary(BinaryOperator::Sub),
    Kind::Binary(BinaryOperator::Mul),
    Kind::Binary(BinaryOperator::Div),
    Kind::Binary(BinaryOperator::Rem),
    Kind::Binary(BinaryOperator::Lt),
    Kind::Binary(BinaryOperator::Le),
    Kind::Binary(BinaryOperator::Eq),
    Kind::Select,
    Kind::Switch,
    Kind::Next,
    Kind::Last,
    Kind::Leave,
    Kind::Back,
    Kind::Alloc,
    Kind::Store,
    Kind::Fetch,
    Kind::End,
];

/// The kinds without an argument, in the order in which a reader of a statement tries them.
pub fn plain_kinds() -> [Kind; 24]
    ensures { result ≡ plain_kinds }
{
    PLAIN_KINDS
}

/// The word of an operator with one operand.
fn unary_word(operator: UnaryOperator) -> &'static [u8]
    ensures { result.now ≡ unary_word operator }
{
    match operator {
        UnaryOperator::Not => b"not".as_slice(),
        UnaryOperator::Length => b"length".as_slice(),
    }
}

/// The word of an operator with two operands.
fn binary_word(operator: BinaryOperator) -> &'static [u8]
    ensures { result.now ≡ binary_word operator }
{
    match operator {
        BinaryOperator::And => b"and".as_slice(),
        BinaryOperator::Or => b"or".as_slice(),
        BinaryOperator::Add => b"add".as_slice(),
        BinaryOperator::Sub => b"sub".as_slice(),
        BinaryOperator::Mul => b"mul".as_slice(),
        BinaryOperator::Div => b"div".as_slice(),
        BinaryOperator::Rem => b"rem".as_slice(),
        BinaryOperator::Lt => b"lt".as_slice(),
        BinaryOperator::Le => b"le".as_slice(),
        BinaryOperator::Eq => b"eq".as_slice(),
    }
}

/// The word of a kind, as a statement has it: `switch`, say. The argument of a kind that has one is not
/// part of it.
pub fn kind_word(kind: &Kind) -> &'static [u8]
    ensures { result.now ≡ kind_word kind.now }
{
    match kind {
        Kind::Begin => b"begin".as_slice(),
        Kind::Const(_) => b"const".as_slice(),
        Kind::Pass => b"pass".as_slice(),
        Kind::Unary(operator) => unary_word(*operator),
        Kind::Binary(operator) => binary_word(*operator),
        Kind::Select => b"select".as_slice(),
        Kind::Switch => b"switch".as_slice(),
        Kind::Enter(_) => b"enter".as_slice(),
        Kind::Next => b"next".as_slice(),
        Kind::Last => b"last".as_slice(),
        Kind::Leave => b"leave".as_slice(),
        Kind::Apply(_, _) => b"apply".as_slice(),
        Kind::Param(_) => b"param".as_slice(),
        Kind::Back => b"back".as_slice(),
        Kind::Alloc => b"alloc".as_slice(),
        Kind::Store => b"store".as_slice(),
        Kind::Fetch => b"fetch".as_slice(),
        Kind::Ask(_, _) => b"ask".as_slice(),
        Kind::End => b"end".as_slice(),
    }
}

/// The word of a number of arguments: `3`, say.
pub fn count_word(arguments: Arguments) -> &'static [u8]
    ensures { result.now ≡ count_word arguments }
{
    match arguments {
        Arguments::One => b"1".as_slice(),
        Arguments::Two => b"2".as_slice(),
        Arguments::Three => b"3".as_slice(),
        Arguments::Four => b"4".as_slice(),
    }
}

/// The word of a parameter's place: `2`, say.
pub fn place_word(parameter: Parameter) -> &'static [u8]
    ensures { result.now ≡ place_word parameter }
{
    match parameter {
        Parameter::Second => b"2".as_slice(),
        Parameter::Third => b"3".as_slice(),
        Parameter::Fourth => b"4".as_slice(),
    }
}

/// Whether statements of the kind list destinations. `apply`, `store` and `end` list none.
pub fn has_list(kind: &Kind) -> bool
    ensures { result ≡ has_list kind.now }
{
    !matches!(kind, Kind::Apply(_, _) | Kind::Store | Kind::End)
}

/// Whether statements of the kind have two lists: for true, and behind a slash for false. Only `switch`
/// has two.
pub fn has_otherwise(kind: &Kind) -> bool
    ensures { result ≡ has_otherwise kind.now }
{
    matches!(kind, Kind::Switch)
}
