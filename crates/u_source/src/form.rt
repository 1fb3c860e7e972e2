//! The nodes of a syntax tree.

/// What a node is, and its children in their order.
#[derive(Clone, Copy, Debug, PartialEq, Eq)]
pub enum Form {
    /// A name.
    Name,
    /// A number below 2^63.
    Number,
    /// A number with the minus before it, at least -2^63.
    Negative,
    /// `true`.
    True,
    /// `false`.
    False,
    /// `or`: two operands.
    Or,
    /// `and`: two operands.
    And,
    /// `not`: its operand.
    Not,
    /// `<`: two operands.
    Less,
    /// `<=`: two operands.
    AtMost,
    /// `>`: two operands.
    Greater,
    /// `>=`: two operands.
    AtLeast,
    /// `==`: two operands.
    Equal,
    /// `!=`: two operands.
    Unequal,
    /// `+`: two operands.
    Add,
    /// `-`: two operands.
    Subtract,
    /// `*`: two operands.
    Multiply,
    /// `/`: two operands.
    Divide,
    /// `%`: two operands.
    Remainder,
    /// `-` before an operand that is no number: its operand.
    Negate,
    /// `array`: its size.
    Array,
    /// `length`: its array.
    Length,
    /// A cell: an array and an index.
    Index,
    /// A call: what is called and the arguments.
    Call,
    /// An `if`: its test, a block, and an `else` or none.
    If,
    /// No `else`.
    NoElse,
    /// That an `else` begins.
    Otherwise,
    /// An `else`: that it begins, and a block or an `if`.
    Else,
    /// A `loop`: its variables, its test, a block, and a `give` or none.
    Loop,
    /// A `for`: its name, the first number, the limit, more variables, a block, and a `give` or none.
    For,
    /// A `give`: its value.
    Give,
    /// No `give`.
    NoGive,
    /// No arguments.
    NoArguments,
    /// Arguments and one more: a value.
    AddArgument,
    /// That loop variables begin: none.
    NoVariables,
    /// Loop variables and one more: its name and the value that it begins with.
    AddVariable,
    /// That all loop variables have the values that they begin with: the variables.
    Variables,
    /// That a block begins: no items.
    NoItems,
    /// Items and one more.
    AddItem,
    /// Items, and at the end of the block a value, or an `if` or a loop that may have none.
    AddValue,
    /// That a block ends: its items.
    Block,
    /// A definition: a name and its value.
    Define,
    /// A write: a cell and the value.
    Write,
    /// A call whose value nobody wants.
    Statement,
    /// A `next`: a name and its value.
    Next,
    /// No parameters.
    NoParameters,
    /// Parameters and one more: its name.
    AddParameter,
    /// No procedures.
    NoProcedures,
    /// Procedures and one more: its name, its parameters and its block.
    AddProcedure,
}

/// A node of a syntax tree. The nodes of a tree stand in the order in which they end: a node stands behind
/// its children and all that is below them.
#[derive(Clone, Copy, Debug, PartialEq, Eq)]
pub struct Node {
    /// What it is.
    pub form: Form,
    /// The number, from 0, of the token that stood next where its rule was chosen: a name, a number, `true` or
    /// `false` itself, the sign of an operator, the bracket of an index or of arguments, the word that begins an
    /// `if`, a loop, an `else`, a `give`, a `next` or a procedure. At a minus before an operand it is the token
    /// behind it, and at what is left out the one that stands in its place.
    pub token: usize,
}
