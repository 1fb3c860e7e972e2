//! What the statements of a program of a source stand for.
ghost use Rattle.std.specs.Prelude.{◌≡◌};
ghost use Rattle.u_compile.specs.Maps.{role_word, role_words};

use u_name::BlockName;
use u_source::Position;

/// What a statement does for its source.
#[derive(Clone, Copy, Debug, PartialEq, Eq)]
pub enum Role {
    /// It has a parameter.
    Parameter,
    /// It has a constant.
    Constant,
    /// It has what an operator gives.
    Operator,
    /// It reads a cell.
    Read,
    /// It chooses one of two names or constants.
    Choice,
    /// It calls a procedure.
    Call,
    /// It has what a call gives.
    Outcome,
    /// It writes a cell.
    Write,
    /// It lets a value into a side or a turn.
    Gate,
    /// It lets a value into a loop.
    Enter,
    /// It lets a value into the next turn.
    Next,
    /// It takes a value out of the last turn.
    Last,
    /// It lets a value out of a loop.
    Leave,
    /// It stands before what controls a choice.
    Test,
    /// It passes a value on to some of many.
    Fan,
    /// It ends the procedure.
    End,
}

/// Where a statement comes from.
#[derive(Clone, Copy)]
pub struct Origin {
    /// The place of the source that asks for it.
    pub place: Position,
    /// What it does there.
    pub role: Role,
    /// The name that its value has or flows under, if there is one; of a read that of its structure, if that is a name.
    pub name: Option<BlockName>,
}

/// Where the statements of a block of a program come from.
#[derive(Drop)]
pub struct BlockOrigins {
    /// The name of the block.
    pub name: BlockName,
    /// Those of its statements, the first being number 1.
    pub origins: Vec<Origin>,
}

impl Role {
    /// The word of the map for it.
    #[tactic(auto, unfolding(crate::specs::Maps::role_word))]
    pub fn word(self) -> &'static [u8]
        ensures { result.now ≡ role_word self }
    {
        match self {
            Role::Parameter => b"param",
            Role::Constant => b"const",
            Role::Operator => b"op",
            Role::Read => b"read",
            Role::Choice => b"if",
            Role::Call => b"call",
            Role::Outcome => b"result",
            Role::Write => b"write",
            Role::Gate => b"gate",
            Role::Enter => b"enter",
            Role::Next => b"next",
            Role::Last => b"last",
            Role::Leave => b"leave",
            Role::Test => b"test",
            Role::Fan => b"fan",
            Role::End => b"end",
        }
    }

    /// The words for people.
    #[tactic(auto, unfolding(crate::specs::Maps::role_words))]
    pub fn words(self) -> &'static [u8]
        ensures { result.now ≡ role_words self }
    {
        match self {
            Role::Parameter => b"parameter",
            Role::Constant => b"constant",
            Role::Operator => b"operator",
            Role::Read => b"read",
            Role::Choice => b"choice",
            Role::Call => b"call",
            Role::Outcome => b"result",
            Role::Write => b"write",
            Role::Gate => b"gate",
            Role::Enter => b"entry",
            Role::Next => b"next value",
            Role::Last => b"last value",
            Role::Leave => b"exit",
            Role::Test => b"test",
            Role::Fan => b"fan",
            Role::End => b"end",
        }
    }
}
