ghost use Rattle.std.specs.Prelude.{◌≡◌};
ghost use Rattle.abi_tool.specs.Answers.{code_of};

use abi_num::Text;

/// How a command ended that could read its source and had the memory.
#[derive(Debug, Clone, Copy, PartialEq, Eq)]
pub enum Answer {
    /// The job was done.
    Done,
    /// More bytes came than a document may have.
    TooLong,
    /// The bytes are no JSON.
    NotJson,
    /// The tree is no document of the command.
    NotAJob,
    /// The job has a fault.
    Refused,
}

impl Answer {
    /// The exit status.
    pub fn code(self) -> u8
        ensures { result ≡ code_of self }
    {
        match self {
            Answer::Done => 0,
            Answer::TooLong => 4,
            Answer::NotJson => 5,
            Answer::NotAJob => 6,
            Answer::Refused => 7,
        }
    }
}

/// An answer, and the text that goes to the sink with it.
#[derive(Debug, Drop)]
pub struct Reply {
    /// How the command ended.
    pub answer: Answer,
    /// The lines to write; none for `TooLong`.
    pub text: Text,
}
