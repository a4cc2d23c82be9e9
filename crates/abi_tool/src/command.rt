ghost use Rattle.std.specs.Prelude.{◌≡◌, [], ◌∷◌, IfSome};
ghost use Rattle.abi_document.specs.Forms.{by_name};
ghost use Rattle.abi_tool.specs.Answers.{commands, invocation_of, IsCounted};

use abi_document::{Command, made_count};
use abi_num::Text;

/// What the words after the program's name ask for.
#[derive(Debug, Clone, Copy, PartialEq, Eq)]
pub enum Invocation {
    /// A command that reads a document from the source.
    Document(Command),
    /// The summary of the made job of so many fields, from 1 to 1,500.
    Made(u32),
}

/// What the words after the program's name ask for; `None` exactly where they are no listed command.
pub fn invocation_of(words: &[Text]) -> Option<Invocation>
    ensures told { result ≡ invocation_of words.now }
    ensures counted { IfSome result IsCounted }
{
    match words {
        [word] => Some(Invocation::Document(command_named(word.as_str())?)),
        [word, count] => counted(word.as_str(), count.as_str()),
        _ => None,
    }
}

// The command of that name and that count of fields, which reads no document.
fn counted(name: &str, count: &str) -> Option<Invocation>
    ensures told { result ≡ invocation_of (name.now ∷ count.now ∷ []) }
    ensures counted { IfSome result IsCounted }
{
    match name {
        "made" => Some(Invocation::Made(made_count(count)?)),
        _ => None,
    }
}

// The command of that name which reads a document.
fn command_named(name: &str) -> Option<Command>
    ensures { result ≡ by_name commands name.now }
{
    match name {
        "pack" => Some(Command::Pack),
        "layout" => Some(Command::Layout),
        "read" => Some(Command::Read),
        "edit" => Some(Command::Edit),
        "report" => Some(Command::Report),
        _ => None,
    }
}
