ghost use Rattle.std.specs.Prelude.{◌≡◌, ◌≢◌, ◌≤◌, [], length, Some, Err, IfOk, IfSome};
ghost use Rattle.std.specs.Io.KnownBytes.{Keeps};
ghost use Rattle.abi_tool.specs.declared.answer.Answer.{Answer};
ghost use Rattle.abi_tool.specs.Answers.{code_of, reply_to_bytes, Replies, Means, LeavesRest, rest_of_document, IsSilent};
ghost use Rattle.abi_tool.specs.Causes.{Rose};
ghost use Rattle.abi_tool.specs.Moves.{limit};

use crate::answer::{Answer, Reply};
use crate::read_all::{ReadError, read_all};
use crate::reading::reading;
use crate::reply::reply_to_tree;
use crate::sink::Sink;
use crate::source::Source;
use crate::write_all::write_all;
use abi_document::Command;
use abi_num::{OutOfMemory, Text};
use std::alloc::Global;

/// Why there is no reply.
#[derive(Debug, Clone, Copy, PartialEq, Eq)]
enum Stop {
    Fault,
    OutOfMemory,
}

impl From<OutOfMemory> for Stop {
    ghost use Rattle.abi_tool.specs.declared.run_document.Stop.TheVariants.{OutOfMemory};

    ghost from_gives = { λ _ stop. stop ≡ OutOfMemory };

    fn from(_: OutOfMemory) -> Stop {
        Stop::OutOfMemory
    }
}

/// Runs a command on the document that the source gives, and answers the exit status.
pub fn run_document<S: Source, K: Sink>(
    alloc: Global,
    command: Command,
    source: &mut S,
    sink: &mut K,
) -> u8
    ensures listed { result ≢ 1 }
    ensures read_fault { result ≡ 2 → Rose (S.faults source.old) (S.faults source.new) }
    ensures write_fault { result ≡ 3 → Rose (K.faults sink.old) (K.faults sink.new) }
    ensures silent { IsSilent result → Keeps (K.got sink.old) (K.got sink.new) }

    // Where the source tells its bytes:
    ensures replies { IfSome (S.left source.old) (λ bytes.
        Replies (reply_to_bytes command bytes) (K.got sink.old) (K.got sink.new) result) }
    ensures means { IfSome (S.left source.old) (λ bytes.
        (answer : Answer) → result ≡ code_of answer → Means command answer bytes) }
    ensures rest { IfSome (S.left source.old) (λ bytes.
        LeavesRest (rest_of_document result bytes) result (S.left source.new)) }
{
    match read_reply(alloc, command, source) {
        Ok(reply) => match write_all(sink, reply.text.as_str().as_bytes()) {
            Ok(()) => reply.answer.code(),
            Err(_) => 3,
        },
        Err(Stop::Fault) => 2,
        Err(Stop::OutOfMemory) => 8,
    }
}

// The reply to the document that the source gives.
#[tactic(auto, using(crate::proofs::ReplyToBytes::silent_reply))]
fn read_reply<S: Source>(alloc: Global, command: Command, source: &mut S) -> Result<Reply, Stop>
    ensures told { IfOk result (λ reply. IfSome (S.left source.old) (λ bytes.
        reply ≡ reply_to_bytes command bytes)) }
    ensures silent { IfOk result (λ reply. code_of reply.answer ≡ 4 → reply.text ≡ []) }
    ensures fault { result ≡ Err Stop.Fault → Rose (S.faults source.old) (S.faults source.new) }
    ensures rest { IfOk result (λ reply. IfSome (S.left source.old) (λ bytes.
        S.left source.new ≡ Some (rest_of_document (code_of reply.answer) bytes))) }
{
    match read_all(alloc, source) {
        Ok(bytes) => Ok(reply_to_bytes(alloc, command, &bytes)?),
        Err(ReadError::TooLong) => Ok(Reply {
            answer: Answer::TooLong,
            text: Text::from(String::new(alloc)),
        }),
        Err(ReadError::Fault) => Err(Stop::Fault),
        Err(ReadError::OutOfMemory) => Err(Stop::OutOfMemory),
    }
}

// The reply to a document's bytes.
#[tactic(auto, unfolding(crate::specs::Answers::reply_to_bytes))]
fn reply_to_bytes(alloc: Global, command: Command, bytes: &[u8]) -> Result<Reply, OutOfMemory>
    requires { length bytes.now ≤ limit }
    ensures { IfOk result (λ reply. reply ≡ reply_to_bytes command bytes.now) }
{
    match reading(alloc, bytes)? {
        Some(tree) => reply_to_tree(alloc, command, &tree),
        None => Ok(Reply {
            answer: Answer::NotJson,
            text: Text::new(alloc, "not JSON\n")?,
        }),
    }
}
