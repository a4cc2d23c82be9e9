ghost use Rattle.std.specs.Prelude.{◌≡◌, ◌⊎◌, IsTrue};
ghost use Rattle.abi_document.specs.Made.{is_count};
ghost use Rattle.abi_tool.specs.Answers.{Replies};
ghost use Rattle.abi_tool.specs.Causes.{Rose};
ghost use Rattle.abi_tool.specs.Headline.{Makes};
ghost use Rattle.abi_tool.specs.Reply.{made_reply};

use crate::reply::made_reply;
use crate::sink::Sink;
use crate::write_all::write_all;
use std::alloc::Global;

/// Writes the summary of the made job of so many fields, and answers the exit status.
#[tactic(auto, using(crate::proofs::Made::makes))]
pub fn run_made<K: Sink>(alloc: Global, count: u32, sink: &mut K) -> u8
    requires { IsTrue (is_count count) }
    ensures statuses { (result ≡ 0) ⊎ (result ≡ 3) ⊎ (result ≡ 8) }
    ensures write_fault { result ≡ 3 → Rose (K.faults sink.old) (K.faults sink.new) }
    ensures replies { Replies (made_reply count) (K.got sink.old) (K.got sink.new) result }
    ensures makes { Makes count (K.got sink.old) (K.got sink.new) result }
{
    let Ok(reply) = made_reply(alloc, count) else {
        return 8;
    };
    match write_all(sink, reply.text.as_str().as_bytes()) {
        Ok(()) => reply.answer.code(),
        Err(_) => 3,
    }
}
