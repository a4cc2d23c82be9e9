ghost use Rattle.std.specs.Prelude.{◌≡◌, ◌≢◌, ◌↔◌, ◌⊎◌, [], ◌∷◌, Some, None, IfSome, codes};
ghost use Rattle.abi_tool.specs.Headline.{Packs, LaysOut, Reads, Edits, Reports, Makes};
ghost use Rattle.std.specs.Io.KnownBytes.{Keeps};
ghost use Rattle.abi_tool.specs.Answers.{invocation_of, reply_to, status_of, Answers, StatusMeans, ReadsNone, IfMade, LeavesRest, rest_after, IsSilent};
ghost use Rattle.abi_tool.specs.Causes.{Rose};

use crate::command::{Invocation, invocation_of};
use crate::run_document::run_document;
use crate::run_made::run_made;
use crate::sink::Sink;
use crate::source::Source;
use abi_num::Text;
use std::alloc::Global;

/// Runs the command that `words` spell and answers the exit status: 0 done, 1 no listed command, 2 the source failed,
/// 3 the sink failed, 4 the document is too long, 5 it is no JSON, 6 it is no document of the command, 7 the job has a
/// fault, 8 memory was refused.
pub fn tool<S: Source, K: Sink>(alloc: Global, words: &[Text], source: &mut S, sink: &mut K) -> u8
    ensures unlisted { (result ≡ 1) ↔ (invocation_of words.now ≡ None) }
    ensures read_fault { result ≡ 2 → Rose (S.faults source.old) (S.faults source.new) }
    ensures write_fault { result ≡ 3 → Rose (K.faults sink.old) (K.faults sink.new) }
    ensures silent { IsSilent result → Keeps (K.got sink.old) (K.got sink.new) }

    // Where the source tells its bytes:
    ensures replies { IfSome (S.left source.old) (λ bytes.
        Answers (reply_to words.now bytes) (K.got sink.old) (K.got sink.new) result) }
    ensures means { IfSome (S.left source.old) (λ bytes.
        StatusMeans (invocation_of words.now) result bytes) }
    ensures rest { IfSome (S.left source.old) (λ bytes.
        LeavesRest (rest_after (invocation_of words.now) result bytes) result (S.left source.new)) }

    // Status 0 of `pack`: the document was a job without a fault, and an image was written that shows the value which
    // its edits leave, and no other.
    ensures packs { words.now ≡ codes "pack" ∷ [] → IfSome (S.left source.old) (λ bytes.
        result ≡ 0 → Packs bytes (K.got sink.old) (K.got sink.new)) }

    // Of `layout`: it was a description without a fault, and its layout and its sums with their refusals were written.
    ensures lays_out { words.now ≡ codes "layout" ∷ [] → IfSome (S.left source.old) (λ bytes.
        result ≡ 0 → LaysOut bytes (K.got sink.old) (K.got sink.new)) }

    // Of `read`: it was a description without a fault, and the one value that the bytes show was written.
    ensures reads { words.now ≡ codes "read" ∷ [] → IfSome (S.left source.old) (λ bytes.
        result ≡ 0 → Reads bytes (K.got sink.old) (K.got sink.new)) }

    // Of `edit`: each edit of a value that the bytes show was done in these bytes, and what that leaves was written.
    ensures edits { words.now ≡ codes "edit" ∷ [] → IfSome (S.left source.old) (λ bytes.
        result ≡ 0 → Edits bytes (K.got sink.old) (K.got sink.new)) }

    // Of `report`: it was a description without a fault, and its identifier and its report were written.
    ensures reports { words.now ≡ codes "report" ∷ [] → IfSome (S.left source.old) (λ bytes.
        result ≡ 0 → Reports bytes (K.got sink.old) (K.got sink.new)) }

    // With no fault the status is that of the reply, unless memory was refused.
    ensures complete { IfSome (S.left source.old) (λ bytes.
        ¬ Rose (S.faults source.old) (S.faults source.new)
        → ¬ Rose (K.faults sink.old) (K.faults sink.new)
        → (result ≡ status_of (reply_to words.now bytes)) ⊎ (result ≡ 8)) }

    // Where no document is read, the source stays as it was, whether or not it tells its bytes.
    ensures unread { ReadsNone (invocation_of words.now) → source.new ≡ source.old }

    // Of `made`: 0, and the lines of the made job's image were written, whose value is read back; or 3, and a beginning
    // of them was; or 8.
    ensures makes { IfMade (invocation_of words.now) (λ k.
        Makes k (K.got sink.old) (K.got sink.new) result) }
    ensures made_complete { IfMade (invocation_of words.now) (λ k.
        ¬ Rose (K.faults sink.old) (K.faults sink.new) → (result ≡ 0) ⊎ (result ≡ 8)) }
{
    match invocation_of(words) {
        None => 1,
        Some(Invocation::Document(command)) => run_document(alloc, command, source, sink),
        Some(Invocation::Made(count)) => run_made(alloc, count, sink),
    }
}
