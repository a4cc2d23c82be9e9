ghost use Rattle.std.specs.Prelude.{OnOk, OnErr};
ghost use Rattle.std.specs.Io.KnownBytes.{Appends};
ghost use Rattle.abi_tool.specs.Causes.{HasCause};
ghost use Rattle.abi_tool.specs.Moves.{WentInPart};

use crate::failed::Failed;
use crate::sink::Sink;

/// Writes the whole text, or, where the sink fails, a beginning of it.
#[tactic(auto, using(crate::proofs::Known::went_on))]
pub fn write_all<K: Sink>(sink: &mut K, text: &[u8]) -> Result<(), Failed>
    ensures whole { OnOk result (Appends (K.got sink.old) (K.got sink.new) text.now) }
    ensures part { OnErr result (WentInPart (K.got sink.old) (K.got sink.new) text.now) }
    ensures cause { HasCause (K.faults sink.old) (K.faults sink.new) result }
{
    let mut done = 0;
    'writing: while done < text.len() {
        done += sink.write(&text[done..])?;
    }
    Ok(())
}
