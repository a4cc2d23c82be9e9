ghost use Rattle.std.specs.Prelude.{◌≡◌, ◌≤◌, IfOk, Err};
ghost use Rattle.abi_tool.specs.Causes.{Rose};
ghost use Rattle.abi_tool.specs.Moves.{CameWhole, CameTooLong};

use crate::source::Source;
use std::alloc::Global;

/// The most bytes of a document.
const LIMIT: usize = 4194304;

/// The most bytes that one read asks for.
const PIECE: usize = 4096;

/// Why a document was not read whole.
#[derive(Debug, Clone, Copy, PartialEq, Eq)]
pub enum ReadError {
    /// The source failed.
    Fault,
    /// More bytes came than a document may have.
    TooLong,
    /// Memory was refused.
    OutOfMemory,
}

/// All bytes of the source. Reading stops at the byte after the last that a document may have.
#[tactic(auto, using(crate::proofs::Known::consumes_then), unfolding(crate::specs::Moves::limit))]
pub fn read_all<S: Source>(alloc: Global, source: &mut S) -> Result<Vec<u8>, ReadError>
    ensures whole { IfOk result (λ bytes.
        CameWhole (S.left source.old) (S.left source.new) bytes.items) }
    ensures too_long { result ≡ Err ReadError.TooLong →
        CameTooLong (S.left source.old) (S.left source.new) }
    ensures fault { result ≡ Err ReadError.Fault →
        Rose (S.faults source.old) (S.faults source.new) }
    ensures later { S.faults source.old ≤ S.faults source.new }
{
    let mut bytes = Vec::new(alloc);
    let mut piece = [0u8; PIECE];
    'reading: while bytes.len() <= LIMIT {
        let want = PIECE.min(LIMIT + 1 - bytes.len());
        let Ok(count) = source.read(&mut piece[..want]) else {
            return Err(ReadError::Fault);
        };
        if count == 0 {
            return Ok(bytes);
        }
        if bytes.extend_from_slice(&piece[..count]).is_err() {
            return Err(ReadError::OutOfMemory);
        }
    }
    Err(ReadError::TooLong)
}
