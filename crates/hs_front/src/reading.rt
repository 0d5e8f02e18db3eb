//! A file that is read whole.

ghost use Rattle.std.specs.Prelude.{◌≢◌, MatchResult};
ghost use Rattle.hs_front.specs.Outside.{source_run, IsCalm, KeepsSource};
ghost use Rattle.hs_front.specs.Telling.{IsReadWhole, IsReadFault};

use crate::refusal::Refusal;
use hs_edge::{ReadAll, Source, read_all};
use std::alloc::Global;

/// Reads the file of this name, which is started for it, up to its end; `limit` is the most bytes that
/// it may have. Answers `Source` where the source failed, `FileTooLong` where there are more bytes, and
/// `OutOfMemory` otherwise. Nothing is read behind the end.
///
/// Takes time and memory in proportion to the file.
pub fn read<S: Source>(
    alloc: Global,
    name: &str,
    source: &mut S,
    limit: usize,
) -> Result<Vec<u8>, Refusal>
    ensures answer { MatchResult result
        (λ bytes. IsReadWhole limit name.now
        (source_run S.file S.left S.reading S.faults source.old source.new) bytes.items)
        (IsReadFault limit name.now (source_run S.file S.left S.reading S.faults source.old source.new)) }
    ensures calm { result ≢ Err Refusal.Source
        → IsCalm (source_run S.file S.left S.reading S.faults source.old source.new) }
    ensures keeps { KeepsSource (source_run S.file S.left S.reading S.faults source.old source.new) }
{
    if source.start(name).is_err() {
        return Err(Refusal::Source);
    }
    match read_all(alloc, source, limit) {
        Ok(bytes) => Ok(bytes),
        Err(ReadAll::ReadFault) => Err(Refusal::Source),
        Err(ReadAll::TooLong) => Err(Refusal::FileTooLong),
        Err(ReadAll::OutOfMemory) => Err(Refusal::OutOfMemory),
    }
}
