//! A whole recording, against its layout.
ghost use Rattle.std.specs.Prelude.{◌≡◌};
ghost use Rattle.recording.specs.Recorded.{recorded, counted, Validated, RecordingLaws};

use crate::entry::Reader;
use crate::refusal::Refusal;

/// How many entries a recording has, or the first reason to decline it.
pub fn validate(bytes: &[u8]) -> Result<u64, Refusal>
    ensures value { result ≡ counted (recorded bytes.now) }
    ensures laid { Validated bytes.now result }
    ensures laws { RecordingLaws }
{
    let mut reader = Reader::open(bytes)?;
    while reader.next()?.is_some() {}
    Ok(reader.total())
}
