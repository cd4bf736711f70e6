//! Writing of a whole list of bytes.
ghost use Rattle.std.specs.Prelude.{◌≡◌, OnOk, OnErr};
ghost use Rattle.std.specs.Io.KnownBytes.{Appends};
ghost use Rattle.report_text.specs.Writing.{AppendsFront};

use text_device::{Failed, Sink};

/// Writes all of `bytes` and flushes. A write that takes none of the bytes is a failure, so that no device is tried forever.
pub fn write_whole<W: Sink>(out: &mut W, bytes: &[u8]) -> Result<(), Failed>
    ensures ok { OnOk result (Appends (W.contents out.old) (W.contents out.new) bytes.now) }
    ensures kept { OnOk result ((W.has_failed out.new ≡ W.has_failed out.old) × (W.has_stopped out.new ≡ W.has_stopped out.old)) }
    ensures err { OnErr result (AppendsFront (W.contents out.old) (W.contents out.new) (W.has_failed out.new)
        (W.has_stopped out.new) bytes.now) }
{
    let mut rest = bytes;
    while !rest.is_empty() {
        let count = out.write(rest)?;
        if count == 0 {
            return Err(Failed);
        }
        let (_, after) = rest.split_at(count);
        rest = after;
    }
    out.flush()
}
