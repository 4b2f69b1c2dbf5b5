//! Writing a whole text to a sink.

ghost use Rattle.std.specs.Prelude.{◌≡◌, ℕ, ◌⊎◌, OnErr, OnOk};
ghost use Rattle.std.specs.Io.KnownBytes.{Appends};
ghost use Rattle.dir_ldif.specs.Device.{AppendsPrefix, HasFailed};

use crate::device::{DeviceFault, Sink};

/// Writes the whole text and flushes it.
///
/// # Errors
///
/// The sink failed, or it took no byte of a text that is not empty. It has then taken a prefix of the text.
pub fn write_flushed<W: Sink>(sink: &mut W, text: &[u8]) -> Result<(), DeviceFault>
    ensures ok { OnOk result (Appends (W.taken sink.old) (W.taken sink.new) text.now) }
    ensures front { (n : ℕ) × AppendsPrefix (W.taken sink.old) (W.taken sink.new) text.now n }
    ensures unfailed { OnOk result (W.failures sink.new ≡ W.failures sink.old) }
    ensures flushed { OnOk result (W.is_flushed sink.new) }
    ensures err { OnErr result (HasFailed (W.failures sink.old) (W.failures sink.new) ⊎ W.may_stall sink.new) }
{
    write_whole(sink, text)?;
    sink.flush()
}

/// Writes the whole text. It doesn't flush.
///
/// # Errors
///
/// The sink failed, or it took no byte of a text that is not empty. It has then taken a prefix of the text.
pub fn write_whole<W: Sink>(sink: &mut W, text: &[u8]) -> Result<(), DeviceFault>
    ensures ok { OnOk result (Appends (W.taken sink.old) (W.taken sink.new) text.now) }
    ensures count { OnOk result (W.failures sink.new ≡ W.failures sink.old) }
    ensures prefix { (n : ℕ) × AppendsPrefix (W.taken sink.old) (W.taken sink.new) text.now n }
    ensures err { OnErr result (HasFailed (W.failures sink.old) (W.failures sink.new) ⊎ W.may_stall sink.new) }
{
    let mut rest = text;
    while !rest.is_empty() {
        match sink.write(rest) {
            Ok(n) => {
                if n == 0 {
                    return Err(DeviceFault);
                }
                let (_, after) = rest.split_at(n);
                rest = after;
            }
            Err(fault) => return Err(fault),
        }
    }
    Ok(())
}
