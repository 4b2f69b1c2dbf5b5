//! A whole text written and flushed.

ghost use Rattle.std.specs.Prelude.{◌≡◌, ◌⊎◌, ℕ, IfErr, OnErr, OnOk};
ghost use Rattle.std.specs.Io.KnownBytes.{Appends};
ghost use Rattle.dir_ldif.specs.Device.{AppendsPrefix, HasFailed};
ghost use Rattle.dir_tools.specs.declared.fault.ToolFault.TheVariants as ToolFault;

use crate::{Output, ToolFault};
use dir_ldif::{Sink, write_flushed};

/// Writes a whole text and flushes it.
///
/// # Errors
///
/// A write fault that names `output`, where the writer failed or took no byte.
pub(crate) fn write_text<W: Sink>(
    writer: &mut W,
    text: &[u8],
    output: Output,
) -> Result<(), ToolFault>
    ensures ok { OnOk result (Appends (W.taken writer.old) (W.taken writer.new) text.now) }
    ensures front { (n : ℕ) × AppendsPrefix (W.taken writer.old) (W.taken writer.new) text.now n }
    ensures unfailed { OnOk result (W.failures writer.new ≡ W.failures writer.old) }
    ensures flushed { OnOk result (W.is_flushed writer.new) }
    ensures fault { IfErr result (λ e. e ≡ ToolFault.Write output) }
    ensures err { OnErr result (HasFailed (W.failures writer.old) (W.failures writer.new) ⊎ W.may_stall writer.new) }
{
    match write_flushed(writer, text) {
        Ok(()) => Ok(()),
        Err(_) => Err(ToolFault::Write(output)),
    }
}
