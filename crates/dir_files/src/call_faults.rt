//! The faults that come of refused calls, and of the tools' own.

ghost use Rattle.dir_files.specs.Faults.{IsNotCreated, IsNotOpened, IsNotReported, IsNotWritten, IsRunFault};

use crate::fault::Fault;
use crate::files::Refusal;
use dir_tools::{Output, ToolFault};

/// The tool's fault, as the program's. The report is written into memory first.
pub(crate) fn run_fault<'a>(fault: ToolFault) -> Fault<'a>
    ensures { IsRunFault fault result }
{
    match fault {
        ToolFault::Write(Output::Report) => Fault::Tool(ToolFault::Memory),
        fault => Fault::Tool(fault),
    }
}

/// What it means that a file isn't opened.
pub(crate) fn not_opened<'a>(path: &'a str, why: Refusal) -> Fault<'a>
    ensures { IsNotOpened path.entry.now why result }
{
    match why {
        Refusal::Memory => Fault::Tool(ToolFault::Memory),
        Refusal::Exists | Refusal::Other => Fault::CannotOpen(path),
    }
}

/// What it means that a file isn't created.
pub(crate) fn not_created<'a>(path: &'a str, why: Refusal) -> Fault<'a>
    ensures { IsNotCreated path.entry.now why result }
{
    match why {
        Refusal::Exists => Fault::Exists(path),
        Refusal::Memory => Fault::Tool(ToolFault::Memory),
        Refusal::Other => Fault::CannotOpen(path),
    }
}

/// What it means that a file isn't synced or published.
pub(crate) fn not_written<'a>(path: &'a str, output: Output, why: Refusal) -> Fault<'a>
    ensures { IsNotWritten path.entry.now output why result }
{
    match why {
        Refusal::Other => Fault::Tool(ToolFault::Write(output)),
        why => not_created(path, why),
    }
}

/// What it means that the report isn't written.
pub(crate) fn not_reported<'a>(why: Refusal) -> Fault<'a>
    ensures { IsNotReported why result }
{
    match why {
        Refusal::Memory => Fault::Tool(ToolFault::Memory),
        Refusal::Exists | Refusal::Other => Fault::Tool(ToolFault::Write(Output::Report)),
    }
}
