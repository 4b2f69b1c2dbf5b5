//! The end of a run that makes one file.

ghost use Rattle.std.specs.Prelude.{IfErr};
ghost use Rattle.dir_files.specs.Failures.{FailsByDevice};
ghost use Rattle.dir_files.specs.OneOutput.{Finishes, IsNotPublished, IsUnfinished};
ghost use Rattle.dir_files.specs.Runs.{Made};

use crate::call_faults::{not_created, not_reported};
use crate::fault::Fault;
use crate::files::{FileSystem, Refusal};

/// Syncs the draft of a file and publishes it, and then writes the report. After a fault nothing is left of the file.
///
/// # Errors
///
/// `Exists`, if a file has come to the path; `unwritten`, if the file can't be synced or published otherwise; the report can't be written.
pub(crate) fn finish<'a, F: FileSystem, A: Copy>(
    files: &mut F,
    path: &'a str,
    draft: F::Draft,
    report: &[u8],
    unwritten: Fault<'a>,
    answer: A,
) -> Result<A, Fault<'a>>
    ensures faults { IfErr result (IsUnfinished path.entry.now unwritten.entry) }
    ensures calls { Made (F.disk files.old) (F.disk files.new) (λ _. Finishes path.entry.now (F.Draft.taken draft) report.now unwritten.entry answer result) }
    ensures failed { FailsByDevice result (F.failures files.old) (F.failures files.new) }
{
    if let Err(why) = files.sync(path, &draft) {
        files.discard(path, draft);
        return Err(not_published(path, unwritten, why));
    }
    if let Err(why) = files.publish(path, draft) {
        return Err(not_published(path, unwritten, why));
    }
    if let Err(why) = files.report(report) {
        files.withdraw(path);
        return Err(not_reported(why));
    }
    Ok(answer)
}

/// What it means that the file isn't synced or published.
fn not_published<'a>(path: &'a str, unwritten: Fault<'a>, why: Refusal) -> Fault<'a>
    ensures { IsNotPublished path.entry.now unwritten.entry why result }
{
    match why {
        Refusal::Other => unwritten,
        why => not_created(path, why),
    }
}
