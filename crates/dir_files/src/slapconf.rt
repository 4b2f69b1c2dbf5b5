//! `slapkit slapconf`: the files that a command line names, and the flat configuration that is made of them.

ghost use Rattle.std.specs.Fmt.{decimal};
ghost use Rattle.std.specs.Option.{option_copied};
ghost use Rattle.std.specs.Prelude.{◌≡◌, ◌++◌, IfErr, IfOk, OnOk};
ghost use Rattle.dir_conf.specs.Flat.{flat_parts};
ghost use Rattle.dir_files.specs.ConfRuns.{AllConfCalls, IsConfFault, MakesForSuffix, MakesOfConfig, MakesOfSlapdConf, NamesItsOutput, NamesTheseConf, RefusesSameConf, WritesIfRoom, conf_report, repeated_path, source_path};
ghost use Rattle.dir_files.specs.Failures.{FailsByDevice};
ghost use Rattle.dir_files.specs.Runs.{Made};
ghost use Rattle.dir_names.specs.Table.Builtin.{builtin_rows};

use crate::call_faults::{not_created, not_opened, run_fault};
use crate::fault::Fault;
use crate::files::{FileSystem, Opened};
use crate::including::{not_read, read_file, read_files};
use crate::one_output::finish;
use crate::words::{ConfSource, ConfWords};
use dir_conf::{
    ConfFault, FileFault, Flat, Tally, flat_of_config, flat_of_files, suffixes_of_config,
    suffixes_of_files,
};
use dir_conf_text::MAX_CONFIG;
use dir_ldif::write_flushed;
use dir_names::{DnKey, Memory, Schema, Texts};
use dir_tools::{ToolFault, suffix_key};
use std::alloc::Global;

/// Whoever tells an administrator which suffixes a configuration has, where none is the wanted one.
pub trait SuffixTeller {
    /// Keeps the suffixes of all databases, to be told after the fault.
    fn keep(&mut self, suffixes: Texts);
}

/// Makes one flat slapd.conf of the configuration that the words name, for the database of a suffix. Where no database has it, the teller is handed the
/// suffixes that there are.
///
/// All files are read before anything is made. The flat configuration gets its name only when it is whole and synced, and the report is written last. After a
/// fault nothing is left of what the run has made. It has the mode of the configuration.
///
/// # Errors
///
/// In this order: two paths that are the same; a suffix that is no legal name, or has no RDN; a file of the configuration that can't be opened, unless another
/// includes it, or can't be read; the configuration's first fault; the flat configuration can't be created, written, synced or published, or the report can't
/// be written.
pub fn run<'a, F: FileSystem, T: SuffixTeller>(
    alloc: Global,
    files: &mut F,
    teller: &mut T,
    words: &ConfWords<'a>,
) -> Result<Tally, Fault<'a>>
    ensures faults { RefusesSameConf words.now (repeated_path words.now) result }
    ensures calls { Made (F.disk files.old) (F.disk files.new) (AllConfCalls (repeated_path words.now) words.now result) }
    ensures failed { FailsByDevice result (F.failures files.old) (F.failures files.new) }
{
    match repeated_path(words) {
        Some(path) => Err(Fault::SamePath(path)),
        None => make(alloc, files, teller, words),
    }
}

/// The path of the flat configuration, where it is the same text as that of the configuration.
fn repeated_path<'a>(words: &ConfWords<'a>) -> Option<&'a str>
    ensures { option_copied result ≡ repeated_path words.now }
{
    if words.out == path_of(words.source) {
        Some(words.out)
    } else {
        None
    }
}

/// Makes the flat configuration of words whose paths differ.
fn make<'a, F: FileSystem, T: SuffixTeller>(
    alloc: Global,
    files: &mut F,
    teller: &mut T,
    words: &ConfWords<'a>,
) -> Result<Tally, Fault<'a>>
    ensures faults { IfErr result (NamesTheseConf (source_path words.now.source) words.now.out.now) }
    ensures calls { Made (F.disk files.old) (F.disk files.new) (MakesForSuffix words.now result) }
    ensures failed { FailsByDevice result (F.failures files.old) (F.failures files.new) }
{
    let Ok(schema) = Schema::builtin(alloc) else {
        return Err(run_fault(ToolFault::Memory));
    };
    let suffix = match suffix_key(alloc, &schema, words.suffix.as_bytes()) {
        Ok(suffix) => suffix,
        Err(fault) => return Err(run_fault(fault)),
    };
    match words.source {
        ConfSource::SlapdConf(path) => of_slapd_conf(
            alloc, files, teller, &schema, &suffix, path, words.out,
        ),
        ConfSource::CnConfig(path) => of_cn_config(
            alloc, files, teller, &schema, &suffix, path, words.out,
        ),
    }
}

/// The path of a configuration.
fn path_of<'a>(source: ConfSource<'a>) -> &'a str
    ensures { result.now ≡ source_path source.entry }
{
    match source {
        ConfSource::SlapdConf(path) | ConfSource::CnConfig(path) => path,
    }
}

/// Makes a flat configuration of a slapd.conf and of the files that it includes.
fn of_slapd_conf<'a, F: FileSystem, T: SuffixTeller>(
    alloc: Global,
    files: &mut F,
    teller: &mut T,
    schema: &Schema,
    suffix: &DnKey,
    path: &'a str,
    out: &'a str,
) -> Result<Tally, Fault<'a>>
    requires { schema.now ≡ builtin_rows }
    ensures faults { IfErr result (NamesTheseConf path.entry.now out.entry.now) }
    ensures calls { Made (F.disk files.old) (F.disk files.new) (MakesOfSlapdConf suffix.now path.entry.now out.entry.now result) }
    ensures failed { FailsByDevice result (F.failures files.old) (F.failures files.new) }
{
    let read = read_files(alloc, files, path)?;
    match flat_of_files(alloc, schema, suffix, read.files.as_slice()) {
        Ok(flat) => write_flat(alloc, files, out, read.mode, &flat),
        Err(fault) => {
            if fault.fault == ConfFault::NoDatabase {
                tell(teller, suffixes_of_files(alloc, read.files.as_slice()));
            }
            Err(conf_fault(fault))
        }
    }
}

/// Makes a flat configuration of the LDIF of cn=config.
fn of_cn_config<'a, F: FileSystem, T: SuffixTeller>(
    alloc: Global,
    files: &mut F,
    teller: &mut T,
    schema: &Schema,
    suffix: &DnKey,
    path: &'a str,
    out: &'a str,
) -> Result<Tally, Fault<'a>>
    requires { schema.now ≡ builtin_rows }
    ensures faults { IfErr result (NamesTheseConf path.entry.now out.entry.now) }
    ensures calls { Made (F.disk files.old) (F.disk files.new) (MakesOfConfig suffix.now path.entry.now out.entry.now result) }
    ensures failed { FailsByDevice result (F.failures files.old) (F.failures files.new) }
{
    let Opened { file, mode } = match files.open(path) {
        Ok(opened) => opened,
        Err(why) => return Err(not_opened(path, why)),
    };
    let text = match read_file(alloc, files, file, MAX_CONFIG) {
        Ok(text) => text,
        Err(why) => return Err(not_read(why)),
    };
    match flat_of_config(alloc, schema, suffix, text.as_slice()) {
        Ok(flat) => write_flat(alloc, files, out, mode, &flat),
        Err(fault) => {
            if fault == ConfFault::NoDatabase {
                tell(teller, suffixes_of_config(alloc, text.as_slice()));
            }
            Err(conf_fault(FileFault { file: None, fault }))
        }
    }
}

/// Hands the suffixes to the teller. Where they can't be had, since memory ran out, the fault is told without them.
fn tell<T: SuffixTeller>(teller: &mut T, suffixes: Result<Texts, ConfFault>) {
    if let Ok(suffixes) = suffixes {
        teller.keep(suffixes);
    }
}

/// The fault of a configuration, as the program's.
fn conf_fault<'a>(fault: FileFault) -> Fault<'a>
    ensures { IsConfFault fault result }
{
    match fault.fault {
        ConfFault::Memory => Fault::Tool(ToolFault::Memory),
        _ => Fault::Conf(fault),
    }
}

/// Writes a flat configuration into its file, and the report.
fn write_flat<'a, F: FileSystem>(
    alloc: Global,
    files: &mut F,
    path: &'a str,
    mode: u32,
    flat: &Flat,
) -> Result<Tally, Fault<'a>>
    ensures faults { IfErr result (NamesItsOutput path.entry.now) }
    ensures calls { Made (F.disk files.old) (F.disk files.new) (λ _. WritesIfRoom path.entry.now mode (flat_parts flat.now) result) }
    ensures failed { FailsByDevice result (F.failures files.old) (F.failures files.new) }
{
    let Ok(report) = report_of(alloc, flat.tally) else {
        return Err(run_fault(ToolFault::Memory));
    };
    let mut draft = match files.create(path, mode) {
        Ok(draft) => draft,
        Err(why) => return Err(not_created(path, why)),
    };
    let Ok(()) = write_flushed(&mut draft, flat.text.as_slice()) else {
        files.discard(path, draft);
        return Err(Fault::FlatUnwritten);
    };
    finish(
        files,
        path,
        draft,
        report.as_slice(),
        Fault::FlatUnwritten,
        flat.tally,
    )
}

/// `types T, rules R, frontend F`
fn report_of(alloc: Global, tally: Tally) -> Result<Vec<u8>, Memory>
    ensures { IfOk result (λ text. text.items ≡ conf_report tally) }
{
    let mut text = Vec::new(alloc);
    push_count(alloc, &mut text, b"types ", tally.types)?;
    push_count(alloc, &mut text, b", rules ", tally.rules)?;
    push_count(alloc, &mut text, b", frontend ", tally.frontend)?;
    text.push(b'\n')?;
    Ok(text)
}

/// Appends words and a number.
fn push_count(alloc: Global, text: &mut Vec<u8>, words: &[u8], number: usize) -> Result<(), Memory>
    ensures { OnOk result (text.new.items ≡ text.old.items ++ (words.now ++ decimal number)) }
{
    text.extend_from_slice(words)?;
    let digits = format!(in alloc; "{number}")?;
    text.extend_from_slice(digits.as_bytes())?;
    Ok(())
}
