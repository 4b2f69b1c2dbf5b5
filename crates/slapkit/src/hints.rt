//! Notes on standard error beside a fault or a refused record: what the system said, what a text is, and what it lacks. For them a file is looked at once
//! more, where it is one of bytes: a pipe, a terminal and a device are not.

use dir_change::ResultCode;
use dir_files::slapconf::SuffixTeller;
use dir_files::{
    AccessWords, ConfSource, ConfWords, Fault, FileSystem, ModifyWords, ProgressLine,
    QuestionWords, ShownText, SystemFiles,
};
use dir_hints::{CopyNames, Form, RecordCount, count_records, form_in, names_in};
use dir_names::{Dn, DnKey, Schema, Texts};
use dir_questions::QuestionsFault;
use dir_tools::{Cause, Summary, ToolFault, read_config, run_schema};
use std::alloc::Global;
use std::io::{self, Input, IsTerminal};
use std::rt::Files;

/// Tells what is known beside the answer of a tool.
#[derive(Drop)]
pub struct Hints<'h, 'l, R> {
    rt: &'h R,
    /// The line that tells how far the reading is, which makes room for notes.
    line: &'l ProgressLine,
    files: &'h mut SystemFiles<'l, R>,
}

impl<'h, 'l, R: Files + Input + Print + Eprint + AllocGlobal> Hints<'h, 'l, R>
where
    R::Reader: IsTerminal,
{
    pub fn new(
        rt: &'h R,
        line: &'l ProgressLine,
        files: &'h mut SystemFiles<'l, R>,
    ) -> Hints<'h, 'l, R> {
        Hints { rt, line, files }
    }

    /// After a run of `slapmodify`.
    pub fn after_run(
        &mut self,
        words: &ModifyWords<'_>,
        answer: &Result<Summary, Fault<'_>>,
    ) -> io::Result<()> {
        match answer {
            Ok(summary) if summary.refused == 0 => Ok(()),
            Ok(summary) => self.after_refusal(words, summary),
            Err(Fault::Tool(ToolFault::BadCopy(_, cause))) => {
                self.tell_form(Some(words.data))?;
                if is_missing(cause) {
                    self.tell_names_of_run(words)?;
                }
                Ok(())
            }
            Err(Fault::Tool(ToolFault::BadChanges(_))) => self.tell_form(words.changes),
            Err(Fault::Tool(ToolFault::Config(_))) => self.tell_form(words.config),
            Err(fault) => self.tell_reason(fault),
        }
    }

    /// After a run that refused a record.
    fn after_refusal(&mut self, words: &ModifyWords<'_>, summary: &Summary) -> io::Result<()> {
        self.tell_form(words.changes)?;
        self.tell_names_of_run(words)?;
        if words.options.go_on || words.options.last.is_some() {
            return Ok(());
        }
        self.tell_rest(words.changes, summary)
    }

    /// After a question of `slapacl`.
    pub fn after_question(
        &mut self,
        words: &AccessWords<'_>,
        answer: &Result<(), Fault<'_>>,
    ) -> io::Result<()> {
        match answer {
            Ok(()) => Ok(()),
            Err(fault) => self.after_access(words.config, words.data, fault),
        }
    }

    /// After a file of questions.
    pub fn after_questions<T>(
        &mut self,
        words: &QuestionWords<'_>,
        answer: &Result<T, Fault<'_>>,
    ) -> io::Result<()> {
        match answer {
            Ok(_) => Ok(()),
            Err(Fault::Questions(QuestionsFault::Stream(_) | QuestionsFault::Block(..))) => {
                self.tell_form(Some(words.questions))
            }
            Err(Fault::Questions(QuestionsFault::Tool(fault))) => {
                self.after_access(words.config, words.data, &Fault::Tool(*fault))
            }
            Err(fault) => self.after_access(words.config, words.data, fault),
        }
    }

    /// After a fault of the configuration or of the copy.
    fn after_access(&mut self, config: &str, data: &str, fault: &Fault<'_>) -> io::Result<()> {
        match fault {
            Fault::Tool(ToolFault::Config(_)) => self.tell_form(Some(config)),
            Fault::Tool(ToolFault::BadCopy(_, cause)) => {
                self.tell_form(Some(data))?;
                if is_missing(cause) {
                    self.tell_names_of_question(config, data)?;
                }
                Ok(())
            }
            Fault::Tool(ToolFault::NoEntry) => self.tell_names_of_question(config, data),
            fault => self.tell_reason(fault),
        }
    }

    /// After `slapconf`.
    pub fn after_configuration<T>(
        &mut self,
        words: &ConfWords<'_>,
        suffixes: &KeptSuffixes,
        answer: &Result<T, Fault<'_>>,
    ) -> io::Result<()> {
        match answer {
            Ok(_) => Ok(()),
            Err(Fault::Conf(_)) => {
                self.tell_suffixes(suffixes)?;
                self.tell_form(Some(match words.source {
                    ConfSource::SlapdConf(path) | ConfSource::CnConfig(path) => path,
                }))
            }
            Err(fault) => self.tell_reason(fault),
        }
    }

    /// Tells why a file can't be opened.
    fn tell_reason(&self, fault: &Fault<'_>) -> io::Result<()> {
        if let Fault::CannotOpen(_) = fault
            && let Some(reason) = self.files.reason()
        {
            self.line.clear();
            eprintln!(self.rt; "slapkit: note: {reason}")?;
        }
        Ok(())
    }

    /// Tells what the first bytes of a file show that it is, where it is neither LDIF nor a slapd.conf.
    fn tell_form(&mut self, path: Option<&str>) -> io::Result<()> {
        if let Some(path) = path
            && let Some(form) = self.form_at(path)
        {
            self.line.clear();
            eprintln!(self.rt; "slapkit: note: {} {form}", ShownText(path))?;
        }
        Ok(())
    }

    fn form_at(&mut self, path: &str) -> Option<Form> {
        let mut text = self.reopened(path)?;
        form_in(&mut text)
    }

    /// A file, to be looked at once more.
    fn reopened(&mut self, path: &str) -> Option<<SystemFiles<'l, R> as FileSystem>::Input> {
        if !self.files.is_regular(path) {
            return None;
        }
        Some(self.files.open(path).ok()?.file)
    }

    /// Tells of the copy of a run that it has no record, or none of the suffix's name.
    fn tell_names_of_run(&mut self, words: &ModifyWords<'_>) -> io::Result<()> {
        match self.schema(words.config) {
            Some(schema) => match suffix_key(self.rt.alloc(), &schema, words.suffix) {
                Some(suffix) => self.tell_names(&schema, &suffix, words.data),
                None => Ok(()),
            },
            None => Ok(()),
        }
    }

    /// The types under which a run was.
    fn schema(&mut self, config: Option<&str>) -> Option<Schema> {
        let schema = Schema::builtin(self.rt.alloc()).ok()?;
        match config {
            Some(path) => {
                let mut config = self.reopened(path)?;
                run_schema(self.rt.alloc(), &schema, &mut config).ok()
            }
            None => Some(schema),
        }
    }

    /// Tells of the copy of a question that it has no record, or none of the suffix's name.
    fn tell_names_of_question(&mut self, config: &str, data: &str) -> io::Result<()> {
        let Ok(schema) = Schema::builtin(self.rt.alloc()) else {
            return Ok(());
        };
        let Some(mut text) = self.reopened(config) else {
            return Ok(());
        };
        match read_config(self.rt.alloc(), &schema, &mut text) {
            Ok((types, config)) => self.tell_names(&types, config.suffix(), data),
            Err(_) => Ok(()),
        }
    }

    fn tell_names(&mut self, schema: &Schema, suffix: &DnKey, data: &str) -> io::Result<()> {
        let Some(copy) = self.reopened(data) else {
            return Ok(());
        };
        match names_in(self.rt.alloc(), schema, suffix, copy) {
            Some(CopyNames::Empty) => {
                self.line.clear();
                eprintln!(self.rt; "slapkit: note: {} has no record", ShownText(data))
            }
            Some(CopyNames::Others(first)) => {
                let first = std::str::from_utf8(first.as_slice()).unwrap_or("");
                self.line.clear();
                eprintln!(self.rt;
                    "slapkit: note: no record of {} is the suffix's; the first is {first}",
                    ShownText(data)
                )
            }
            Some(CopyNames::HasSuffix) | None => Ok(()),
        }
    }

    /// Tells how many records of a file were not looked at, after the refused one.
    fn tell_rest(&mut self, changes: Option<&str>, summary: &Summary) -> io::Result<()> {
        let Some(path) = changes else {
            return Ok(());
        };
        let Some((records, is_all)) = self.records_at(path) else {
            return Ok(());
        };
        let looked_at = summary.accepted.saturating_add(summary.refused);
        let rest = records.saturating_sub(looked_at);
        if is_all && rest == 0 {
            return Ok(());
        }
        let least = if is_all { "" } else { "at least " };
        self.line.clear();
        eprintln!(self.rt;
            "slapkit: note: records after the refused one that were not looked at: {least}{rest}; -c goes on"
        )
    }

    fn records_at(&mut self, path: &str) -> Option<(u64, bool)> {
        let schema = Schema::builtin(self.rt.alloc()).ok()?;
        let text = self.reopened(path)?;
        let RecordCount { records, is_all } = count_records(self.rt.alloc(), &schema, text);
        Some((records, is_all))
    }

    /// Tells which suffixes a configuration has, where they were kept.
    fn tell_suffixes(&self, kept: &KeptSuffixes) -> io::Result<()> {
        let Some(suffixes) = &kept.suffixes else {
            return Ok(());
        };
        if suffixes.as_slice().is_empty() {
            self.line.clear();
            return eprintln!(self.rt; "slapkit: note: the configuration has no suffix");
        }
        for suffix in suffixes.as_slice() {
            let text = std::str::from_utf8(suffix.as_slice()).unwrap_or("(not UTF-8)");
            self.line.clear();
            eprintln!(self.rt;
                "slapkit: note: the configuration has the suffix {}",
                ShownText(text)
            )?;
        }
        Ok(())
    }
}

/// Whether a copy is refused since an entry has no parent, or is outside the suffix.
fn is_missing(cause: &Cause) -> bool {
    matches!(cause, Cause::Code(ResultCode::NoSuchObject))
}

/// The key of the suffix, which the run has read.
fn suffix_key(alloc: Global, schema: &Schema, suffix: &str) -> Option<DnKey> {
    let suffix = Dn::read(alloc, suffix.as_bytes()).ok()?;
    suffix.key(alloc, schema).ok()
}

/// The suffixes of a configuration in which the wanted one was not found.
#[derive(Drop)]
pub struct KeptSuffixes {
    suffixes: Option<Texts>,
}

impl KeptSuffixes {
    pub fn new() -> KeptSuffixes {
        KeptSuffixes { suffixes: None }
    }
}

impl SuffixTeller for KeptSuffixes {
    fn keep(&mut self, suffixes: Texts) {
        self.suffixes = Some(suffixes);
    }
}
