//! What a command line asks for.

use dir_tools::ModifyOptions;

/// The words of `slapkit slapmodify`.
#[derive(Debug, Drop)]
pub struct ModifyWords<'a> {
    pub suffix: &'a str,
    pub data: &'a str,
    /// Where the new copy goes; a dry run doesn't need it.
    pub out: Option<&'a str>,
    /// Where the undo file goes; a dry run doesn't need it.
    pub undo: Option<&'a str>,
    /// The file of changes; without it they come from standard input.
    pub changes: Option<&'a str>,
    /// The slapd.conf that defines attribute types; without it there are the built-in ones alone.
    pub config: Option<&'a str>,
    pub options: ModifyOptions,
}

/// The words of `slapkit slapacl`.
#[derive(Debug, Drop)]
pub struct AccessWords<'a> {
    pub base: &'a str,
    pub config: &'a str,
    pub data: &'a str,
    /// The requester's name; without it nobody asks.
    pub authc: Option<&'a str>,
    /// The words `attr[/access][:value]`.
    pub words: Vec<&'a str>,
    pub fake: bool,
    pub verbose: bool,
    /// Where there are notes on the configuration or on the words, nothing is answered.
    pub strict: bool,
}

/// The words of `slapkit slapacl --questions`.
#[derive(Debug, Drop)]
pub struct QuestionWords<'a> {
    pub config: &'a str,
    /// The file of questions.
    pub questions: &'a str,
    pub data: &'a str,
    /// Where the questions go with their answers, if they are to be written again.
    pub answers: Option<&'a str>,
    /// Report each answer, also those that are as expected.
    pub verbose: bool,
    /// Where there are notes on the configuration, nothing is answered.
    pub strict: bool,
}

/// The words of `slapkit slapconf`.
#[derive(Debug, Drop)]
pub struct ConfWords<'a> {
    /// The suffix of the database.
    pub suffix: &'a str,
    /// The configuration.
    pub source: ConfSource<'a>,
    /// Where the flat configuration goes.
    pub out: &'a str,
}

/// The file that has a configuration, and how it has it.
#[derive(Clone, Copy, Debug)]
pub enum ConfSource<'a> {
    /// As a slapd.conf, which may include other files.
    SlapdConf(&'a str),
    /// As LDIF of cn=config.
    CnConfig(&'a str),
}

/// The files to be written: the new copy and the undo file.
#[derive(Clone, Copy, PartialEq, Eq, Debug)]
pub struct OutputPaths<'a> {
    pub out: &'a str,
    pub undo: &'a str,
}
