//! The command line, by `clap`.

ghost use Rattle.std.specs.Prelude.{◌≡◌, ◌++◌, IfOk, Some, codes, false, map};
ghost use Rattle.clap.specs.Words.{app_of, first_value, found_of, new_rule, rule_of};
ghost use Rattle.slapkit.specs.CommandLine.{AreRead, IsTool, of_a_question, slapacl, slapconf, slapkit, slapmodify, value, bound};
ghost use Rattle.slapkit.specs.Words.{AreAccessWordsOf, AreConfWordsOf, AreQuestionWordsOf, AreWordsOf, IsNumber, source_in, source_of};

use clap::error::ErrorKind;
use clap::{Arg, ArgAction, ArgMatches, Command, Error, value_parser};
use dir_files::{AccessWords, ConfSource, ConfWords, ModifyWords, QuestionWords};
use dir_tools::ModifyOptions;
use std::alloc::{AllocError, Global};
use std::convert::AsStr;

/// What the command line asks for.
#[derive(Drop)]
pub enum Words<'a> {
    Slapmodify(ModifyWords<'a>),
    Slapacl(AccessWords<'a>),
    /// `slapacl` with a file of questions.
    Questions(QuestionWords<'a>),
    Slapconf(ConfWords<'a>),
}

/// Reads the words of a command line, the first of which is the program's name.
///
/// # Errors
///
/// What `clap` says of words that it refuses, and its help.
pub fn read_words<'a, S: AsStr>(alloc: Global, words: &'a [S]) -> Result<Words<'a>, Error>
    ensures { IfOk result (AreRead (map S.text words.entry.now)) }
{
    let mut program = program(alloc)?;
    let matches = program.try_get_matches_from_mut(words)?;
    if let Some(matches) = matches.subcommand_matches("slapmodify") {
        return Ok(Words::Slapmodify(modify_words(matches)));
    }
    if let Some(matches) = matches.subcommand_matches("slapconf") {
        return Ok(Words::Slapconf(conf_words(matches)));
    }
    let Some(matches) = matches.subcommand_matches("slapacl") else {
        return Err(program.error(ErrorKind::MissingSubcommand, "a tool must be named")?);
    };
    if matches.get_str("questions").is_some() {
        return Ok(Words::Questions(question_words(matches)));
    }
    Ok(Words::Slapacl(access_words(alloc, matches)?))
}

fn modify_words<'a>(matches: &ArgMatches<'a>) -> ModifyWords<'a>
    ensures words { AreWordsOf (found_of matches.now) result }
    ensures last { IsNumber (found_of matches.now) (codes "last") result.options.last }
{
    ModifyWords {
        suffix: matches.get_str("suffix").unwrap_or(""),
        data: matches.get_str("data").unwrap_or(""),
        out: matches.get_str("out"),
        undo: matches.get_str("undo"),
        changes: matches.get_str("changes"),
        config: matches.get_str("config"),
        options: ModifyOptions {
            go_on: matches.get_flag("go_on"),
            dry: matches.get_flag("dry"),
            verbose: matches.get_flag("verbose"),
            last: matches.get_one::<u64>("last"),
        },
    }
}

fn access_words<'a>(alloc: Global, matches: &ArgMatches<'a>) -> Result<AccessWords<'a>, AllocError>
    ensures { IfOk result (AreAccessWordsOf (found_of matches.now)) }
{
    let words = match matches.get_strs("words") {
        Some(words) => words.to_vec(alloc)?,
        None => Vec::new(alloc),
    };
    Ok(AccessWords {
        base: matches.get_str("base").unwrap_or(""),
        config: matches.get_str("config").unwrap_or(""),
        data: matches.get_str("data").unwrap_or(""),
        authc: matches.get_str("authc"),
        words,
        fake: matches.get_flag("fake"),
        verbose: matches.get_flag("verbose"),
        strict: matches.get_flag("strict"),
    })
}

fn question_words<'a>(matches: &ArgMatches<'a>) -> QuestionWords<'a>
    ensures { AreQuestionWordsOf (found_of matches.now) result }
{
    QuestionWords {
        config: matches.get_str("config").unwrap_or(""),
        questions: matches.get_str("questions").unwrap_or(""),
        data: matches.get_str("data").unwrap_or(""),
        answers: matches.get_str("answers"),
        verbose: matches.get_flag("verbose"),
        strict: matches.get_flag("strict"),
    }
}

fn conf_words<'a>(matches: &ArgMatches<'a>) -> ConfWords<'a>
    ensures { AreConfWordsOf (found_of matches.now) result }
{
    ConfWords {
        suffix: matches.get_str("suffix").unwrap_or(""),
        source: source_in(matches),
        out: matches.get_str("out").unwrap_or(""),
    }
}

/// The configuration that the words name, and its form.
fn source_in<'a>(matches: &ArgMatches<'a>) -> ConfSource<'a>
    ensures { source_in result ≡ source_of (first_value (found_of matches.now) (codes "slapd_conf")) (first_value (found_of matches.now) (codes "config")) }
{
    match matches.get_str("slapd_conf") {
        Some(path) => ConfSource::SlapdConf(path),
        None => ConfSource::CnConfig(matches.get_str("config").unwrap_or("")),
    }
}

fn program<'a>(alloc: Global) -> Result<Command<'a>, AllocError>
    ensures { IfOk result (λ r. app_of r ≡ slapkit) }
{
    Command::new(alloc, "slapkit")
        .version(VERSION)
        .about("Offline tools for the administrator of an LDAP directory")
        .after_help(EXAMPLES)
        .subcommand_required(true)
        .arg_required_else_help(true)
        .subcommand(slapmodify(alloc)?)?
        .subcommand(slapacl(alloc)?)?
        .subcommand(slapconf(alloc)?)
}

fn slapmodify<'a>(alloc: Global) -> Result<Command<'a>, AllocError>
    ensures { IfOk result (λ r. IsTool r slapmodify) }
{
    Command::new(alloc, "slapmodify")
        .about("Applies LDIF change records to an LDIF copy of a directory")
        .long_about(ABOUT)
        .after_help(EXAMPLE)
        .arg(
            path(
                alloc,
                "suffix",
                "SUFFIX",
                "The name at the directory's root",
            )
            .short('b')
            .required(true),
        )?
        .arg(
            path(
                alloc,
                "data",
                "COPY",
                "The copy, in LDIF as slapcat writes it",
            )
            .long("data")
            .required(true),
        )?
        .arg(
            path(
                alloc,
                "out",
                "NEW",
                "The file for the new copy, which must not exist yet",
            )
            .long("out")
            .required_unless_present("dry")?,
        )?
        .arg(
            path(
                alloc,
                "undo",
                "UNDO",
                "The file for the changes that take the run back, which must not exist yet",
            )
            .long("undo")
            .required_unless_present("dry")?,
        )?
        .arg(path(
            alloc,
            "changes",
            "CHANGES",
            "The change records, in LDIF [default: standard input]",
        )
        .short('l'))?
        .arg(path(
            alloc,
            "config",
            "CONF",
            "A slapd.conf whose attribute types are added to the built-in ones",
        )
        .short('f'))?
        .arg(flag(alloc, "go_on", 'c', "Go on after a refused record"))?
        .arg(flag(
            alloc,
            "dry",
            'u',
            "Dry run: report what would be done, and write no file",
        ))?
        .arg(flag(alloc, "verbose", 'v', "Report accepted records too"))?
        .arg(
            path(
                alloc,
                "last",
                "K",
                "CHANGES is an undo file: take the last K records back, and no more",
            )
            .long("last")
            .value_parser(value_parser!(u64)),
        )
}

fn slapacl<'a>(alloc: Global) -> Result<Command<'a>, AllocError>
    ensures { IfOk result (λ r. IsTool r slapacl) }
{
    Command::new(alloc, "slapacl")
        .about("Reports what a requester may do, by a slapd.conf and an LDIF copy of a directory")
        .long_about(ACCESS_ABOUT)
        .after_help(ACCESS_EXAMPLE)
        .arg(
            path(alloc, "base", "DN", "The name of the entry")
                .short('b')
                .required_unless_present("questions")?,
        )?
        .arg(
            path(
                alloc,
                "config",
                "CONF",
                "The slapd.conf that has the access rules",
            )
            .short('f')
            .required(true),
        )?
        .arg(
            path(
                alloc,
                "data",
                "COPY",
                "The copy, in LDIF as slapcat writes it",
            )
            .long("data")
            .required(true),
        )?
        .arg(path(
            alloc,
            "authc",
            "AUTHCDN",
            "The requester's name [default: nobody's]",
        )
        .short('D'))?
        .arg(flag(
            alloc,
            "fake",
            'u',
            "Do not look the entry up: take it to have no attributes",
        ))?
        .arg(flag(
            alloc,
            "verbose",
            'v',
            "Report the requester's name first, or each answer of FILE; and tell which argument a fault of CONF is about",
        ))?
        .arg(
            Arg::new(alloc, "strict")
                .long("strict")
                .help("Answer nothing where there is a note on the configuration or a word")
                .action(ArgAction::SetTrue),
        )?
        .arg(instead_of_a_question(path(
            alloc,
            "questions",
            "FILE",
            "A file of questions with the answers that are expected, in place of DN, AUTHCDN and WORD",
        )
        .long("questions"))?)?
        .arg(instead_of_a_question(
            path(
                alloc,
                "answers",
                "OUT",
                "The file for the questions with their answers, which must not exist yet",
            )
            .long("answers")
            .requires_arg("questions")?,
        )?)?
        .arg(
            Arg::new(alloc, "words")
                .value_name("WORD")
                .help("What is asked for, as attr[/access][:value] [default: entry]")
                .num_args(0..)
                .action(ArgAction::Append),
        )
}

fn slapconf<'a>(alloc: Global) -> Result<Command<'a>, AllocError>
    ensures { IfOk result (λ r. IsTool r slapconf) }
{
    Command::new(alloc, "slapconf")
        .about("Makes one flat slapd.conf of the configuration of a site")
        .long_about(CONF_ABOUT)
        .after_help(CONF_EXAMPLE)
        .arg(
            path(
                alloc,
                "suffix",
                "SUFFIX",
                "The suffix of the database that is asked about",
            )
            .short('b')
            .required(true),
        )?
        .arg(
            path(
                alloc,
                "slapd_conf",
                "CONF",
                "The slapd.conf, which may include other files",
            )
            .short('f')
            .required_unless_present("config")?
            .conflicts_with("config")?,
        )?
        .arg(path(
            alloc,
            "config",
            "LDIF",
            "The LDIF of cn=config, as slapcat -n 0 writes it",
        )
        .long("config"))?
        .arg(
            path(
                alloc,
                "out",
                "FLAT",
                "The file for the flat configuration, which must not exist yet",
            )
            .long("out")
            .required(true),
        )
}

/// An argument that goes with none that says what a single question asks.
fn instead_of_a_question<'a>(arg: Arg<'a>) -> Result<Arg<'a>, AllocError>
    ensures excludes { IfOk result (λ r. map (λ id. id.now) r.conflicts.items ≡ map (λ id. id.now) arg.entry.conflicts.items ++ of_a_question) }
    ensures rule { IfOk result (λ r. rule_of r ≡ bound (rule_of arg.entry)) }
    ensures local { IfOk result (λ r. r.global ≡ arg.entry.global) }
{
    arg.conflicts_with("base")?
        .conflicts_with("authc")?
        .conflicts_with("fake")?
        .conflicts_with("words")
}

fn path<'a>(alloc: Global, id: &'a str, name: &'a str, help: &'a str) -> Arg<'a>
    ensures rule { rule_of result ≡ value id.entry.now }
    ensures local { result.global ≡ false }
{
    Arg::new(alloc, id)
        .value_name(name)
        .help(help)
        .action(ArgAction::Set)
}

fn flag<'a>(alloc: Global, id: &'a str, letter: char, help: &'a str) -> Arg<'a>
    ensures rule { rule_of result ≡ record (new_rule id.entry.now) { short = Some letter; action = Some ArgAction.SetTrue } }
    ensures local { result.global ≡ false }
{
    Arg::new(alloc, id)
        .short(letter)
        .help(help)
        .action(ArgAction::SetTrue)
}

const VERSION: &str = "0.1.0";

const EXAMPLES: &str = "\
Examples:
  slapkit slapmodify -b dc=com --data copy.ldif --out new.ldif --undo undo.ldif -l changes.ldif
  slapkit slapacl -b cn=a,dc=com -f slapd.conf --data copy.ldif -D cn=b,dc=com cn/read
  slapkit slapconf -b dc=com --config config.ldif --out flat.conf";

const ABOUT: &str = "\
Applies LDIF change records to an LDIF copy of a directory, and writes the new copy, an undo file and \
a report. The undo file is a text of changes too: run on the new copy, it leads back to the first directory. \
The report goes to standard output. The exit status is 0 where every record was accepted, and else 1.";

const EXAMPLE: &str = "\
Example:
  slapkit slapmodify -b dc=com --data copy.ldif --out new.ldif --undo undo.ldif -l changes.ldif";

const ACCESS_ABOUT: &str = "\
Reports what a requester may do with an entry of an LDIF copy of a directory, under the access rules of a slapd.conf. \
For each word the report has the privileges on an attribute, or on the entry (entry) or its children (children); with an \
access level, as in cn/read, whether it is ALLOWED or DENIED. The exit status is 0 where the question was answered, and \
else 1. With --questions it answers a file of questions, reports each answer that is not the expected one, and exits with 0 where there is none.";

const ACCESS_EXAMPLE: &str = "\
Example:
  slapkit slapacl -b cn=a,dc=com -f slapd.conf --data copy.ldif -D cn=b,dc=com cn/read entry
  slapkit slapacl -f slapd.conf --data copy.ldif --questions questions.ldif --answers answers.ldif";

const CONF_ABOUT: &str = "\
Makes one flat slapd.conf, which slapacl and slapmodify read, of the configuration of a site: the attribute types with their macros expanded, and of \
the database of SUFFIX its suffix, its rootdn and its access rules, with the frontend's rules after these. It reads a slapd.conf with all files that it includes, or the \
LDIF of cn=config. Passwords are not written. The report has the number of types and rules. The exit status is 0 where the file was made, and else 1.";

const CONF_EXAMPLE: &str = "\
Example:
  slapcat -n 0 | slapkit slapconf -b dc=com --config /dev/stdin --out flat.conf
  slapkit slapconf -b dc=com -f /etc/ldap/slapd.conf --out flat.conf";
