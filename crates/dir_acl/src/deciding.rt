//! The argument of a configuration's line that a fault is about, and the physical line on which it begins (slapd.conf(5), "GENERAL FORMAT").

ghost use Rattle.std.specs.Prelude.{◌≡◌, ◌≤◌, IfOk, Ok, length, option_copied};
ghost use Rattle.dir_acl.specs.Config.{bounded_lines};
ghost use Rattle.dir_acl.specs.Config.AccessRules.{before_to};
ghost use Rattle.dir_acl.specs.FaultArgument.{deciding_word, fault_argument, line_at, of_bad_directive, of_complete, of_directive, of_second_suffix, rule_read, word_in};

use crate::config::access_rules::{Place, after_argument};
use crate::config::directives::are_complete;
use crate::note::lines::{after_keyword, begins_with};
use crate::{ConfigCause, ConfigFault};
use dir_conf_text::{ConfigLine, ConfigText, line_with_words};
use dir_names::{Bytes, Memory, Schema};
use std::alloc::Global;

/// The argument of a configuration's line that a fault is about.
#[derive(Debug, Drop)]
pub struct FaultArgument {
    /// The number, from 1, of the physical line on which the argument begins.
    pub line: u64,
    /// The argument, without its quotes; none if it has an open quote or a backslash at the line's end.
    pub argument: Option<Bytes>,
}

/// The argument that a fault of the configuration with this text and these lines is about: of an access rule the one up to which it was
/// read, and the last one where the line ends too early; of another directive the keyword or a name after it. A fault without a line is
/// about none, nor is one of the definition of a type, which is not cut into arguments.
///
/// # Errors
///
/// Memory ran out.
pub fn fault_argument(
    alloc: Global,
    schema: &Schema,
    text: &[u8],
    lines: &ConfigText,
    fault: ConfigFault,
) -> Result<Option<FaultArgument>, Memory>
    requires { bounded_lines text.now ≡ Ok lines.now }
    ensures { IfOk result (λ found. found ≡ fault_argument schema.now text.now fault) }
{
    let Some(line) = line_at(fault.line, lines.lines()) else {
        return Ok(None);
    };
    let at = deciding_word(alloc, schema, fault.cause, line.words())?;
    word_in(alloc, text, line.number, at, line.words())
}

/// The line of this number, if one that says something begins there.
fn line_at(number: u64, lines: &[ConfigLine]) -> Option<&ConfigLine>
    ensures { option_copied result ≡ line_at number lines.now }
{
    lines.iter().find(|line| line.number == number)
}

// ---- its word

/// The place, from 0, of the word that decides: the last one that is read.
fn deciding_word(
    alloc: Global,
    schema: &Schema,
    cause: ConfigCause,
    words: &[Option<Bytes>],
) -> Result<usize, Memory>
    ensures { IfOk result (λ at. at ≡ deciding_word schema.now cause words.now) }
{
    match cause {
        ConfigCause::GlobalAccess => Ok(0),
        ConfigCause::BadDirective => of_bad_directive(alloc, schema, words),
        cause => of_complete(alloc, schema, cause, words),
    }
}

fn of_bad_directive(
    alloc: Global,
    schema: &Schema,
    words: &[Option<Bytes>],
) -> Result<usize, Memory>
    ensures { IfOk result (λ at. at ≡ of_bad_directive schema.now words.now) }
{
    if are_complete(words) {
        return of_complete(alloc, schema, ConfigCause::BadDirective, words);
    }
    Ok(words.len().saturating_sub(1))
}

fn of_complete(
    alloc: Global,
    schema: &Schema,
    cause: ConfigCause,
    words: &[Option<Bytes>],
) -> Result<usize, Memory>
    ensures { IfOk result (λ at. at ≡ of_complete schema.now cause words.now) }
{
    if begins_with(words, b"access") {
        return rule_read(alloc, schema, after_keyword(words));
    }
    Ok(of_directive(cause, words))
}

fn of_directive(cause: ConfigCause, words: &[Option<Bytes>]) -> usize
    ensures { result ≡ of_directive cause words.now }
{
    match cause {
        ConfigCause::BadDirective => 0,
        ConfigCause::SecondSuffix => of_second_suffix(words),
        _ => 1,
    }
}

/// The second name of the line, or else its last word.
fn of_second_suffix(words: &[Option<Bytes>]) -> usize
    ensures { result ≡ of_second_suffix words.now }
{
    if words.len() > 2 {
        return 2;
    }
    words.len().saturating_sub(1)
}

/// How many of a rule's arguments are read.
fn rule_read(alloc: Global, schema: &Schema, arguments: &[Option<Bytes>]) -> Result<usize, Memory>
    ensures { IfOk result (λ read. read ≡ rule_read schema.now before_to arguments.now) }
{
    let mut place = Place::BeforeTo;
    for (i, argument) in arguments.iter().enumerate() {
        place = match after_argument(alloc, schema, place, argument) {
            Ok(next) => next,
            Err(ConfigCause::Memory) => return Err(Memory),
            Err(_) => return Ok(i + 1),
        };
    }
    Ok(arguments.len())
}

/// The word at this place of a line of this number, with the physical line on which it begins.
fn word_in(
    alloc: Global,
    text: &[u8],
    number: u64,
    at: usize,
    words: &[Option<Bytes>],
) -> Result<Option<FaultArgument>, Memory>
    requires { length text.now ≤ 16777216 }
    ensures { IfOk result (λ found. found ≡ word_in text.now number at words.now) }
{
    let Some(word) = words.get(at) else {
        return Ok(None);
    };
    let argument = match word {
        Some(word) => Some(Bytes::new(word.as_slice().to_vec(alloc)?)),
        None => None,
    };
    Ok(Some(FaultArgument {
        line: line_with_words(alloc, text, number, at + 1)?,
        argument,
    }))
}
