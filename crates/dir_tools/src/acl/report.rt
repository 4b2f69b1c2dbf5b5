//! The report of `run_acl`.

ghost use Rattle.std.specs.Prelude.{◌≡◌, ◌++◌, IfOk, OnOk, option_copied, option_map, true};
ghost use Rattle.dir_acl.specs.Inside.ReadingConfig.{configuration_of};
ghost use Rattle.dir_acl.specs.Inside.Requests.{question_of};
ghost use Rattle.dir_tools.specs.AccessReport.{answer_text, report_on, request_for, requester_line, requester_text, verdict, word_line};
ghost use Rattle.dir_tools.specs.Inside.Asking.{parts_in, word_in};

use crate::acl::parts::{Parts, Word};
use dir_acl::{Asked, Config, Privileges, Request};
use dir_names::{Dn, DnKey, Memory};
use dir_tree::{Directory, Entry};
use std::alloc::Global;

/// The whole report.
pub(super) fn report_text<D: Directory>(
    alloc: Global,
    verbose: bool,
    config: &Config,
    directory: &D,
    parts: &Parts<'_>,
    target: Option<&Entry>,
) -> Result<Vec<u8>, Memory>
    ensures { IfOk result (λ text. text.items ≡ report_on verbose (configuration_of config.now) (D.state directory.now) (parts_in parts.now) (option_copied target.entry)) }
{
    let mut text = Vec::new(alloc);
    if verbose {
        push_requester(alloc, &mut text, &parts.requester)?;
    }
    let mut rules = config.rules_for(alloc, &parts.base, target);
    for word in parts.words.as_slice() {
        let request = request_for(alloc, parts, target, &word.asked)?;
        let held = rules.privileges(directory, &request);
        push_word(alloc, &mut text, word, held)?;
    }
    Ok(text)
}

/// The line of the requester.
fn push_requester(
    alloc: Global,
    text: &mut Vec<u8>,
    requester: &Option<(Dn, DnKey)>,
) -> Result<(), Memory>
    ensures { OnOk result (text.new.items ≡ text.old.items ++ requester_line true requester.now) }
{
    let name = requester_text(alloc, requester)?;
    text.extend_from_slice(b"authcDN: ")?;
    text.extend_from_slice(name.as_slice())?;
    text.push(b'\n')?;
    Ok(())
}

/// The requester's printed name, or `anonymous`.
fn requester_text(alloc: Global, requester: &Option<(Dn, DnKey)>) -> Result<Vec<u8>, Memory>
    ensures { IfOk result (λ text. text.items ≡ requester_text requester.now) }
{
    if let Some((name, _)) = requester {
        if !name.rdns().is_empty() {
            return name.print(alloc).map_err(|_| Memory);
        }
    }
    Ok(b"anonymous".to_vec(alloc)?)
}

/// The request for what a word asks.
fn request_for<'e>(
    alloc: Global,
    parts: &Parts<'_>,
    target: Option<&'e Entry>,
    asked: &Asked,
) -> Result<Request<'e>, Memory>
    ensures { IfOk result (λ request. question_of request ≡ request_for (parts_in parts.now) (option_copied target.entry) asked.now) }
{
    Ok(Request {
        requester: requester_key(alloc, &parts.requester)?,
        target: parts.base.try_clone(alloc).map_err(|_| Memory)?,
        entry: target,
        asked: asked.try_clone(alloc)?,
    })
}

fn requester_key(alloc: Global, requester: &Option<(Dn, DnKey)>) -> Result<Option<DnKey>, Memory>
    ensures { IfOk result (λ key. key ≡ option_map (λ requester. requester.1) requester.now) }
{
    match requester {
        None => Ok(None),
        Some((_, key)) => match key.try_clone(alloc) {
            Ok(key) => Ok(Some(key)),
            Err(_) => Err(Memory),
        },
    }
}

/// The line of a word, with its answer.
fn push_word(
    alloc: Global,
    text: &mut Vec<u8>,
    word: &Word<'_>,
    held: Privileges,
) -> Result<(), Memory>
    ensures { OnOk result (text.new.items ≡ text.old.items ++ word_line (word_in word.now) held) }
{
    text.extend_from_slice(word.attr)?;
    if let Some((access, _)) = &word.access {
        text.push(b'/')?;
        text.extend_from_slice(access)?;
    }
    text.extend_from_slice(b": ")?;
    push_answer(alloc, text, word, held)?;
    text.push(b'\n')?;
    Ok(())
}

/// Appends the answer to a word: the privileges that are held, or whether the level that it names is allowed.
///
/// # Errors
///
/// Memory ran out.
pub fn push_answer(
    alloc: Global,
    text: &mut Vec<u8>,
    word: &Word<'_>,
    held: Privileges,
) -> Result<(), Memory>
    ensures { OnOk result (text.new.items ≡ text.old.items ++ answer_text (word_in word.now).access held) }
{
    match &word.access {
        None => text.extend_from_slice(held.text(alloc)?.as_slice())?,
        Some((_, level)) => text.extend_from_slice(verdict(held.allows(*level)))?,
    }
    Ok(())
}

fn verdict(is_allowed: bool) -> &'static [u8]
    ensures { result.now ≡ verdict is_allowed }
{
    if is_allowed { b"ALLOWED" } else { b"DENIED" }
}
