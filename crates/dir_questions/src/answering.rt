//! The answers to a block of questions.

ghost use Rattle.std.specs.Prelude.{◌≡◌, IfOk, Ok, OnOk, map, option_copied, option_map};
ghost use Rattle.dir_acl.specs.Inside.Fakes.{attributes_of};
ghost use Rattle.dir_acl.specs.Inside.ReadingConfig.{configuration_of};
ghost use Rattle.dir_acl.specs.Inside.Requests.{question_of};
ghost use Rattle.dir_acl.specs.RulesFor.{IsRulesFor};
ghost use Rattle.dir_acl.specs.declared.access.Asked.TheVariants as Asked;
ghost use Rattle.dir_tools.specs.AccessReport.{request_for};
ghost use Rattle.dir_questions.specs.Answers.{answer_on, answered_on, answers_to, parts_of_block};
ghost use Rattle.dir_questions.specs.Inside.Answering.{answer_in, missing};
ghost use Rattle.dir_questions.specs.Questions.{no_such_entry};
ghost use Rattle.dir_questions.specs.Reading.{block_in, word_in};

use crate::reading::{AskedWord, Block, NO_SUCH_ENTRY};
use dir_acl::{Asked, Config, Request, TargetRules};
use dir_names::{DnKey, Memory};
use dir_tools::{find_target, push_answer};
use dir_tree::{Directory, Entry};
use std::alloc::Global;

/// The answer to a word.
#[derive(Drop)]
pub(crate) struct Answer<'b, 't> {
    pub(crate) asked: &'b AskedWord<'t>,
    pub(crate) text: Vec<u8>,
}

/// The answers to the words of a block, in their order.
pub(crate) fn answers_to<'b, 't, D: Directory>(
    alloc: Global,
    config: &Config,
    directory: &D,
    block: &'b Block<'t>,
) -> Result<Vec<Answer<'b, 't>>, Memory>
    ensures { IfOk result (λ answers. map answer_in answers.items ≡ answers_to (configuration_of config.now) (D.state directory.now) (block_in block.now)) }
{
    match find_target(directory, &block.base.key, block.fake) {
        Ok(target) => answers_on(alloc, config, directory, block, target),
        Err(_) => no_answers(alloc, block),
    }
}

/// The answers where the copy has no such entry.
fn no_answers<'b, 't>(alloc: Global, block: &'b Block<'t>) -> Result<Vec<Answer<'b, 't>>, Memory>
    ensures { IfOk result (λ answers. map answer_in answers.items ≡ map missing (block_in block.now).words) }
{
    let mut answers = Vec::new(alloc);
    for asked in block.words.as_slice() {
        let text = no_such_entry(alloc)?;
        answers.push(Answer { asked, text })?;
    }
    Ok(answers)
}

fn no_such_entry(alloc: Global) -> Result<Vec<u8>, Memory>
    ensures { IfOk result (λ text. text.items ≡ no_such_entry) }
{
    Ok(NO_SUCH_ENTRY.to_vec(alloc)?)
}

/// The answers on an entry, or on one that is made up.
fn answers_on<'b, 't, D: Directory>(
    alloc: Global,
    config: &Config,
    directory: &D,
    block: &'b Block<'t>,
    target: Option<&Entry>,
) -> Result<Vec<Answer<'b, 't>>, Memory>
    ensures { IfOk result (λ answers. map answer_in answers.items ≡ map (answered_on (configuration_of config.now) (D.state directory.now) (block_in block.now) (Ok (option_copied target.entry))) (block_in block.now).words) }
{
    let mut answers = Vec::new(alloc);
    let mut rules = config.rules_for(alloc, &block.base.key, target);
    for asked in block.words.as_slice() {
        let text = answer_on(alloc, &mut rules, directory, block, target, asked)?;
        answers.push(Answer { asked, text })?;
    }
    Ok(answers)
}

/// The answer to a word, by the rules for the target.
fn answer_on<D: Directory>(
    alloc: Global,
    rules: &mut TargetRules<'_>,
    directory: &D,
    block: &Block<'_>,
    target: Option<&Entry>,
    asked: &AskedWord<'_>,
) -> Result<Vec<u8>, Memory>
    requires { IsRulesFor block.now.base.key (attributes_of (option_copied target)) rules.old }
    ensures text { IfOk result (λ text. text.items ≡ answer_on (configuration_of rules.old.config.now) (D.state directory.now) (block_in block.now) (Ok (option_copied target.entry)) (word_in asked.now)) }
    ensures config { OnOk result (rules.new.config.now ≡ rules.old.config.now) }
    ensures target { OnOk result (IsRulesFor block.now.base.key (attributes_of (option_copied target.entry)) rules.new) }
{
    let request = request_of(alloc, block, target, &asked.word.asked)?;
    let held = rules.privileges(directory, &request);
    let mut text = Vec::new(alloc);
    push_answer(alloc, &mut text, &asked.word, held)?;
    Ok(text)
}

/// The request of a block for what a word asks.
fn request_of<'e>(
    alloc: Global,
    block: &Block<'_>,
    target: Option<&'e Entry>,
    asked: &Asked,
) -> Result<Request<'e>, Memory>
    ensures { IfOk result (λ request. question_of request ≡ request_for (parts_of_block (block_in block.now)) (option_copied target.entry) asked.now) }
{
    Ok(Request {
        requester: requester_key(alloc, block)?,
        target: copy_of(alloc, &block.base.key)?,
        entry: target,
        asked: asked.try_clone(alloc)?,
    })
}

fn requester_key(alloc: Global, block: &Block<'_>) -> Result<Option<DnKey>, Memory>
    ensures { IfOk result (λ key. key ≡ option_map (λ given. given.key) block.now.requester) }
{
    match &block.requester {
        None => Ok(None),
        Some(given) => Ok(Some(copy_of(alloc, &given.key)?)),
    }
}

fn copy_of(alloc: Global, key: &DnKey) -> Result<DnKey, Memory>
    ensures { IfOk result (λ copy. copy ≡ key.now) }
{
    key.try_clone(alloc).map_err(|_| Memory)
}
