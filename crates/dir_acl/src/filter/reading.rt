//! The filter that a text spells (RFC 4515, section 3), read from left to right. The filters that are still open are in a
//! `Vec`, so that no depth of a text takes the stack. The steps that make the complete ones are written as they are read.

ghost use Rattle.std.specs.Prelude.{◌≡◌, ◌≤◌, ◌∷◌, List, IfErr, IfOk, Ok, length, reverse, true};
ghost use Rattle.dir_names.specs.declared.schema.TypeRow.{TypeRow};
ghost use Rattle.dir_acl.specs.Filters.{begins_with_parenthesis, in_parentheses, test as test_tree};
ghost use Rattle.dir_acl.specs.Filters.Packed.{before_last, has_filter, last_tree, tree_of};
ghost use Rattle.dir_acl.specs.Filters.Reading.{after_list, at_start, filter_from, filter_of, one_deeper, step_after_parenthesis, step_at, step_in_test, with_filter};
ghost use Rattle.dir_acl.specs.Inside.Stack.{complete_of, stack_of, stack_over, state_at, state_of};
ghost use Rattle.dir_acl.specs.Outcome.{Reads};
ghost use Rattle.dir_acl.specs.declared.fault.FilterFault.TheVariants as FilterFault;
ghost use Rattle.dir_acl.specs.declared.filter.Step.TheVariants as Step;

use crate::filter::Step;
use crate::filter::assertion::read_test;
use crate::{Filter, FilterFault, Test};
use dir_names::{Schema, split_once};
use std::alloc::Global;

/// The greatest depth of parentheses.
pub(crate) const MAX_DEPTH: usize = 64;

/// A filter that is still open.
#[derive(Clone, Copy)]
pub(crate) enum Open {
    And,
    Or,
    Not,
}

/// The filters that were read.
#[derive(Drop)]
pub(crate) struct Progress {
    /// The steps that make those that are complete, and their tests, in the order of the text.
    steps: Vec<Step>,
    tests: Vec<Test>,
    /// Those that are open, the innermost last.
    stack: Vec<Open>,
}

/// Where the reader is.
#[derive(Drop)]
pub(crate) enum Place {
    BeforeFilter,
    AfterParenthesis,
    /// In a test, after these bytes.
    InTest(Vec<u8>),
    /// Between the filters of a list.
    InList,
    /// After the filter of a negation.
    InNegation,
    /// After the whole filter.
    AtEnd,
}

#[derive(Drop)]
pub(crate) struct State {
    progress: Progress,
    place: Place,
}

impl Filter {
    /// Reads a filter. A text that doesn't begin with `(` is read as if it stood in parentheses.
    ///
    /// # Errors
    ///
    /// `TooDeep` if a prefix of the text could begin a filter and ends in the `(` of a 65th level; else
    /// `BadFilter` if the text is no filter. `Memory` if memory runs out.
    pub fn read(alloc: Global, schema: &Schema, text: &[u8]) -> Result<Filter, FilterFault>
        ensures { Reads tree_of result (filter_of schema.now text.now) }
    {
        let whole = in_parentheses(alloc, text)?;
        read_whole(alloc, schema, whole.as_slice())
    }
}

/// A copy of the text, in parentheses if it doesn't begin with one.
pub(crate) fn in_parentheses(alloc: Global, text: &[u8]) -> Result<Vec<u8>, FilterFault>
    ensures { Reads (λ whole. whole.items) result (Ok (in_parentheses text.now)) }
{
    if begins_with_parenthesis(text) {
        return Ok(text.to_vec(alloc)?);
    }
    let mut whole = Vec::new(alloc);
    whole.push(b'(')?;
    whole.extend_from_slice(text)?;
    whole.push(b')')?;
    Ok(whole)
}

fn begins_with_parenthesis(text: &[u8]) -> bool
    ensures { result ≡ begins_with_parenthesis text.now }
{
    match text {
        [first, ..] => *first == b'(',
        [] => false,
    }
}

#[tactic(auto, using(crate::proofs::Packing::packing_steps))]
fn read_whole(alloc: Global, schema: &Schema, text: &[u8]) -> Result<Filter, FilterFault>
    ensures { Reads tree_of result (filter_from schema.now at_start text.now) }
{
    let mut state = State {
        progress: Progress {
            steps: Vec::new(alloc),
            tests: Vec::new(alloc),
            stack: Vec::new(alloc),
        },
        place: Place::BeforeFilter,
    };
    let mut rest = text;
    while let [b, more @ ..] = rest {
        state = step(alloc, schema, state, *b)?;
        (state, rest) = with_run(state, more)?;
    }
    let State { progress, place } = state;
    match place {
        Place::AtEnd => Ok(whole_filter(progress)),
        _ => Err(FilterFault::BadFilter),
    }
}

/// The last filter, which is the whole one.
#[tactic(auto, using(crate::proofs::Packing::packing_steps))]
fn whole_filter(progress: Progress) -> Filter
    ensures { tree_of result ≡ last_tree (complete_of progress) }
{
    let Progress {
        steps,
        tests,
        stack: _,
    } = progress;
    let mut steps = steps;
    let mut tests = tests;
    steps.reverse();
    steps.shrink_to_fit();
    tests.reverse();
    tests.shrink_to_fit();
    Filter { steps, tests }
}

/// The state after one byte more.
fn step(alloc: Global, schema: &Schema, state: State, b: u8) -> Result<State, FilterFault>
    ensures { Reads state_of result (step_at schema.now (state_of state).stack (state_of state).place b) }
{
    let State { progress, place } = state;
    match place {
        Place::BeforeFilter => match b {
            b'(' => one_deeper(progress),
            _ => Err(FilterFault::BadFilter),
        },
        Place::AfterParenthesis => step_after_parenthesis(alloc, schema, progress, b),
        Place::InTest(item) => step_in_test(alloc, schema, progress, item, b),
        Place::InList => match b {
            b'(' => one_deeper(progress),
            b')' => after_list(progress),
            _ => Err(FilterFault::BadFilter),
        },
        Place::InNegation => match b {
            b')' => with_filter(with_step(progress, Step::Not)?),
            _ => Err(FilterFault::BadFilter),
        },
        Place::AtEnd => Err(FilterFault::BadFilter),
    }
}

/// After a `(`.
#[tactic(auto, using(crate::proofs::Stacks::stack_steps))]
fn one_deeper(progress: Progress) -> Result<State, FilterFault>
    ensures { Reads state_of result (one_deeper (stack_of progress)) }
{
    if progress.stack.len() >= MAX_DEPTH {
        return Err(FilterFault::TooDeep);
    }
    Ok(State {
        progress,
        place: Place::AfterParenthesis,
    })
}

/// After the first byte that follows a `(`.
fn step_after_parenthesis(
    alloc: Global,
    schema: &Schema,
    progress: Progress,
    b: u8,
) -> Result<State, FilterFault>
    ensures { Reads state_of result (step_after_parenthesis schema.now (stack_of progress) b) }
{
    match b {
        b'&' => opened(with_step(progress, Step::Begin)?, Open::And, Place::InList),
        b'|' => opened(with_step(progress, Step::Begin)?, Open::Or, Place::InList),
        b'!' => opened(progress, Open::Not, Place::BeforeFilter),
        _ => step_in_test(alloc, schema, progress, Vec::new(alloc), b),
    }
}

#[tactic(auto, using(crate::proofs::Packing::packing_steps))]
fn opened(progress: Progress, innermost: Open, place: Place) -> Result<State, FilterFault>
    ensures { Reads state_of result (Ok (state_at (complete_of progress) (innermost ∷ reverse progress.stack.items) place)) }
{
    let mut progress = progress;
    progress.stack.push(innermost)?;
    Ok(State { progress, place })
}

/// After one byte more in a test.
fn step_in_test(
    alloc: Global,
    schema: &Schema,
    progress: Progress,
    item: Vec<u8>,
    b: u8,
) -> Result<State, FilterFault>
    ensures { Reads state_of result (step_in_test schema.now (stack_of progress) item.items b) }
{
    if b == b')' {
        let test = read_test(alloc, schema, item.as_slice())?;
        return after_test(progress, test);
    }
    let mut item = item;
    item.push(b)?;
    Ok(State {
        progress,
        place: Place::InTest(item),
    })
}

/// After the `)` of a test.
fn after_test(progress: Progress, test: Test) -> Result<State, FilterFault>
    ensures { Reads state_of result (Ok (with_filter (test_tree test) (stack_of progress))) }
{
    with_filter(with_test(progress, test)?)
}

/// After the `)` of a list.
#[tactic(auto, using(crate::proofs::Packing::packing_steps))]
fn after_list(progress: Progress) -> Result<State, FilterFault>
    ensures { Reads state_of result (after_list (stack_of progress)) }
{
    let mut progress = progress;
    match progress.stack.pop() {
        Some(Open::And) => with_filter(with_step(progress, Step::And)?),
        Some(Open::Or) => with_filter(with_step(progress, Step::Or)?),
        Some(Open::Not) | None => Err(FilterFault::BadFilter),
    }
}

/// In a test, the state after the bytes before the next `)`, and the text from there on. Elsewhere both as they are.
fn with_run(state: State, text: &[u8]) -> Result<(State, &[u8]), FilterFault>
    ensures ok { IfOk result (λ r. (rows : List TypeRow) → filter_from rows (state_of state) text.now ≡ filter_from rows (state_of r.0) r.1.now) }
    ensures shorter { IfOk result (λ r. length r.1.now ≤ length text.now) }
    ensures memory { IfErr result (λ fault. fault ≡ FilterFault.Memory) }
{
    let State { progress, place } = state;
    match place {
        Place::InTest(item) => {
            let mut item = item;
            let (run, after) = text.split_at(split_once(text, b')').0.len());
            item.extend_from_slice(run)?;
            let place = Place::InTest(item);
            Ok((State { progress, place }, after))
        }
        place => Ok((State { progress, place }, text)),
    }
}

/// After a filter, the last one that is complete.
#[tactic(auto, using(crate::proofs::Packing::packing_steps))]
fn with_filter(progress: Progress) -> Result<State, FilterFault>
    requires { has_filter (reverse progress.steps.items) ≡ true }
    ensures { Reads state_of result (Ok (with_filter (last_tree (complete_of progress)) (stack_over (before_last (complete_of progress)) (reverse progress.stack.items)))) }
{
    let mut progress = progress;
    match progress.stack.pop() {
        Some(Open::And) => opened(progress, Open::And, Place::InList),
        Some(Open::Or) => opened(progress, Open::Or, Place::InList),
        Some(Open::Not) => Ok(State {
            progress,
            place: Place::InNegation,
        }),
        None => Ok(State {
            progress,
            place: Place::AtEnd,
        }),
    }
}

#[tactic(auto, using(crate::proofs::Packing::packing_steps))]
fn with_step(progress: Progress, step: Step) -> Result<Progress, FilterFault>
    ensures steps { IfOk result (λ after. reverse after.steps.items ≡ step ∷ reverse progress.steps.items) }
    ensures tests { IfOk result (λ after. after.tests.items ≡ progress.tests.items) }
    ensures stack { IfOk result (λ after. after.stack.items ≡ progress.stack.items) }
    ensures memory { IfErr result (λ fault. fault ≡ FilterFault.Memory) }
{
    let mut progress = progress;
    progress.steps.push(step)?;
    Ok(progress)
}

#[tactic(auto, using(crate::proofs::Packing::packing_steps))]
fn with_test(progress: Progress, test: Test) -> Result<Progress, FilterFault>
    ensures steps { IfOk result (λ after. reverse after.steps.items ≡ Step.Test ∷ reverse progress.steps.items) }
    ensures tests { IfOk result (λ after. reverse after.tests.items ≡ test ∷ reverse progress.tests.items) }
    ensures stack { IfOk result (λ after. after.stack.items ≡ progress.stack.items) }
    ensures memory { IfErr result (λ fault. fault ≡ FilterFault.Memory) }
{
    let mut progress = progress;
    progress.steps.push(Step::Test)?;
    progress.tests.push(test)?;
    Ok(progress)
}
