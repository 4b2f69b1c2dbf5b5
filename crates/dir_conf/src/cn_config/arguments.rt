//! The arguments of an access rule in cn=config (slapd-config(5), `olcAccess`).

ghost use Rattle.std.specs.Prelude.{◌≡◌, ◌++◌, ◌∷◌, [], None, Some, Ok, IfErr, IfOk, option_map};
ghost use Rattle.dir_conf.specs.CnConfig.Arguments.{arguments_from, arguments_of, last_argument, step_in_argument, step_of};

use dir_conf_text::is_space;
use dir_names::{Bytes, Memory, Texts};
use std::alloc::Global;

/// Where in a value the reader is.
#[derive(Clone, Copy)]
pub(crate) enum Spot {
    /// Between arguments.
    Between,
    /// In an argument.
    Plain,
    /// In an argument, in quotes.
    Quoted,
    /// After the quotes that end an argument.
    Closed,
}

/// What a byte does.
#[derive(Clone, Copy)]
pub(crate) enum Step {
    /// It is no part of an argument.
    Skip(Spot),
    /// It is the next byte of the argument.
    Take(Spot),
    /// It ends the argument.
    Close,
    /// It may not stand here.
    Refuse,
}

/// The arguments of a value, if it can be cut.
pub(crate) fn read_arguments(alloc: Global, value: &[u8]) -> Result<Option<Texts>, Memory>
    ensures { IfOk result (λ arguments. arguments ≡ arguments_of value.now) }
{
    let mut arguments = Vec::new(alloc);
    let mut item = Vec::new(alloc);
    let mut spot = Spot::Between;
    for b in value {
        match step_at(spot, *b) {
            Step::Skip(next) => spot = next,
            Step::Take(next) => {
                item.push(*b)?;
                spot = next;
            }
            Step::Close => {
                arguments.push(Bytes::new(item))?;
                item = Vec::new(alloc);
                spot = Spot::Between;
            }
            Step::Refuse => return Ok(None),
        }
    }
    with_last_argument(arguments, spot, item)
}

/// The arguments with the one that the value's end leaves.
fn with_last_argument(
    arguments: Vec<Bytes>,
    spot: Spot,
    item: Vec<u8>,
) -> Result<Option<Texts>, Memory>
    ensures { IfOk result (λ all. all ≡ option_map (λ last. arguments.items ++ last) (last_argument spot item.items)) }
{
    let mut arguments = arguments;
    match spot {
        Spot::Between => {}
        Spot::Plain | Spot::Closed => arguments.push(Bytes::new(item))?,
        Spot::Quoted => return Ok(None),
    }
    Ok(Some(Texts::new(arguments)))
}

fn step_at(spot: Spot, b: u8) -> Step
    ensures { result ≡ step_of spot b }
{
    match spot {
        Spot::Between if is_space(b) => Step::Skip(Spot::Between),
        Spot::Between => step_in_argument(b),
        Spot::Plain if is_space(b) => Step::Close,
        Spot::Plain => step_in_argument(b),
        Spot::Quoted => match b {
            b'"' => Step::Skip(Spot::Closed),
            b'\n' => Step::Refuse,
            _ => Step::Take(Spot::Quoted),
        },
        Spot::Closed if is_space(b) => Step::Close,
        Spot::Closed => Step::Refuse,
    }
}

/// A byte of an argument outside quotes, or its first one.
fn step_in_argument(b: u8) -> Step
    ensures { result ≡ step_in_argument b }
{
    match b {
        b'"' => Step::Skip(Spot::Quoted),
        _ => Step::Take(Spot::Plain),
    }
}
