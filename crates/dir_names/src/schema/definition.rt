//! Definitions of attribute types, as schema files have them (RFC 4512, section 4.1.2).

ghost use Rattle.std.specs.Prelude.{◌≡◌, IfNone, IfOk, IfSome, Ok, Some};
ghost use Rattle.dir_names.specs.Definitions.{definition_by, definition_in, definition_of};
ghost use Rattle.dir_names.specs.Outcome.{Gives};

pub(crate) mod parts;
pub(crate) mod tokens;

use crate::attribute::is_numericoid;
use crate::schema::definition::parts::{
    Keyword, Part, first_text, has_part, is_each_once, read_parts, texts_of,
};
use crate::schema::definition::tokens::{Token, read_tokens};
use crate::{Bytes, NameFault, Texts};
use std::alloc::Global;

/// What the definition of an attribute type says of how its values are compared, and of its names.
#[derive(Debug, Drop)]
pub struct TypeDefinition {
    /// The number, digits and dots.
    pub number: Bytes,
    /// The names, the primary one first. There may be none.
    pub names: Texts,
    /// The type from which this one is derived, by a name or its number.
    pub sup: Option<Bytes>,
    /// The matching rule for equality, by a name or its number.
    pub equality: Option<Bytes>,
    /// Whether an attribute of the type takes one value at most.
    pub single: bool,
}

impl TypeDefinition {
    ghost use Rattle.dir_names.specs.Definitions.Grammar.{Defines};
    ghost use Rattle.dir_names.specs.declared.schema.definition.TypeDefinition.{TypeDefinition};

    /// The definition that a text is: `None` if it is none. The one fault is `Memory`.
    pub fn read(alloc: Global, text: &[u8]) -> Result<Option<TypeDefinition>, NameFault>
        ensures value { Gives (λ definition. definition) result (Ok (definition_of text.now)) }
        ensures defined { IfOk result (λ o. IfSome o (λ definition. Defines text.now definition)) }
        ensures exact { (definition : TypeDefinition) → Defines text.now definition → Gives (λ read. read) result (Ok (Some definition)) }
        ensures none { IfOk result (λ o. IfNone o ((definition : TypeDefinition) → Defines text.now definition → ⊥)) }
    {
        read_definition(alloc, text)
    }
}

fn read_definition(alloc: Global, text: &[u8]) -> Result<Option<TypeDefinition>, NameFault>
    ensures { Gives (λ definition. definition) result (Ok (definition_of text.now)) }
{
    match read_tokens(alloc, text)? {
        Some(tokens) => definition_in(alloc, tokens.as_slice()),
        None => Ok(None),
    }
}

/// The definition that tokens are.
fn definition_in(alloc: Global, tokens: &[Token]) -> Result<Option<TypeDefinition>, NameFault>
    ensures { Gives (λ definition. definition) result (Ok (definition_in tokens.now)) }
{
    match tokens {
        [Token::Open, Token::Word(number), rest @ ..] if is_numericoid(number.as_slice()) => {
            match read_parts(alloc, rest)? {
                Some(parts) => definition_by(alloc, number, parts.as_slice()),
                None => Ok(None),
            }
        }
        _ => Ok(None),
    }
}

/// The definition of a number and parts.
fn definition_by(
    alloc: Global,
    number: &Bytes,
    parts: &[Part],
) -> Result<Option<TypeDefinition>, NameFault>
    ensures { Gives (λ definition. definition) result (Ok (definition_by number.now parts.now)) }
{
    if !is_each_once(parts) {
        return Ok(None);
    }
    Ok(Some(TypeDefinition {
        number: number.try_clone(alloc)?,
        names: texts_of(alloc, Keyword::Name, parts)?,
        sup: first_text(alloc, Keyword::Sup, parts)?,
        equality: first_text(alloc, Keyword::Equality, parts)?,
        single: has_part(Keyword::SingleValue, parts),
    }))
}
