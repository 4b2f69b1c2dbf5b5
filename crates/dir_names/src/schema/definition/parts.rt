//! The parts of a definition (RFC 4512, section 4.1.2): each is a keyword with what belongs to it, and they come in any order.

ghost use Rattle.std.specs.Prelude.{◌≡◌, [], ◌∷◌, IfErr, IfNone, IfOk, IfSome, List, None, Ok, Some, find, option_copied, option_map};
ghost use Rattle.dir_names.specs.Inside.PartsSoFar.{all_parts};
ghost use Rattle.dir_names.specs.declared.fault.NameFault.TheVariants.{Memory};
ghost use Rattle.dir_names.specs.declared.schema.definition.tokens.Token.{Token};
ghost use Rattle.dir_names.specs.Definitions.Parts.{begun_by, first_text, flag_of, has_part, is_each_once, is_extension, is_flag, is_part_of, keyword_before_word, keyword_number, keyword_of, next_part, on_to, parts_of, step_at, takes_list, takes_word, texts_of};
ghost use Rattle.dir_names.specs.Outcome.{Gives};
ghost use Rattle.dir_names.specs.declared.schema.definition.parts.Place.TheVariants.{After, Between, InList};

use crate::schema::definition::tokens::Token;
use crate::{Bytes, NameFault, Texts};
use std::alloc::Global;

/// The keyword of a part.
#[derive(Clone, Copy)]
pub(crate) enum Keyword {
    Name,
    Desc,
    Obsolete,
    Sup,
    Equality,
    Ordering,
    Substr,
    Syntax,
    SingleValue,
    Collective,
    NoUserModification,
    Usage,
    /// A word that begins with `X-`.
    Extension,
}

/// A keyword, and the texts that belong to it.
#[derive(Drop)]
pub(crate) struct Part {
    keyword: Keyword,
    texts: Texts,
}

/// Where in a definition the reader is.
#[derive(Drop)]
pub(crate) enum Place {
    /// Where a part may begin.
    Between,
    /// After a keyword that something belongs to.
    After(Keyword),
    /// In a list of texts, after some of them.
    InList(Keyword, Texts),
    /// After the parenthesis that ends the definition.
    End,
}

/// What a token does: where the reader is after it, and the part that ends with it.
#[derive(Drop)]
pub(crate) struct Step {
    place: Place,
    part: Option<Part>,
}

impl Keyword {
    /// The keyword that a word is, in any ASCII case.
    fn read(word: &[u8]) -> Option<Keyword>
        ensures { result ≡ keyword_of word.now }
    {
        if word.eq_ignore_ascii_case(b"NAME") {
            Some(Keyword::Name)
        } else if word.eq_ignore_ascii_case(b"DESC") {
            Some(Keyword::Desc)
        } else if is_extension(word) {
            Some(Keyword::Extension)
        } else {
            match Keyword::read_flag(word) {
                Some(flag) => Some(flag),
                None => Keyword::read_before_word(word),
            }
        }
    }

    fn read_flag(word: &[u8]) -> Option<Keyword>
        ensures { result ≡ flag_of word.now }
    {
        if word.eq_ignore_ascii_case(b"OBSOLETE") {
            Some(Keyword::Obsolete)
        } else if word.eq_ignore_ascii_case(b"SINGLE-VALUE") {
            Some(Keyword::SingleValue)
        } else if word.eq_ignore_ascii_case(b"COLLECTIVE") {
            Some(Keyword::Collective)
        } else if word.eq_ignore_ascii_case(b"NO-USER-MODIFICATION") {
            Some(Keyword::NoUserModification)
        } else {
            None
        }
    }

    fn read_before_word(word: &[u8]) -> Option<Keyword>
        ensures { result ≡ keyword_before_word word.now }
    {
        if word.eq_ignore_ascii_case(b"SUP") {
            Some(Keyword::Sup)
        } else if word.eq_ignore_ascii_case(b"EQUALITY") {
            Some(Keyword::Equality)
        } else if word.eq_ignore_ascii_case(b"ORDERING") {
            Some(Keyword::Ordering)
        } else if word.eq_ignore_ascii_case(b"SUBSTR") {
            Some(Keyword::Substr)
        } else if word.eq_ignore_ascii_case(b"SYNTAX") {
            Some(Keyword::Syntax)
        } else if word.eq_ignore_ascii_case(b"USAGE") {
            Some(Keyword::Usage)
        } else {
            None
        }
    }

    /// Whether the keyword stands alone.
    fn is_flag(self) -> bool
        ensures { result ≡ is_flag self }
    {
        matches!(
            self,
            Keyword::Obsolete
                | Keyword::SingleValue
                | Keyword::Collective
                | Keyword::NoUserModification
        )
    }

    /// Whether a text between quotes, or a list of them, belongs to the keyword.
    fn takes_list(self) -> bool
        ensures { result ≡ takes_list self }
    {
        matches!(self, Keyword::Name | Keyword::Extension)
    }

    /// Whether a word may belong to the keyword.
    fn takes_word(self) -> bool
        ensures { result ≡ takes_word self }
    {
        matches!(
            self,
            Keyword::Sup
                | Keyword::Equality
                | Keyword::Ordering
                | Keyword::Substr
                | Keyword::Syntax
                | Keyword::Usage
        )
    }

    /// A number that no other keyword has.
    fn number(self) -> u8
        ensures { result ≡ keyword_number self }
    {
        match self {
            Keyword::Name => 0,
            Keyword::Desc => 1,
            Keyword::Obsolete => 2,
            Keyword::Sup => 3,
            Keyword::Equality => 4,
            Keyword::Ordering => 5,
            Keyword::Substr => 6,
            Keyword::Syntax => 7,
            Keyword::SingleValue => 8,
            Keyword::Collective => 9,
            Keyword::NoUserModification => 10,
            Keyword::Usage => 11,
            Keyword::Extension => 12,
        }
    }
}

/// Whether a word begins with `X-`, as the names of extensions do.
fn is_extension(word: &[u8]) -> bool
    ensures { result ≡ is_extension word.now }
{
    matches!(word, [b'X' | b'x', b'-', ..])
}

/// The parts that were read, and where the reader is.
#[derive(Drop)]
struct PartReader {
    parts: Vec<Part>,
    place: Place,
}

/// The parts of tokens that a closing parenthesis ends: `None` if they are none.
pub(crate) fn read_parts(alloc: Global, tokens: &[Token]) -> Result<Option<Vec<Part>>, NameFault>
    ensures { Gives (option_map (λ parts. parts.items)) result (Ok (parts_of tokens.now)) }
{
    let mut reader = PartReader {
        parts: Vec::new(alloc),
        place: Place::Between,
    };
    for token in tokens {
        match reader.after(alloc, token)? {
            Some(next) => reader = next,
            None => return Ok(None),
        }
    }
    match reader.place {
        Place::End => Ok(Some(reader.parts)),
        Place::Between | Place::After(_) | Place::InList(_, _) => Ok(None),
    }
}

impl PartReader {
    /// The reader after one token more: `None` if that may not come here.
    #[tactic(auto, using(crate::proofs::DefinitionSteps::one_more))]
    fn after(self, alloc: Global, token: &Token) -> Result<Option<PartReader>, NameFault>
        ensures some { IfOk result (λ o. IfSome o (λ next. (rest : List Token) → all_parts self.parts.items self.place (token.now ∷ rest) ≡ all_parts next.parts.items next.place rest)) }
        ensures none { IfOk result (λ o. IfNone o ((rest : List Token) → all_parts self.parts.items self.place (token.now ∷ rest) ≡ None)) }
        ensures memory { IfErr result (λ e. e ≡ Memory) }
    {
        let PartReader { mut parts, place } = self;
        let Some(step) = step_at(alloc, place, token)? else {
            return Ok(None);
        };
        let Step { place, part } = step;
        if let Some(part) = part {
            parts.push(part)?;
        }
        Ok(Some(PartReader { parts, place }))
    }
}

/// What a token does at a place: `None` if it may not come there.
fn step_at(alloc: Global, place: Place, token: &Token) -> Result<Option<Step>, NameFault>
    ensures { Gives (λ step. step) result (Ok (step_at place token.now)) }
{
    match place {
        Place::Between => Ok(step_between(alloc, token)),
        Place::After(keyword) => step_after(alloc, keyword, token),
        Place::InList(keyword, texts) => step_in_list(alloc, keyword, texts, token),
        Place::End => Ok(None),
    }
}

fn step_between(alloc: Global, token: &Token) -> Option<Step>
    ensures { result ≡ step_at Between token.now }
{
    match token {
        Token::Word(word) => match Keyword::read(word.as_slice()) {
            Some(keyword) => Some(begun_by(alloc, keyword)),
            None => None,
        },
        Token::Close => Some(on_to(Place::End)),
        _ => None,
    }
}

fn step_after(alloc: Global, keyword: Keyword, token: &Token) -> Result<Option<Step>, NameFault>
    ensures { Gives (λ step. step) result (Ok (step_at (After keyword) token.now)) }
{
    match token {
        Token::Quoted(text) => Ok(Some(next_part(keyword, one_text(alloc, text)?))),
        Token::Word(text) if keyword.takes_word() => {
            Ok(Some(next_part(keyword, one_text(alloc, text)?)))
        }
        Token::Open if keyword.takes_list() => Ok(Some(on_to(Place::InList(
            keyword,
            Texts::new(Vec::new(alloc)),
        )))),
        _ => Ok(None),
    }
}

fn step_in_list(
    alloc: Global,
    keyword: Keyword,
    texts: Texts,
    token: &Token,
) -> Result<Option<Step>, NameFault>
    ensures { Gives (λ step. step) result (Ok (step_at (InList keyword texts) token.now)) }
{
    match token {
        Token::Quoted(text) => {
            let longer = texts.with(text.try_clone(alloc)?)?;
            Ok(Some(on_to(Place::InList(keyword, longer))))
        }
        Token::Close => Ok(Some(next_part(keyword, texts))),
        _ => Ok(None),
    }
}

fn begun_by(alloc: Global, keyword: Keyword) -> Step
    ensures { begun_by keyword ≡ Some result }
{
    if keyword.is_flag() {
        next_part(keyword, Texts::new(Vec::new(alloc)))
    } else {
        on_to(Place::After(keyword))
    }
}

fn next_part(keyword: Keyword, texts: Texts) -> Step
    ensures { next_part keyword texts ≡ Some result }
{
    Step {
        place: Place::Between,
        part: Some(Part { keyword, texts }),
    }
}

fn on_to(place: Place) -> Step
    ensures { on_to place ≡ Some result }
{
    Step { place, part: None }
}

fn one_text(alloc: Global, text: &Bytes) -> Result<Texts, NameFault>
    ensures { Gives (λ texts. texts) result (Ok (text.now ∷ [])) }
{
    let mut texts = Vec::new(alloc);
    texts.push(text.try_clone(alloc)?)?;
    Ok(Texts::new(texts))
}

/// Whether each keyword comes at most once, but for extensions.
pub(crate) fn is_each_once(parts: &[Part]) -> bool
    ensures { result ≡ is_each_once parts.now }
{
    let mut rest = parts;
    while let [part, more @ ..] = rest {
        if !part.is_of(Keyword::Extension) && has_part(part.keyword, more) {
            return false;
        }
        rest = more;
    }
    true
}

/// Whether a part has the keyword.
pub(crate) fn has_part(keyword: Keyword, parts: &[Part]) -> bool
    ensures { result ≡ has_part keyword parts.now }
{
    parts.iter().any(|part| part.is_of(keyword))
}

/// The texts that belong to a keyword: none where it is missing.
pub(crate) fn texts_of(alloc: Global, keyword: Keyword, parts: &[Part]) -> Result<Texts, NameFault>
    ensures { Gives (λ texts. texts) result (Ok (texts_of keyword parts.now)) }
{
    match part_of(keyword, parts) {
        Some(part) => part.texts.try_clone(alloc),
        None => Ok(Texts::new(Vec::new(alloc))),
    }
}

/// The first text that belongs to a keyword.
pub(crate) fn first_text(
    alloc: Global,
    keyword: Keyword,
    parts: &[Part],
) -> Result<Option<Bytes>, NameFault>
    ensures { Gives (λ text. text) result (Ok (first_text keyword parts.now)) }
{
    let Some(part) = part_of(keyword, parts) else {
        return Ok(None);
    };
    match part.texts.as_slice().first() {
        Some(text) => Ok(Some(text.try_clone(alloc)?)),
        None => Ok(None),
    }
}

/// The part of a keyword.
fn part_of(keyword: Keyword, parts: &[Part]) -> Option<&Part>
    ensures { option_copied result ≡ find (is_part_of keyword) parts.now }
{
    parts.iter().find(|part| part.is_of(keyword))
}

impl Part {
    fn is_of(&self, keyword: Keyword) -> bool
        ensures { result ≡ is_part_of keyword self.now }
    {
        self.keyword.number() == keyword.number()
    }
}
