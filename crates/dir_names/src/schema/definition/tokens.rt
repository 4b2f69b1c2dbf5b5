//! The tokens of a definition (RFC 4512, section 4.1): parentheses, texts between quotes, and words.

ghost use Rattle.std.specs.Prelude.{◌≡◌, [], ◌++◌, ◌∷◌, ℕ, IfErr, IfOk, List, Ok, OnOk, option_map};
ghost use Rattle.dir_names.specs.Definitions.Tokens.{ends_word, tokens_of};
ghost use Rattle.dir_names.specs.Inside.TokensSoFar.{all_tokens};
ghost use Rattle.dir_names.specs.Outcome.{Gives};
ghost use Rattle.dir_names.specs.declared.fault.NameFault.TheVariants.{Memory};

use crate::text::is_blank;
use crate::{Bytes, NameFault};
use std::alloc::Global;
use std::mem;

/// A token.
#[derive(Drop)]
pub(crate) enum Token {
    /// A left parenthesis.
    Open,
    /// A right parenthesis.
    Close,
    /// A text between quotes.
    Quoted(Bytes),
    /// Anything else that has no white space in it.
    Word(Bytes),
}

/// Where in a text the reader is.
#[derive(Clone, Copy)]
pub(crate) enum Spot {
    /// Between tokens.
    Between,
    /// In a word.
    InWord,
    /// In a text between quotes.
    InQuotes,
}

/// The tokens that were read, and what was read of the next one.
#[derive(Drop)]
struct TokenReader {
    tokens: Vec<Token>,
    spot: Spot,
    item: Vec<u8>,
}

/// The tokens of a text: `None` where a quote is left open.
pub(crate) fn read_tokens(alloc: Global, text: &[u8]) -> Result<Option<Vec<Token>>, NameFault>
    ensures { Gives (option_map (λ tokens. tokens.items)) result (Ok (tokens_of text.now)) }
{
    let mut reader = TokenReader {
        tokens: Vec::new(alloc),
        spot: Spot::Between,
        item: Vec::new(alloc),
    };
    for b in text {
        reader.push(alloc, *b)?;
    }
    reader.finish()
}

impl TokenReader {
    /// Reads one byte more.
    #[tactic(auto, using(crate::proofs::DefinitionSteps::one_more))]
    fn push(&mut self, alloc: Global, b: u8) -> Result<(), NameFault>
        ensures ok { OnOk result ((rest : List ℕ) → all_tokens self.old.tokens.items self.old.spot self.old.item.items (b ∷ rest) ≡ all_tokens self.new.tokens.items self.new.spot self.new.item.items rest) }
        ensures memory { IfErr result (λ e. e ≡ Memory) }
    {
        match self.spot {
            Spot::Between => self.push_between(alloc, b),
            Spot::InWord if ends_word(b) => {
                let word = self.take_item(alloc);
                self.tokens.push(Token::Word(word))?;
                self.push_between(alloc, b)?;
                Ok(())
            }
            Spot::InQuotes if b == b'\'' => {
                let text = self.take_item(alloc);
                self.tokens.push(Token::Quoted(text))?;
                self.spot = Spot::Between;
                Ok(())
            }
            Spot::InWord | Spot::InQuotes => {
                self.item.push(b)?;
                Ok(())
            }
        }
    }

    /// Reads a byte that comes between tokens: white space, a token of its own, or the begin of one.
    #[tactic(auto, using(crate::proofs::DefinitionSteps::one_more))]
    fn push_between(&mut self, alloc: Global, b: u8) -> Result<(), NameFault>
        ensures ok { OnOk result ((rest : List ℕ) → all_tokens self.old.tokens.items Spot.Between [] (b ∷ rest) ≡ all_tokens self.new.tokens.items self.new.spot self.new.item.items rest) }
        ensures memory { IfErr result (λ e. e ≡ Memory) }
    {
        self.item = Vec::new(alloc);
        match b {
            b'(' => {
                self.tokens.push(Token::Open)?;
                self.spot = Spot::Between;
            }
            b')' => {
                self.tokens.push(Token::Close)?;
                self.spot = Spot::Between;
            }
            b'\'' => self.spot = Spot::InQuotes,
            _ if is_blank(b) => self.spot = Spot::Between,
            _ => {
                self.item.push(b)?;
                self.spot = Spot::InWord;
            }
        }
        Ok(())
    }

    /// What was read of a token, so that the next one can be read.
    fn take_item(&mut self, alloc: Global) -> Bytes
        ensures item { result ≡ self.old.item.items }
        ensures empty { self.new.item.items ≡ [] }
        ensures tokens { self.new.tokens ≡ self.old.tokens }
        ensures spot { self.new.spot ≡ self.old.spot }
    {
        Bytes::new(mem::replace(&mut self.item, Vec::new(alloc)))
    }

    /// The tokens, where the text ends.
    fn finish(self) -> Result<Option<Vec<Token>>, NameFault>
        ensures { Gives (option_map (λ tokens. tokens.items)) result (Ok (all_tokens self.tokens.items self.spot self.item.items [])) }
    {
        let TokenReader {
            mut tokens,
            spot,
            item,
        } = self;
        match spot {
            Spot::Between => {}
            Spot::InWord => tokens.push(Token::Word(Bytes::new(item)))?,
            Spot::InQuotes => return Ok(None),
        }
        Ok(Some(tokens))
    }
}

fn ends_word(b: u8) -> bool
    ensures { result ≡ ends_word b }
{
    is_blank(b) || matches!(b, b'(' | b')' | b'\'')
}
