//! Lists with a value of their own in contracts: bytes, texts, and in `lines` descriptions with values.
//! `few` is a list within the crate, and `short` how short texts compare.

ghost use Rattle.std.specs.Cmp.{partial_order_from_agreeing_total};
ghost use Rattle.std.specs.Ordering.{as_partial_cmp};
ghost use Rattle.std.specs.Prelude.{◌≡◌, ◌++◌, ◌∷◌, [], IfErr, Ok, OnOk, refl};
ghost use Rattle.dir_names.specs.declared.fault.NameFault.TheVariants.{Memory};
ghost use Rattle.dir_names.specs.Orders.{bytes_cmp, bytes_eq, bytes_cmp_total, bytes_cmp_ties, texts_cmp, texts_eq, texts_cmp_total, texts_cmp_ties, tied_equiv, tied_per};
ghost use Rattle.dir_names.specs.Outcome.{Gives};

pub(crate) mod few;
pub(crate) mod lines;
pub(crate) mod short;

use crate::NameFault;
use std::alloc::Global;
use std::cmp::Ordering;
use std::marker::Model;

/// A list of bytes.
#[derive(Debug, Drop)]
pub struct Bytes {
    items: Vec<u8>,
}

impl Model for Bytes {
    ghost use Rattle.std.specs.Prelude.{ℕ, List};

    ghost Value = { List ℕ };

    ghost view = { λ b. b.items.items };
}

impl Bytes {
    pub fn new(items: Vec<u8>) -> Bytes
        ensures { result ≡ items.items }
    {
        Bytes { items }
    }

    pub fn as_slice(&self) -> &[u8]
        ensures { result.now ≡ self.now }
    {
        self.items.as_slice()
    }

    /// A copy of `text` in memory of its own. The one fault is `Memory`.
    pub fn copy_of(alloc: Global, text: &[u8]) -> Result<Bytes, NameFault>
        ensures { Gives (λ b. b) result (Ok text.now) }
    {
        Ok(Bytes {
            items: text.to_vec(alloc)?,
        })
    }

    /// A copy in memory of its own. The one fault is `Memory`.
    pub fn try_clone(&self, alloc: Global) -> Result<Bytes, NameFault>
        ensures { Gives (λ b. b) result (Ok self.now) }
    {
        Bytes::copy_of(alloc, self.as_slice())
    }
}

impl PartialEq for Bytes {
    ghost eq = { bytes_eq };

    ghost laws = { tied_per bytes_cmp bytes_cmp_total bytes_cmp_ties };

    fn eq(&self, other: &Bytes) -> bool {
        self.items == other.items
    }
}

impl Eq for Bytes {
    ghost laws = { tied_equiv bytes_cmp bytes_cmp_total bytes_cmp_ties };
}

impl PartialOrd for Bytes {
    ghost partial_cmp = { as_partial_cmp bytes_cmp };

    ghost laws = { partial_order_from_agreeing_total bytes_cmp bytes_cmp_total (λ _ _. refl) bytes_cmp_ties };

    fn partial_cmp(&self, other: &Bytes) -> Option<Ordering> {
        Some(self.cmp(other))
    }
}

impl Ord for Bytes {
    ghost cmp = { bytes_cmp };

    ghost total = { bytes_cmp_total };

    ghost matches_partial_cmp = { λ _ _. refl };

    ghost matches_eq = { bytes_cmp_ties };

    fn cmp(&self, other: &Bytes) -> Ordering {
        self.items.cmp(&other.items)
    }
}

/// A list of texts.
#[derive(Debug, Drop)]
pub struct Texts {
    items: Vec<Bytes>,
}

impl Model for Texts {
    ghost use Rattle.std.specs.Prelude.{ℕ, List};

    ghost Value = { List (List ℕ) };

    ghost view = { λ t. t.items.items };
}

impl Texts {
    pub fn new(items: Vec<Bytes>) -> Texts
        ensures { result ≡ items.items }
    {
        Texts { items }
    }

    pub fn as_slice(&self) -> &[Bytes]
        ensures { result.now ≡ self.now }
    {
        self.items.as_slice()
    }

    /// The list with one text more at its end. The one fault is `Memory`.
    pub(crate) fn with(self, text: Bytes) -> Result<Texts, NameFault>
        ensures { Gives (λ t. t) result (Ok (self ++ text ∷ [])) }
    {
        let Texts { mut items } = self;
        items.push(text)?;
        Ok(Texts { items })
    }

    /// Puts texts behind those of the list. The one fault is `Memory`; then the list is as it was.
    pub(crate) fn append(&mut self, more: Vec<Bytes>) -> Result<(), NameFault>
        ensures ok { OnOk result (self.new ≡ self.old ++ more.items) }
        ensures err { IfErr result (λ e. (e ≡ Memory) × (self.new ≡ self.old)) }
    {
        let mut more = more;
        self.items.append(&mut more)?;
        Ok(())
    }

    /// A copy whose list and texts have memory of their own. The one fault is `Memory`.
    pub fn try_clone(&self, alloc: Global) -> Result<Texts, NameFault>
        ensures { Gives (λ t. t) result (Ok self.now) }
    {
        let mut items = Vec::with_capacity(alloc, self.items.len())?;
        for text in self.as_slice() {
            items.push(text.try_clone(alloc)?)?;
        }
        Ok(Texts { items })
    }
}

impl PartialEq for Texts {
    ghost eq = { texts_eq };

    ghost laws = { tied_per texts_cmp texts_cmp_total texts_cmp_ties };

    fn eq(&self, other: &Texts) -> bool {
        self.items == other.items
    }
}

impl Eq for Texts {
    ghost laws = { tied_equiv texts_cmp texts_cmp_total texts_cmp_ties };
}

impl PartialOrd for Texts {
    ghost partial_cmp = { as_partial_cmp texts_cmp };

    ghost laws = { partial_order_from_agreeing_total texts_cmp texts_cmp_total (λ _ _. refl) texts_cmp_ties };

    fn partial_cmp(&self, other: &Texts) -> Option<Ordering> {
        Some(self.cmp(other))
    }
}

impl Ord for Texts {
    ghost cmp = { texts_cmp };

    ghost total = { texts_cmp_total };

    ghost matches_partial_cmp = { λ _ _. refl };

    ghost matches_eq = { texts_cmp_ties };

    fn cmp(&self, other: &Texts) -> Ordering {
        self.items.cmp(&other.items)
    }
}
