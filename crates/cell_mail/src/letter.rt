ghost use Rattle.std.specs.Prelude.{◌≡◌, ◌++◌, length, IfOk, Err};
ghost use Rattle.std.specs.List.{slice_get};
ghost use Rattle.cell_mail.specs.declared.content.Content.{Content};
ghost use Rattle.cell_mail.specs.declared.content.Content.TheVariants as content;
ghost use Rattle.cell_mail.specs.declared.content.LetterError.TheVariants as errors;
ghost use Rattle.cell_mail.specs.Sizes.{mark_size, version};
ghost use Rattle.cell_mail.specs.Spelling.{number, counted, keys_of};
ghost use Rattle.cell_mail.specs.Grammar.{HasSpelling, Spells};
ghost use Rattle.cell_mail.specs.Letters as letters;

use crate::entry::{Entry, put_counted};
use crate::keyed::keys_of;
use crate::limits::{ANSWERS, ASKS, BRANCHES, VERSION};
use crate::number::put_u8;
use crate::reading::{parsed, whole};
use crate::{Content, Kind, LetterError};
use hot_model::{AnswerList, RecList};
use hot_units::KeyList;
use std::alloc::{AllocError, Global};
use std::marker::Model;

/// A letter from one rank to another: the bytes of its content, with the kind and the keys of its
/// items at hand. Clauses see the sender, the receiver and the content. Ranks are below 64 and
/// differ.
#[derive(Drop)]
pub struct Letter {
    from: u32,
    to: u32,
    kind: Kind,
    keys: KeyList,
    bytes: Vec<u8>,
}

impl Model for Letter {
    ghost use Rattle.cell_mail.specs.Letters.{LetterValue, content_of, IsLetter};

    ghost Value = { LetterValue };

    ghost view = { λ l. record { from = l.from; to = l.to; content = content_of l.bytes.items } };

    ghost invariant = { λ l. IsLetter l.from l.to l.kind l.keys l.bytes.items };
}

/// The version, a kind and the items.
fn spelled<T: Entry>(alloc: Global, kind: u8, items: &[T]) -> Result<Vec<u8>, AllocError>
    ensures { IfOk result
        (λ v. v.items
        ≡ number mark_size version ++ (number mark_size kind ++ counted T.spelled items.now)) }
{
    let mut out = Vec::new(alloc);
    put_u8(&mut out, VERSION)?;
    put_u8(&mut out, kind)?;
    put_counted(&mut out, items)?;
    Ok(out)
}

impl Letter {
    /// The letter that tells the branches of a rank: at most 1,048,576 records with at least one
    /// body each, by strictly ascending key, none in another one. Its bytes are the one spelling.
    #[tactic(auto, using(crate::proofs::Hints::on_letters))]
    pub fn branches(alloc: Global, from: u32, to: u32, list: &RecList) -> Result<Letter, AllocError>
        requires ranks { letters.AreRanks from to }
        requires good { HasSpelling (content.Branches list.now) }
        ensures letter { IfOk result
            (λ l. l ≡ record { from = from; to = to; content = content.Branches list.now }) }
    {
        let bytes = spelled(alloc, BRANCHES, list.as_slice())?;
        let keys = keys_of(alloc, list.as_slice())?;
        Ok(Letter {
            from,
            to,
            kind: Kind::Branches,
            keys,
            bytes,
        })
    }

    /// The letter that asks for cells: one or more keys of cells below the root, strictly
    /// ascending. Its bytes are the one spelling.
    #[tactic(auto, using(crate::proofs::Hints::on_letters))]
    pub fn asks(alloc: Global, from: u32, to: u32, keys: &KeyList) -> Result<Letter, AllocError>
        requires ranks { letters.AreRanks from to }
        requires good { HasSpelling (content.Asks keys.now) }
        ensures letter { IfOk result
            (λ l. l ≡ record { from = from; to = to; content = content.Asks keys.now }) }
    {
        let bytes = spelled(alloc, ASKS, keys.as_slice())?;
        let keys = keys_of(alloc, keys.as_slice())?;
        Ok(Letter {
            from,
            to,
            kind: Kind::Asks,
            keys,
            bytes,
        })
    }

    /// The letter that answers for cells: one or more cells below the root by strictly ascending
    /// key, each with the records of 1 to 8 children or with the bodies of a leaf in order. Its
    /// bytes are the one spelling.
    #[tactic(auto, using(crate::proofs::Hints::on_letters))]
    pub fn answers(
        alloc: Global,
        from: u32,
        to: u32,
        list: &AnswerList,
    ) -> Result<Letter, AllocError>
        requires ranks { letters.AreRanks from to }
        requires good { HasSpelling (content.Answers list.now) }
        ensures letter { IfOk result
            (λ l. l ≡ record { from = from; to = to; content = content.Answers list.now }) }
    {
        let bytes = spelled(alloc, ANSWERS, list.as_slice())?;
        let keys = keys_of(alloc, list.as_slice())?;
        Ok(Letter {
            from,
            to,
            kind: Kind::Answers,
            keys,
            bytes,
        })
    }

    /// The letter with these bytes. `NotALetter` exactly where the bytes are in no form of the
    /// grammar; memory may run out. Any bytes may be given: the time is linear in their number, and
    /// no allocation is larger than they are, whatever a count claims.
    pub fn from_bytes(
        alloc: Global,
        from: u32,
        to: u32,
        bytes: &[u8],
    ) -> Result<Letter, LetterError>
        requires ranks { letters.AreRanks from to }
        ensures letter { IfOk result
            (λ l. (l.from ≡ from) × (l.to ≡ to) × Spells bytes.now l.content) }
        ensures not_a_letter { result ≡ Err errors.NotALetter → (c : Content) → Spells bytes.now c
            → ⊥ }
    {
        let (kind, keys) = whole(alloc, bytes)?;
        let bytes = Vec::from_slice(alloc, bytes)?;
        Ok(Letter {
            from,
            to,
            kind,
            keys,
            bytes,
        })
    }

    /// The content whose spelling the bytes are. It keeps the rules of the grammar.
    pub fn read(&self, alloc: Global) -> Result<Content, AllocError>
        ensures content { IfOk result (λ c. c ≡ self.now.content) }
        ensures good { IfOk result (λ c. HasSpelling c) }
    {
        match parsed(alloc, self.bytes.as_slice()) {
            Ok((content, _rest)) => Ok(content),
            Err(_) => Err(AllocError),
        }
    }

    /// A copy of the letter.
    pub fn copy(&self, alloc: Global) -> Result<Letter, AllocError>
        ensures same { IfOk result (λ l. l ≡ self.now) }
    {
        let keys = keys_of(alloc, self.keys.as_slice())?;
        let bytes = Vec::from_slice(alloc, self.bytes.as_slice())?;
        Ok(Letter {
            from: self.from,
            to: self.to,
            kind: self.kind,
            keys,
            bytes,
        })
    }

    /// The sender, below 64. It takes no memory.
    pub fn from(&self) -> u32
        ensures sender { result ≡ self.now.from }
        ensures ranks { letters.AreRanks self.now.from self.now.to }
    {
        self.from
    }

    /// The receiver, below 64 and not the sender. It takes no memory.
    pub fn to(&self) -> u32
        ensures receiver { result ≡ self.now.to }
        ensures ranks { letters.AreRanks self.now.from self.now.to }
    {
        self.to
    }

    /// The kind of the content. It takes no memory.
    pub fn kind(&self) -> Kind
        ensures kind { result ≡ letters.kind_of self.now.content }
    {
        self.kind
    }

    /// How many items there are. It takes no memory.
    pub fn count(&self) -> u32
        ensures count { result ≡ length (keys_of self.now.content) }
    {
        self.keys.len() as u32
    }

    /// The key of the i-th item, counted from 0; None exactly where `i >= count`. It takes no
    /// memory.
    pub fn key(&self, i: u32) -> Option<u64>
        ensures key { result ≡ slice_get (keys_of self.now.content) i }
    {
        self.keys.get(i as usize).copied()
    }

    /// The keys of the items, in their order. It takes no memory.
    pub fn keys(&self) -> &KeyList
        ensures keys { result.now ≡ keys_of self.now.content }
    {
        &self.keys
    }

    /// The one spelling of the content. It takes no memory.
    pub fn bytes(&self) -> &[u8]
        ensures ranks { letters.AreRanks self.now.from self.now.to }
        ensures spelling { Spells result.now self.now.content }
    {
        self.bytes.as_slice()
    }
}
