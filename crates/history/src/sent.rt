//! The letters that were put out, with a way to those of a transaction.

ghost use Rattle.std.specs.Prelude.{◌≡◌, ◌++◌, ◌∷◌, [], length, IfOk};
ghost use Rattle.history.specs.Sent.{AreLinked, IsNewest, IsPlaceOf, letters_of};

use std::alloc::Global;
use std::collections::BTreeMap;
use std::marker::Model;
use store::letter::Letter;
use store::name::Txn;
use terms::memory::Memory;
use terms::same::Same;

/// A letter, and the number of the one before it that is of its transaction.
#[derive(Drop)]
pub(crate) struct Link<'a> {
    pub(crate) letter: &'a Letter,
    pub(crate) earlier: Option<usize>,
}

/// Letters by their numbers, counted from 0. Contracts see the list of them.
#[derive(Drop)]
pub(crate) struct Sent<'a> {
    links: Vec<Link<'a>>,
    /// The number of each transaction's newest letter.
    newest: BTreeMap<Txn, usize>,
}

impl<'a> Model for Sent<'a> {
    ghost use Rattle.std.specs.Prelude.{List};
    ghost use Rattle.store.specs.declared.letter.Letter.{Letter as LetterNow};
    ghost use Rattle.history.specs.Sent.{IsLinked, letters_of};

    ghost Value = { List LetterNow };

    ghost view = { λ s. letters_of s.links.items };

    ghost invariant = { λ s. IsLinked s.links.items s.newest };
}

impl<'a> Sent<'a> {
    /// No letter.
    pub(crate) fn new(alloc: Global) -> Sent<'a>
        ensures { result ≡ [] }
    {
        Sent {
            links: Vec::new(alloc),
            newest: BTreeMap::new(alloc),
        }
    }

    /// The number of a letter that is equal to this one.
    pub(crate) fn find(&self, letter: &Letter) -> Option<usize>
        ensures { IsPlaceOf self.now letter.now result }
    {
        let newest = self.newest.get(&letter.txn).copied();
        find_from(self.links.as_slice(), newest, letter)
    }

    /// These letters too.
    pub(crate) fn with_all(self, letters: &'a [Letter]) -> Result<Sent<'a>, Memory>
        ensures { IfOk result (λ sent. sent ≡ self.entry ++ letters.now) }
    {
        let mut sent = self;
        for letter in letters {
            sent = sent.with(letter)?;
        }
        Ok(sent)
    }

    /// This letter too.
    fn with(self, letter: &'a Letter) -> Result<Sent<'a>, Memory>
        ensures { IfOk result (λ sent. sent ≡ self.entry ++ letter.now ∷ []) }
    {
        let Sent {
            mut links,
            mut newest,
        } = self;
        let earlier = newest.insert(letter.txn, links.len())?;
        links.push(Link { letter, earlier })?;
        Ok(Sent { links, newest })
    }
}

/// The number of a letter that is equal to this one, from the newest of its transaction back.
fn find_from(links: &[Link<'_>], newest: Option<usize>, letter: &Letter) -> Option<usize>
    requires linked { AreLinked links.now }
    requires newest { IsNewest (letters_of links.now) (length links.now) letter.now.txn newest }
    ensures { IsPlaceOf (letters_of links.now) letter.now result }
{
    let mut next = newest;
    while let Some(place) = next {
        let link = &links[place];
        if link.letter.same(letter) {
            return Some(place);
        }
        next = link.earlier;
    }
    None
}
