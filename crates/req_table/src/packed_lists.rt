//! What a wave keeps of a level besides its requests: the children of each and the answer of each,
//! by place.
ghost use Rattle.std.specs.Prelude.{◌≡◌, ◌<◌, ◌++◌, ◌∷◌, [], length, slice_get, Some, OnOk, OnErr};

use crate::packed_child::PackedChild;
use crate::words::{WordPairs, Words};
use dd_store::Ref;
use std::alloc::{AllocError, Global};
use std::marker::Model;

/// The children of a level's requests, low and high, by place: in eight bytes a request as long as each child fits in
/// four, and in sixteen from the first that does not.
#[derive(Drop)]
pub struct Row {
    pairs: WordPairs,
}

impl Model for Row {
    ghost use Rattle.std.specs.Prelude.{List};
    ghost use Rattle.req_table.specs.declared.packed_child.PackedChild.{PackedChild};

    ghost Value = { List (PackedChild × PackedChild) };

    ghost use Rattle.req_table.specs.WordLists.{pairs_in, children_of, AreChildren};

    ghost view = { λ r. children_of (pairs_in r.pairs) };

    ghost invariant = { λ r. AreChildren (pairs_in r.pairs) };
}

impl Row {
    /// Returns an empty row, which takes no memory yet.
    pub fn new(alloc: Global) -> Row
        ensures { result ≡ [] }
    {
        Row {
            pairs: WordPairs::new(alloc),
        }
    }

    /// Adds the children of the request at the next place.
    #[inline(always)]
    pub fn push(&mut self, pair: (PackedChild, PackedChild)) -> Result<(), AllocError>
        ensures done { OnOk result (self.new ≡ self.old ++ pair ∷ []) }
        ensures refused { OnErr result (self.new ≡ self.old) }
    {
        self.pairs.push((pair.0.word(), pair.1.word()))?;
        Ok(())
    }

    /// Returns the number of requests whose children are there.
    pub fn len(&self) -> usize
        ensures { result ≡ length self.now }
    {
        self.pairs.len()
    }

    /// Returns the children of the request at a place.
    #[inline(always)]
    pub fn at(&self, place: usize) -> (PackedChild, PackedChild)
        requires { place < length self.now }
        ensures { slice_get self.now place ≡ Some result }
    {
        let (low, high) = self.pairs.at(place);
        (PackedChild::of_word(low), PackedChild::of_word(high))
    }

    /// Removes all pairs. The memory is kept if all fit in eight bytes each.
    pub fn clear(&mut self)
        ensures { self.new ≡ [] }
    {
        self.pairs.clear();
    }

    /// Removes all pairs, and gives the memory back if they were more than `max_kept`.
    pub(crate) fn clear_keeping(&mut self, alloc: Global, max_kept: usize)
        ensures { self.new ≡ [] }
    {
        if self.len() > max_kept {
            *self = Row::new(alloc);
        } else {
            self.clear();
        }
    }

    /// Reserves memory for `count` more pairs of the present width. Fails if memory is refused.
    pub fn reserve(&mut self, count: usize) -> Result<(), AllocError>
        ensures { self.new ≡ self.old }
    {
        self.pairs.reserve(count)?;
        Ok(())
    }
}

/// References by place, such as the answers of a level's requests: in four bytes each as long as all fit, and in eight
/// from the first that does not.
#[derive(Drop)]
pub struct Refs {
    words: Words,
}

impl Model for Refs {
    ghost use Rattle.std.specs.Prelude.{List};
    ghost use Rattle.dd_store.specs.declared.reference.Ref.{Ref};

    ghost Value = { List Ref };

    ghost use Rattle.req_table.specs.WordLists.{words_in, refs_of, AreRefs};

    ghost view = { λ a. refs_of (words_in a.words) };

    ghost invariant = { λ a. AreRefs (words_in a.words) };
}

impl Refs {
    /// Returns an empty list, which takes no memory yet.
    pub fn new(alloc: Global) -> Refs
        ensures { result ≡ [] }
    {
        Refs {
            words: Words::new(alloc),
        }
    }

    /// Adds the reference of the next place.
    #[inline(always)]
    pub fn push(&mut self, answer: Ref) -> Result<(), AllocError>
        ensures done { OnOk result (self.new ≡ self.old ++ answer ∷ []) }
        ensures refused { OnErr result (self.new ≡ self.old) }
    {
        self.words.push(answer.word())?;
        Ok(())
    }

    /// Adds the references of another list at the end. After a refusal some of them may have been added.
    pub fn append(&mut self, more: &Refs) -> Result<(), AllocError>
        ensures { OnOk result (self.new ≡ self.old ++ more.now) }
    {
        self.words.append(&more.words)?;
        Ok(())
    }

    /// Returns the reference at a place.
    #[inline(always)]
    pub fn at(&self, place: usize) -> Ref
        requires { place < length self.now }
        ensures { slice_get self.now place ≡ Some result }
    {
        Ref::of_word(self.words.at(place))
    }

    /// Removes all references and reserves memory for `count`. The old memory is kept if all fit in four bytes each.
    pub fn restart(&mut self, count: usize) -> Result<(), AllocError>
        ensures { self.new ≡ [] }
    {
        self.words.clear();
        self.words.reserve(count)?;
        Ok(())
    }
}
