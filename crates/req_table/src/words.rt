//! Lists of words, in four bytes a word as long as all of a list fit, and in eight from the first
//! that does not.
ghost use Rattle.std.specs.Prelude.{◌≡◌, ◌<◌, ◌++◌, ◌∷◌, ℕ, [], length, take, slice_get, Some, IfOk, OnOk, OnErr};
ghost use Rattle.req_table.specs.WordLists.{words_in, pairs_in};

use std::alloc::{AllocError, Global};

/// The least word that does not fit in four bytes.
const SHORT_END: u64 = 1 << 32;

/// Words, by place.
#[derive(Drop)]
pub(crate) enum Words {
    /// All words fit in four bytes.
    Short(Vec<u32>),
    /// At least one word does not fit.
    Long(Vec<u64>),
}

/// Returns the same words in eight bytes each, with as much room.
fn widened(short: &Vec<u32>) -> Result<Vec<u64>, AllocError>
    ensures { IfOk result (λ long. long.items ≡ short.now.items) }
{
    let mut long = Vec::new(*short.allocator());
    long.reserve_exact(short.capacity())?;
    for word in short {
        long.push(*word as u64)?;
    }
    Ok(long)
}

impl Words {
    /// Returns an empty list, which takes no memory yet.
    pub(crate) fn new(alloc: Global) -> Words
        ensures { words_in result ≡ [] }
    {
        Words::Short(Vec::new(alloc))
    }

    /// Adds a word at the end.
    #[inline(always)]
    pub(crate) fn push(&mut self, word: u64) -> Result<(), AllocError>
        ensures done { OnOk result (words_in self.new ≡ words_in self.old ++ word ∷ []) }
        ensures refused { OnErr result (words_in self.new ≡ words_in self.old) }
    {
        match self {
            Words::Short(words) if word < SHORT_END => words.push(word as u32)?,
            Words::Short(_) => self.widen_and_push(word)?,
            Words::Long(words) => words.push(word)?,
        }
        Ok(())
    }

    /// Adds a word that does not fit. From then on each has eight bytes. It is not inlined, because most words fit.
    #[inline(never)]
    fn widen_and_push(&mut self, word: u64) -> Result<(), AllocError>
        ensures done { OnOk result (words_in self.new ≡ words_in self.old ++ word ∷ []) }
        ensures refused { OnErr result (words_in self.new ≡ words_in self.old) }
    {
        match self {
            Words::Short(words) => {
                let mut long = widened(words)?;
                long.push(word)?;
                *self = Words::Long(long);
            }
            Words::Long(words) => words.push(word)?,
        }
        Ok(())
    }

    /// Adds words of four bytes each at the end; if this list has such words too, they are copied at once.
    fn append_short(&mut self, more: &[u32]) -> Result<(), AllocError>
        ensures done { OnOk result (words_in self.new ≡ words_in self.old ++ more.now) }
        ensures begun { (n : ℕ) × (words_in self.new ≡ words_in self.old ++ take n more.now) }
    {
        if let Words::Short(words) = self {
            words.extend_from_slice(more)?;
            return Ok(());
        }
        for word in more {
            self.push(*word as u64)?;
        }
        Ok(())
    }

    /// Adds words of eight bytes each at the end.
    fn append_long(&mut self, more: &[u64]) -> Result<(), AllocError>
        ensures done { OnOk result (words_in self.new ≡ words_in self.old ++ more.now) }
        ensures begun { (n : ℕ) × (words_in self.new ≡ words_in self.old ++ take n more.now) }
    {
        let mut long = match self {
            Words::Long(words) => {
                words.extend_from_slice(more)?;
                return Ok(());
            }
            Words::Short(words) => widened(words)?,
        };
        long.extend_from_slice(more)?;
        *self = Words::Long(long);
        Ok(())
    }

    /// Adds the words of another list at the end. After a refusal some of them may have been added.
    pub(crate) fn append(&mut self, more: &Words) -> Result<(), AllocError>
        ensures done { OnOk result (words_in self.new ≡ words_in self.old ++ words_in more.now) }
        ensures begun { (n : ℕ) × (words_in self.new ≡ words_in self.old ++ take n (words_in more.now)) }
    {
        match more {
            Words::Short(words) => self.append_short(words.as_slice())?,
            Words::Long(words) => self.append_long(words.as_slice())?,
        }
        Ok(())
    }

    /// Returns the word at a place.
    #[inline(always)]
    pub(crate) fn at(&self, place: usize) -> u64
        requires { place < length (words_in self.now) }
        ensures { slice_get (words_in self.now) place ≡ Some result }
    {
        match self {
            Words::Short(words) => words[place] as u64,
            Words::Long(words) => words[place],
        }
    }

    /// Removes all words. The memory is kept if each had four bytes.
    pub(crate) fn clear(&mut self)
        ensures { words_in self.new ≡ [] }
    {
        match self {
            Words::Short(words) => words.clear(),
            Words::Long(words) => {
                let alloc = *words.allocator();
                *self = Words::new(alloc);
            }
        }
    }

    /// Reserves memory for `count` more words of the present width.
    pub(crate) fn reserve(&mut self, count: usize) -> Result<(), AllocError>
        ensures { words_in self.new ≡ words_in self.old }
    {
        match self {
            Words::Short(words) => words.reserve_exact(count)?,
            Words::Long(words) => words.reserve_exact(count)?,
        }
        Ok(())
    }
}

/// Pairs of words, by place.
#[derive(Drop)]
pub(crate) enum WordPairs {
    /// All words fit in four bytes.
    Short(Vec<(u32, u32)>),
    /// At least one word does not fit.
    Long(Vec<(u64, u64)>),
}

/// Returns the same pairs in sixteen bytes each, with as much room.
fn widened_pairs(short: &Vec<(u32, u32)>) -> Result<Vec<(u64, u64)>, AllocError>
    ensures { IfOk result (λ long. long.items ≡ short.now.items) }
{
    let mut long = Vec::new(*short.allocator());
    long.reserve_exact(short.capacity())?;
    for pair in short {
        long.push((pair.0 as u64, pair.1 as u64))?;
    }
    Ok(long)
}

impl WordPairs {
    /// Returns an empty list, which takes no memory yet.
    pub(crate) fn new(alloc: Global) -> WordPairs
        ensures { pairs_in result ≡ [] }
    {
        WordPairs::Short(Vec::new(alloc))
    }

    /// Adds a pair at the end.
    #[inline(always)]
    pub(crate) fn push(&mut self, pair: (u64, u64)) -> Result<(), AllocError>
        ensures done { OnOk result (pairs_in self.new ≡ pairs_in self.old ++ pair ∷ []) }
        ensures refused { OnErr result (pairs_in self.new ≡ pairs_in self.old) }
    {
        let (low, high) = pair;
        match self {
            WordPairs::Short(pairs) if low < SHORT_END && high < SHORT_END => {
                pairs.push((low as u32, high as u32))?
            }
            WordPairs::Short(_) => self.widen_and_push((low, high))?,
            WordPairs::Long(pairs) => pairs.push((low, high))?,
        }
        Ok(())
    }

    /// Adds a pair that does not fit. From then on each has sixteen bytes. It is not inlined, because most pairs fit.
    #[inline(never)]
    fn widen_and_push(&mut self, pair: (u64, u64)) -> Result<(), AllocError>
        ensures done { OnOk result (pairs_in self.new ≡ pairs_in self.old ++ pair ∷ []) }
        ensures refused { OnErr result (pairs_in self.new ≡ pairs_in self.old) }
    {
        match self {
            WordPairs::Short(pairs) => {
                let mut long = widened_pairs(pairs)?;
                long.push(pair)?;
                *self = WordPairs::Long(long);
            }
            WordPairs::Long(pairs) => pairs.push(pair)?,
        }
        Ok(())
    }

    /// Returns the number of pairs.
    pub(crate) fn len(&self) -> usize
        ensures { result ≡ length (pairs_in self.now) }
    {
        match self {
            WordPairs::Short(pairs) => pairs.len(),
            WordPairs::Long(pairs) => pairs.len(),
        }
    }

    /// Returns the pair at a place.
    #[inline(always)]
    pub(crate) fn at(&self, place: usize) -> (u64, u64)
        requires { place < length (pairs_in self.now) }
        ensures { slice_get (pairs_in self.now) place ≡ Some result }
    {
        match self {
            WordPairs::Short(pairs) => {
                let (low, high) = pairs[place];
                (low as u64, high as u64)
            }
            WordPairs::Long(pairs) => pairs[place],
        }
    }

    /// Removes all pairs. The memory is kept if each had eight bytes.
    pub(crate) fn clear(&mut self)
        ensures { pairs_in self.new ≡ [] }
    {
        match self {
            WordPairs::Short(pairs) => pairs.clear(),
            WordPairs::Long(pairs) => {
                let alloc = *pairs.allocator();
                *self = WordPairs::new(alloc);
            }
        }
    }

    /// Reserves memory for `count` more pairs of the present width.
    pub(crate) fn reserve(&mut self, count: usize) -> Result<(), AllocError>
        ensures { pairs_in self.new ≡ pairs_in self.old }
    {
        match self {
            WordPairs::Short(pairs) => pairs.reserve_exact(count)?,
            WordPairs::Long(pairs) => pairs.reserve_exact(count)?,
        }
        Ok(())
    }
}
