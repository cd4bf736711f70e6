//! The children of requests, in eight bytes each.
ghost use Rattle.std.specs.Prelude.{◌≡◌, ◌<◌, ◌≤◌, ◌^◌};
ghost use Rattle.req_table.specs.PackedChildWords.{packed_child_word, packed_child_of, short_of, IsPackedChildWord};

use dd_store::Ref;
use std::marker::Model;

/// A child of a request: its answer, or the level of the request that it asks for and a number there. The number is the
/// request's place, or, before the places are known, the number of its owner. If `complement` is set, the child is the
/// complement of the request's answer.
#[derive(Clone, Copy, Debug)]
pub enum PlacedChild {
    Done(Ref),
    Ask {
        level: u16,
        number: u32,
        complement: bool,
    },
}

/// A child of a request, in eight bytes, of which the upper four are 0 if it fits in four.
#[derive(Clone, Copy)]
pub struct PackedChild {
    /// An answer is its word, which is below 2^31 or at least 2^41. A near or far request, which fits in four bytes,
    /// has bit 31 set, its complement bit in bit 0 and its number from bit 1 on; a near one has its level from bit 22
    /// on; a far one has bit 30 set and its level from bit 18 on. Any other request has bit 63 set, its complement bit
    /// in bit 62, its level from bit 32 on, and its number below.
    word: u64,
}

/// A request that fits in four bytes has `SHORT_BIT`, which no short answer has, and is below `SHORT_END`; a far one
/// has `FAR_BIT`.
const SHORT_BIT: u64 = 1 << 31;

const SHORT_END: u64 = 1 << 32;

const FAR_BIT: u64 = 1 << 30;

/// A request is near if its level and its number are below the NEAR bounds. It is far if its level is not below
/// `NEAR_LEVELS`, and both are below the FAR bounds.
const NEAR_LEVELS: u16 = 1 << 8;

const FAR_LEVELS: u16 = 1 << 12;

const NEAR_NUMBERS: u32 = 1 << 21;

const FAR_NUMBERS: u32 = 1 << 17;

/// The values of the lowest bit of the level in a near request and in a far one.
const NEAR_LEVEL_BIT: u64 = 1 << 22;

const FAR_LEVEL_BIT: u64 = 1 << 18;

/// In any other request: the bit that no answer has, the complement bit, and the value of the lowest bit of the level.
const ASK_BIT: u64 = 1 << 63;

const COMPLEMENT_BIT: u64 = 1 << 62;

const LEVEL_BIT: u64 = 1 << 32;

const _: () = prove!(size_of::<PackedChild>() == 8);

impl Model for PackedChild {
    ghost use Rattle.req_table.specs.declared.packed_child.PlacedChild.{PlacedChild};

    ghost Value = { PlacedChild };

    ghost use Rattle.req_table.specs.PackedChildWords.{packed_child_word, packed_child_of, IsPackedChildWord};
    ghost use Rattle.req_table.specs.PackedChildLaws.{packed_child_word-packed_child_of};

    ghost view = { λ p. packed_child_of p.word };

    ghost inverse = { λ p. record { word = packed_child_word p } };

    ghost inverse_ok = { λ p h i. record { word = packed_child_word-packed_child_of p.word h i } };

    ghost invariant = { λ p. IsPackedChildWord p.word };
}

/// Returns the request that has this word of four bytes.
#[inline(always)]
fn short_request(word: u64) -> PlacedChild
    requires first { 2 ^ 31 ≤ word }
    requires end { word < 2 ^ 32 }
    ensures { result ≡ short_of word }
{
    let complement = word % 2 == 1;
    if word < SHORT_BIT + FAR_BIT {
        return PlacedChild::Ask {
            level: (word % FAR_BIT / NEAR_LEVEL_BIT) as u16,
            number: (word % NEAR_LEVEL_BIT / 2) as u32,
            complement,
        };
    }
    PlacedChild::Ask {
        level: (word % FAR_BIT / FAR_LEVEL_BIT) as u16,
        number: (word % FAR_LEVEL_BIT / 2) as u32,
        complement,
    }
}

impl PackedChild {
    /// Returns the child that is this answer.
    #[inline(always)]
    pub fn done(answer: Ref) -> PackedChild
        ensures { result ≡ PlacedChild.Done answer }
    {
        PackedChild {
            word: answer.word(),
        }
    }

    /// Returns the child that asks for the request with this number at a level.
    #[inline(always)]
    pub fn ask(level: u16, number: u32, complement: bool) -> PackedChild
        ensures { result ≡ PlacedChild.Ask level number complement }
    {
        let low = number as u64 * 2 + complement as u64;
        if level < NEAR_LEVELS && number < NEAR_NUMBERS {
            return PackedChild {
                word: SHORT_BIT + level as u64 * NEAR_LEVEL_BIT + low,
            };
        }
        if level >= NEAR_LEVELS && level < FAR_LEVELS && number < FAR_NUMBERS {
            return PackedChild {
                word: SHORT_BIT + FAR_BIT + level as u64 * FAR_LEVEL_BIT + low,
            };
        }
        let complement_bit = if complement { COMPLEMENT_BIT } else { 0 };
        PackedChild {
            word: ASK_BIT + complement_bit + level as u64 * LEVEL_BIT + number as u64,
        }
    }

    /// Returns the child as an enum, to match on.
    #[inline(always)]
    pub fn view(self) -> PlacedChild
        ensures { result ≡ self }
    {
        let word = self.word;
        if word < SHORT_BIT {
            return PlacedChild::Done(Ref::of_word(word));
        }
        if word < SHORT_END {
            return short_request(word);
        }
        if word < ASK_BIT {
            return PlacedChild::Done(Ref::of_word(word));
        }
        PlacedChild::Ask {
            level: (word % COMPLEMENT_BIT / LEVEL_BIT) as u16,
            number: (word % LEVEL_BIT) as u32,
            complement: word / COMPLEMENT_BIT == 3,
        }
    }

    /// Returns the child as a number, its word. Different children have different words.
    #[inline(always)]
    pub fn word(self) -> u64
        ensures word { result ≡ packed_child_word self }
        ensures within { IsPackedChildWord result }
        ensures back { packed_child_of result ≡ self }
    {
        self.word
    }

    /// Returns the child that has this word.
    #[inline(always)]
    pub fn of_word(word: u64) -> PackedChild
        requires { IsPackedChildWord word }
        ensures { result ≡ packed_child_of word }
    {
        PackedChild { word }
    }
}
