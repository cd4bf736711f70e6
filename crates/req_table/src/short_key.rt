//! Requests in eight bytes.
ghost use Rattle.std.specs.Prelude.{◌≡◌, MatchOption};
ghost use Rattle.req_table.specs.Short.{IsShort};

use crate::{Key, XOR_BIT};
use dd_store::Ref;
use std::hash::{Hash, Hasher};
use std::marker::Model;

/// A request whose operands' words have at most 31 bits each, in eight bytes.
#[derive(Clone, Copy)]
pub(crate) struct ShortKey {
    /// The word of the first operand in bits 0 to 30, that of the second in bits 31 to 61, and bit 63 set for Xor.
    word: u64,
}

const _: () = prove!(size_of::<ShortKey>() == 8);

/// The value of the lowest bit of the second operand's word. Both operands' words are below it.
const SECOND_BIT: u64 = 1 << 31;

/// The bits of the first operand's word and of the operation.
const FIRST_BITS: u64 = XOR_BIT + SECOND_BIT - 1;

impl Model for ShortKey {
    ghost use Rattle.req_table.specs.declared.Operation.{Operation};

    ghost Value = { Operation };

    ghost use Rattle.req_table.specs.Operation.{IsRequest};
    ghost use Rattle.req_table.specs.Short.{short_word, short_of, IsShortWord};
    ghost use Rattle.req_table.specs.ShortLaws.{short_word-short_of};

    ghost view = { λ k. short_of k.word };

    ghost inverse = { λ k. record { word = short_word k } };

    ghost inverse_ok = { λ k h i. record { word = short_word-short_of k.word h.0 i } };

    ghost invariant = { λ k. IsShortWord k.word × IsRequest (short_of k.word) };
}

impl ShortKey {
    /// Returns the request in eight bytes, or none if it does not fit.
    #[inline(always)]
    pub(crate) fn of(key: Key) -> Option<ShortKey>
        ensures { MatchOption result (IsShort key → ⊥) (λ s. IsShort key × (s ≡ key)) }
    {
        let first = key.first_word();
        let second = key.g().word();
        if first % XOR_BIT >= SECOND_BIT || second >= SECOND_BIT {
            return None;
        }
        Some(ShortKey {
            word: first + second * SECOND_BIT,
        })
    }

    /// Returns the request in sixteen bytes.
    #[inline(always)]
    pub(crate) fn key(self) -> Key
        ensures { result ≡ self }
    {
        let second = Ref::of_word(self.word / SECOND_BIT % SECOND_BIT);
        Key::of_words(self.word & FIRST_BITS, second)
    }
}

impl PartialEq for ShortKey {
    ghost use Rattle.req_table.specs.contracts.OperationPartialEq.TheImpl.{eq-value};
    ghost use Rattle.req_table.specs.contracts.OperationPartialEq.TheImpl.Laws.{laws-law};

    ghost eq = { eq-value.it };

    ghost laws = { laws-law };

    fn eq(&self, other: &ShortKey) -> bool {
        self.word == other.word
    }
}

impl Eq for ShortKey {
    ghost use Rattle.req_table.specs.contracts.OperationEq.TheImpl.Laws.{laws-law};

    ghost laws = { laws-law };
}

impl Hash for ShortKey {
    ghost use Rattle.std.specs.Hash as fed;
    ghost use Rattle.req_table.specs.Short.{short_word};
    ghost use Rattle.req_table.specs.Equal.{key_same};
    ghost use Rattle.std.proofs.Common.{ap};

    ghost hash_input = { λ k. fed.u64 (short_word k) };

    ghost respects_eq = { λ x y e. ap (λ k. fed.u64 (short_word k)) (key_same x y e) };

    fn hash<H: Hasher>(&self, state: &mut H) {
        state.write_u64(self.word);
    }
}
