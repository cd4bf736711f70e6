//! Files of pairs: two names a line, the first netlist's and the second's.
ghost use Rattle.std.specs.Prelude.{◌≡◌, ◌+◌, ◌≤◌, ◌⊎◌, ◌∷◌, ◌++◌, ℕ, [], length, IfOk, IfErr, IfSome, OnOk, IsTrue, MatchOption, Some, None, Err};
ghost use Rattle.text_device.specs.Devices.{TakesAtMost};
ghost use Rattle.net_bench.specs.Fault.{max_text};
ghost use Rattle.net_bench.specs.Scan.{seen};
ghost use Rattle.net_names.specs.OrderText.{listed_name};
ghost use Rattle.net_rename.specs.PairText.{IsBadPairText, IsPairReadFault, IsPairText};
ghost use Rattle.net_rename.specs.declared.pair.NamePair.{NamePair as NamePairValue};

use crate::fault::PairsFault;
use crate::pair::NamePair;
use net_bench::reader::MAX_TEXT;
use net_bench::scan::{Scanner, Token};
use std::alloc::{AllocError, Global};
use text_device::{Source, TextFault, read_text};

/// The most bytes of a name.
const MAX_NAME: usize = 255;

/// The name that a token of a file of pairs is.
fn name_in(token: Token<'_>) -> Option<&[u8]>
    ensures { (line : ℕ) → MatchOption result (listed_name (seen line token.entry) ≡ None)
        (λ name. listed_name (seen line token.entry) ≡ Some name.now) }
{
    match token {
        Token::Name(name) if name.len() <= MAX_NAME => Some(name),
        _ => None,
    }
}

/// Puts a pair of copies of these names at the end.
fn push_pair(
    alloc: Global,
    pairs: &mut Vec<NamePair>,
    first: &[u8],
    second: &[u8],
    line: u32,
) -> Result<(), AllocError>
    ensures { OnOk result ((p : NamePairValue) × (p.first.items ≡ first.now) × (p.second.items ≡ second.now) × (p.line ≡ line)
        × (pairs.new.items ≡ pairs.old.items ++ p ∷ [])) }
{
    let first = Vec::from_slice(alloc, first)?;
    let second = Vec::from_slice(alloc, second)?;
    pairs.push(NamePair {
        first,
        second,
        line,
    })?;
    Ok(())
}

/// The pairs of the text.
fn pairs_in(alloc: Global, text: &[u8]) -> Result<Vec<NamePair>, PairsFault>
    requires { length text.now ≤ MAX_TEXT }
    ensures pairs { IfOk result (λ v. IsPairText text.now v.items) }
    ensures refused { IfErr result (λ fault. (fault ≡ PairsFault.OutOfMemory) ⊎ IsBadPairText text.now fault) }
{
    let mut scanner = Scanner::new(text);
    let mut pairs = Vec::new(alloc);
    'tokens: loop {
        let (line, token) = scanner.next();
        if let Token::End = token {
            return Ok(pairs);
        }
        let Some(first) = name_in(token) else {
            return Err(PairsFault::BadLine { line });
        };
        let (same_line, token) = scanner.next();
        match name_in(token) {
            Some(second) if same_line == line => {
                push_pair(alloc, &mut pairs, first, second, line)?;
            }
            _ => return Err(PairsFault::BadLine { line }),
        }
    }
}

/// The pairs of the file that the device gives.
pub fn read_pairs<R: Source>(alloc: Global, device: &mut R) -> Result<Vec<NamePair>, PairsFault>
    // What is accepted is a list of pairs, and they are answered in its order.
    ensures pairs { IfOk result (λ v. IfSome (R.remaining device.old) (λ text. IsPairText text v.items)) }
    // What is refused is too long, or has a line that is not made of pairs of names, unless memory ran out or the device failed.
    ensures refused { IfErr result (λ fault. (fault ≡ PairsFault.OutOfMemory) ⊎ (fault ≡ PairsFault.Read) ⊎
        IfSome (R.remaining device.old) (λ text. IsBadPairText text fault)) }
    ensures reading { IfErr result IsPairReadFault }
    // At most one byte more than a text may have is taken.
    ensures taken { TakesAtMost (max_text + 1) (R.remaining device.old) (R.remaining device.new) }
    // Read says that the device has failed, and nothing else does.
    ensures read { result ≡ Err PairsFault.Read → IsTrue (R.has_failed device.new) }
    ensures kept { (result ≡ Err PairsFault.Read → ⊥) → R.has_failed device.new ≡ R.has_failed device.old }
    ensures origin { R.origin device.new ≡ R.origin device.old }
{
    match read_text(alloc, device, MAX_TEXT) {
        Ok(text) => pairs_in(alloc, text.as_slice()),
        Err(TextFault::Read) => Err(PairsFault::Read),
        Err(TextFault::TooLong) => Err(PairsFault::TooLong),
        Err(TextFault::OutOfMemory) => Err(PairsFault::OutOfMemory),
    }
}
