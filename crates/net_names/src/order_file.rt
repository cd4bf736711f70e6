//! Order files: the names of variables, from level 0 at the top down.
ghost use Rattle.std.specs.Prelude.{◌≡◌, ◌+◌, ◌≤◌, ◌⊎◌, ◌∷◌, ◌++◌, ℕ, [], length, map, IfOk, IfErr, IfSome, OnOk, IsTrue, MatchOption};
ghost use Rattle.std.specs.Prelude.{Some, None, Err};
ghost use Rattle.text_device.specs.Devices.{TakesAtMost};
ghost use Rattle.net_bench.specs.Fault.{max_text};
ghost use Rattle.net_bench.specs.Scan.{seen};
ghost use Rattle.net_names.specs.OrderText.{IsBadText, IsOrderText, IsReadFault, listed_name, order_text};

use crate::names::Names;
use crate::order::OrderFault;
use net_bench::reader::MAX_TEXT;
use net_bench::scan::{Scanner, Token};
use std::alloc::{AllocError, Global};
use text_device::{Source, TextFault, read_text};

/// The most bytes of a name.
const MAX_NAME: usize = 255;

/// The name that this token of an order file is; None if it is no name, or one that is too long.
fn listed_name(token: Token<'_>) -> Option<&[u8]>
    ensures { (line : ℕ) → MatchOption result (listed_name (seen line token.entry) ≡ None)
        (λ name. listed_name (seen line token.entry) ≡ Some name.now) }
{
    match token {
        Token::Name(name) => if name.len() <= MAX_NAME {
            Some(name)
        } else {
            None
        },
        _ => None,
    }
}

/// Appends a copy of the name.
fn push_name(alloc: Global, names: &mut Vec<Vec<u8>>, name: &[u8]) -> Result<(), AllocError>
    ensures { OnOk result (map (λ n. n.items) names.new.items ≡ map (λ n. n.items) names.old.items ++ name.now ∷ []) }
{
    let copy = Vec::from_slice(alloc, name)?;
    names.push(copy)?;
    Ok(())
}

/// The names of the text, in their order, or the line of the first token that is none.
fn names_in(alloc: Global, text: &[u8]) -> Result<Vec<Vec<u8>>, OrderFault>
    requires { length text.now ≤ MAX_TEXT }
    ensures names { IfOk result (λ v. IsOrderText text.now (map (λ n. n.items) v.items)) }
    ensures refused { IfErr result (λ fault. (fault ≡ OrderFault.OutOfMemory) ⊎ IsBadText text.now fault) }
{
    let mut scanner = Scanner::new(text);
    let mut names = Vec::new(alloc);
    'tokens: loop {
        let (line, token) = scanner.next();
        if let Token::End = token {
            return Ok(names);
        }
        match listed_name(token) {
            Some(name) => push_name(alloc, &mut names, name)?,
            None => return Err(OrderFault::BadName { line }),
        }
    }
}

/// Reads an order file from the device.
pub fn read_order<R: Source>(alloc: Global, device: &mut R) -> Result<Names, OrderFault>
    // If it is accepted, the answer is its names, in their order.
    ensures names { IfOk result (λ names. IfSome (R.remaining device.old) (λ text. IsOrderText text names)) }
    // If it is refused, it is too long, or its first token that is no name is on the line of the fault, unless memory
    // ran out or the device failed.
    ensures refused { IfErr result (λ fault. (fault ≡ OrderFault.OutOfMemory) ⊎ (fault ≡ OrderFault.Read) ⊎
        IfSome (R.remaining device.old) (λ text. IsBadText text fault)) }
    ensures reading { IfErr result IsReadFault }
    // At most one byte more than an order file may have is read.
    ensures taken { TakesAtMost (max_text + 1) (R.remaining device.old) (R.remaining device.new) }
    // `Read` says that the device has failed. After any other answer it has failed only if it had before.
    ensures read { result ≡ Err OrderFault.Read → IsTrue (R.has_failed device.new) }
    ensures kept { (result ≡ Err OrderFault.Read → ⊥) → R.has_failed device.new ≡ R.has_failed device.old }
    ensures origin { R.origin device.new ≡ R.origin device.old }
{
    match read_text(alloc, device, MAX_TEXT) {
        Ok(text) => match names_in(alloc, text.as_slice()) {
            Ok(names) => Ok(Names::of(names)),
            Err(fault) => Err(fault),
        },
        Err(TextFault::Read) => Err(OrderFault::Read),
        Err(TextFault::TooLong) => Err(OrderFault::TooLong),
        Err(TextFault::OutOfMemory) => Err(OrderFault::OutOfMemory),
    }
}

/// Appends a name and a line end.
fn push_line(text: &mut Vec<u8>, name: &[u8]) -> Result<(), AllocError>
    ensures { OnOk result (text.new.items ≡ text.old.items ++ (name.now ++ 10 ∷ [])) }
{
    text.extend_from_slice(name)?;
    text.extend_from_slice(b"\n")?;
    Ok(())
}

/// The order file of these names, each on a line of its own.
pub fn order_text(alloc: Global, names: &Names) -> Result<Vec<u8>, AllocError>
    ensures { IfOk result (λ text. text.items ≡ order_text names.now) }
{
    let mut text = Vec::new(alloc);
    for place in 0..names.len() {
        push_line(&mut text, names.at(place))?;
    }
    Ok(text)
}
