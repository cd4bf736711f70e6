//! The number at the end of a name, which is read as order `index` does, as a sort key.
ghost use Rattle.std.specs.Prelude.{◌≡◌, length, map, slice_index_or, IfOk, []};
ghost use Rattle.net_order.specs.Index.{trailing};
ghost use Rattle.net_order.specs.Force.{numbers_below};
ghost use Rattle.group_order.specs.NameKeys.{falling_key_of, falling_numbers, rising_key_of, rising_numbers};

use net_names::names::Names;
use net_order::tables::{numbers_below, sort_by_table};
use net_order::trailing_number::{MAX_NUMBER, TrailingNumber, trailing_of};
use std::alloc::{AllocError, Global};

/// The key by which numbers rise. No number is less than every number.
fn rising_key_of(end: TrailingNumber) -> u64
    ensures { result ≡ rising_key_of end }
{
    match end {
        TrailingNumber::Nothing => 0,
        TrailingNumber::Digits(number) => number.saturating_add(1),
        TrailingNumber::DigitsThenOther(number) => number.saturating_add(1),
    }
}

/// The key by which numbers fall. No number comes before every number here, too.
fn falling_key_of(end: TrailingNumber) -> u64
    ensures { result ≡ falling_key_of end }
{
    match end {
        TrailingNumber::Nothing => 0,
        TrailingNumber::Digits(number) => (MAX_NUMBER + 1).saturating_sub(number),
        TrailingNumber::DigitsThenOther(number) => (MAX_NUMBER + 1).saturating_sub(number),
    }
}

/// The key of each name by which numbers rise.
fn rising_keys(alloc: Global, names: &Names) -> Result<Vec<u64>, AllocError>
    ensures { IfOk result (λ v. v.items ≡ map (λ v. rising_key_of (trailing (slice_index_or names.now v []))) (numbers_below (length names.now))) }
{
    let mut keys = Vec::new(alloc);
    for place in 0..names.len() {
        keys.push(rising_key_of(trailing_of(names.at(place))))?;
    }
    Ok(keys)
}

/// The key of each name by which numbers fall.
fn falling_keys(alloc: Global, names: &Names) -> Result<Vec<u64>, AllocError>
    ensures { IfOk result (λ v. v.items ≡ map (λ v. falling_key_of (trailing (slice_index_or names.now v []))) (numbers_below (length names.now))) }
{
    let mut keys = Vec::new(alloc);
    for place in 0..names.len() {
        keys.push(falling_key_of(trailing_of(names.at(place))))?;
    }
    Ok(keys)
}

/// The variables by rising number at the end of their names. Those without a number come first.
#[tactic(auto, unfolding(crate::specs::NameKeys::rising_numbers))]
pub fn rising_numbers(alloc: Global, names: &Names) -> Result<Vec<usize>, AllocError>
    ensures { IfOk result (λ v. v.items ≡ rising_numbers names.now) }
{
    let keys = rising_keys(alloc, names)?;
    let mut numbers = numbers_below(alloc, names.len())?;
    sort_by_table(&mut numbers, keys.as_slice())?;
    Ok(numbers)
}

/// The variables by falling number at the end of their names. Those without a number come first.
#[tactic(auto, unfolding(crate::specs::NameKeys::falling_numbers))]
pub fn falling_numbers(alloc: Global, names: &Names) -> Result<Vec<usize>, AllocError>
    ensures { IfOk result (λ v. v.items ≡ falling_numbers names.now) }
{
    let keys = falling_keys(alloc, names)?;
    let mut numbers = numbers_below(alloc, names.len())?;
    sort_by_table(&mut numbers, keys.as_slice())?;
    Ok(numbers)
}
