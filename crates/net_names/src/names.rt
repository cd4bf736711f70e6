//! Lists of names.
ghost use Rattle.std.specs.Prelude.{◌≡◌, ℕ, ◌<◌, ◌≤◌, List, length, map, slice_get, Some};

use std::marker::Model;

/// The most names of a list: an order file has no more names than bytes.
pub const MAX_NAMES: usize = 67_108_864;

/// A list of names. One that was read from an order file may have a name twice.
#[derive(Drop)]
pub struct Names {
    list: Vec<Vec<u8>>,
}

impl Model for Names {
    ghost use Rattle.std.specs.Prelude.{List, ℕ, ◌≤◌, length, map};

    ghost Value = { List (List ℕ) };

    ghost view = { λ a. map (λ v. v.items) a.list.items };

    // an order file has no more names than bytes
    ghost invariant = { λ a. length a.list.items ≤ 67108864 };
}

impl Names {
    /// The list of these names.
    pub fn of(list: Vec<Vec<u8>>) -> Names
        requires { length list.items ≤ 67108864 }
        ensures { result ≡ map (λ v. v.items) list.items }
    {
        Names { list }
    }

    /// The number of names.
    pub fn len(&self) -> usize
        ensures value { result ≡ length self.now }
        ensures small { length self.now ≤ 67108864 }
    {
        self.list.len()
    }

    /// The name at this place, counted from 0.
    pub fn at(&self, place: usize) -> &[u8]
        requires { place < length self.now }
        ensures { slice_get self.now place ≡ Some result.now }
    {
        self.list[place].as_slice()
    }
}
