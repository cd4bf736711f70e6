// Lists of bits by signal.
ghost use Rattle.std.specs.Prelude.{◌≡◌};
ghost use Rattle.net_bench.specs.Labels.{bit_of};

/// The bit at a place; 0 beyond the end.
pub fn bit_at(bits: &[bool], place: u32) -> bool
    ensures { result ≡ bit_of bits.now place }
{
    bits.get(place as usize).copied().unwrap_or(false)
}
