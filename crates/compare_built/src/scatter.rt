//! Verdicts over the variables of cones, as verdicts over all variables.
ghost use Rattle.std.specs.Prelude.{◌≡◌, ◌<◌, All, IfOk};
ghost use Rattle.compare_built.specs.Scatter.{scattered, scatter_support, widened_verdict};

use report_text::{Bits, Extras, Name, PairKind, Verdict};
use std::alloc::{AllocError, Global};

/// Returns the assignment of `levels` bits that has the given bits at the given places, in order, and 0 elsewhere.
/// Fails if memory is refused.
pub fn scatter_bits(
    alloc: Global,
    bits: &[bool],
    levels: usize,
    places: &[u32],
) -> Result<Vec<bool>, AllocError>
    requires { All (λ place. place < levels) places.now }
    ensures { IfOk result (λ all_bits. all_bits.items ≡ scattered levels places.now bits.now) }
{
    let mut all_bits = Vec::from_elem(alloc, false, levels)?;
    for (place, bit) in places.iter().zip(bits) {
        all_bits[*place as usize] = *bit;
    }
    Ok(all_bits)
}

/// Returns a support over the variables at the places as one over all variables; none stays none.
fn scatter_support(
    alloc: Global,
    support_bits: Option<Bits>,
    levels: usize,
    places: &[u32],
) -> Result<Option<Bits>, AllocError>
    requires { All (λ place. place < levels) places.now }
    ensures { IfOk result (λ all_bits. all_bits ≡ scatter_support levels places.now support_bits) }
{
    let Some(support_bits) = support_bits else {
        return Ok(None);
    };
    let all_bits = scatter_bits(alloc, support_bits.as_slice(), levels, places)?;
    Ok(Some(Bits::of(all_bits)))
}

/// Returns a verdict over the variables at the places as the verdict of this role and name over all variables: the
/// variables that the verdict does not have are 0 in its assignment. Sizes are left out, as they are those of diagrams
/// in the cones' order. Takes time linear in `levels`. Fails if memory is refused.
pub fn widen_verdict(
    alloc: Global,
    verdict: Verdict,
    role: PairKind,
    name: &[u8],
    levels: usize,
    places: &[u32],
) -> Result<Verdict, AllocError>
    requires { All (λ place. place < levels) places.now }
    ensures { IfOk result (λ v. v ≡ widened_verdict role name.now levels places.now verdict) }
{
    let name = Name::copied(alloc, name)?;
    match verdict {
        Verdict::Equal { .. } => Ok(Verdict::Equal {
            role,
            name,
            size: None,
        }),
        Verdict::Differs {
            at,
            first,
            second,
            extras,
            ..
        } => {
            let all_bits = scatter_bits(alloc, at.as_slice(), levels, places)?;
            let support = scatter_support(alloc, extras.support, levels, places)?;
            Ok(Verdict::Differs {
                role,
                name,
                at: Bits::of(all_bits),
                first,
                second,
                extras: Extras {
                    least: extras.least,
                    support,
                    sizes: None,
                },
            })
        }
        Verdict::Unmatched { side, .. } => Ok(Verdict::Unmatched { side, role, name }),
        Verdict::Undecided { .. } => Ok(Verdict::Undecided { role, name }),
    }
}
