ghost use Rattle.std.specs.Prelude.{◌≡◌, ◌*◌, ◌≤◌, ◌↔◌, ◌∷◌, ◌++◌, [], IsTrue, OnOk, slice_index};
ghost use Rattle.vx_risk.specs.Limbs.{number_of};

use vx_base::OutOfMemory;

/// Multiplies a number by a factor in its place, and answers the limb that is carried out at the top.
fn multiply_limbs(limbs: &mut [u64], factor: u64) -> u64
    ensures { number_of (limbs.new ++ result ∷ []) ≡ factor * number_of limbs.old }
{
    let mut carry = 0;
    for limb in limbs.iter_mut() {
        let (low, high) = limb.carrying_mul(factor, carry);
        *limb = low;
        carry = high;
    }
    carry
}

/// Multiplies a number by a factor in its place. It takes one limb more at most.
pub(crate) fn multiply(limbs: &mut Vec<u64>, factor: u64) -> Result<(), OutOfMemory>
    ensures { OnOk result (number_of limbs.new.items ≡ factor * number_of limbs.old.items) }
{
    let carry = multiply_limbs(limbs.as_mut_slice(), factor);
    if carry > 0 {
        limbs.push(carry)?;
    }
    Ok(())
}

/// The limb at a place, which is 0 past the end.
fn limb_at(limbs: &[u64], place: usize) -> u64
    ensures { result ≡ slice_index limbs.now place }
{
    if place < limbs.len() { limbs[place] } else { 0 }
}

/// Whether a number is at most another: they are compared at the highest place where they differ.
pub(crate) fn is_no_more(first: &[u64], second: &[u64]) -> bool
    ensures { IsTrue result ↔ (number_of first.now ≤ number_of second.now) }
{
    for place in (0..first.len().max(second.len())).rev() {
        let ours = limb_at(first, place);
        let theirs = limb_at(second, place);
        if ours != theirs {
            return ours < theirs;
        }
    }
    true
}
