// Sums of 64-bit numbers, wrapping at 64 bits.
#![tactic(auto)]

ghost use Rattle.std.specs.Prelude.{◌≡◌, length, slice_index};
ghost use Rattle.sums.specs.Sums.{sum, wrapped, moved_by};

// The sum of the entries of a stretch.
pub fn stretch(entries: &[u64]) -> u64
    ensures { result ≡ wrapped (sum (length entries.now) (λ k. slice_index entries.now k)) }
{
    entries
        .iter()
        .fold(0, |sum, entry| sum.wrapping_add(*entry))
}

// A sum of which one number changes.
pub fn moved_by(old: u64, new: u64, a: u64) -> u64
    ensures { result ≡ moved_by old new a }
{
    a.wrapping_add(new.wrapping_sub(old))
}
