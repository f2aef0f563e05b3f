// What every layer shares: a word as an index, the lesser and the greater of two, one number less another, and the first that is found.
#![tactic(auto)]

ghost use Rattle.std.specs.Prelude.{◌≡◌, ◌-◌, ◌<◌, ℕ, min, max, Option};
ghost use Rattle.ground.specs.First.{first_from, Finds};

// A 32-bit field as an index: sums of such are made in 64 bits, so that none wraps.
pub fn number(x: u32) -> usize
    ensures { (result ≡ x) × (result < 4294967296) }
{
    x as usize
}

pub fn min(a: usize, b: usize) -> usize
    ensures { result ≡ min a b }
{
    if a < b { a } else { b }
}

pub fn max(a: usize, b: usize) -> usize
    ensures { result ≡ max a b }
{
    if a < b { b } else { a }
}

// So much less, and 0 where that is more than there is.
pub fn minus(a: usize, by: usize) -> usize
    ensures { result ≡ a - by }
{
    if by <= a { a - by } else { 0 }
}

// What this looker finds at the first of so many numbers, from 0 on, at which it finds anything.
pub fn first_found<F: Fn(usize) -> Option<usize>>(count: usize, look: F) -> Option<usize>
    requires { (k : ℕ) → k < count → F.pre look k }
    ensures { (found : ℕ → Option ℕ) → Finds (F.post look) count found → result ≡ first_from found 0 count }
{
    for k in 0..count {
        if let Some(place) = look(k) {
            return Some(place);
        }
    }
    None
}
