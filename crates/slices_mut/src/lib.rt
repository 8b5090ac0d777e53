// Writing into the part from..to of a slice of bytes. Every function refuses where from and to are not the ends of a part (from > to, or to
// past the end) and then writes nothing; what it writes it names, and every other byte is as it was (`written`).
#![tactic(auto)]

ghost use Rattle.std.specs.Prelude.{◌≡◌, ◌∷◌, [], ◌+◌, ◌-◌, ◌≤◌, ◌<◌, length, take, replicate};
ghost use Rattle.theory_answers.specs.Says.{Outcome};
ghost use Rattle.theory_lists.specs.Part.{Within};
ghost use Rattle.theory_lists.specs.Written.{written};

// One slice into another of the same length: copy_from_slice becomes a call of the C library, and of a zip of iter_mut the loop knows nothing of d.
fn copy(d: &mut [u8], s: &[u8])
    requires { length d.old ≡ length s.now }
    ensures { d.new ≡ s.now }
{
    for (i, x) in s.iter().enumerate() {
        d[i] = *x;
    }
}

// ---- the operations: true, or refused. The library says nothing of what a slice is after get_mut, so they index it

// The element i of the part, counted from `from`, becomes v.
#[tactic(auto, using(theory_lists::proofs::Written::written_one))]
pub fn set(s: &mut [u8], from: usize, to: usize, i: usize, v: u8) -> bool
    ensures { Outcome result (Within from to s.old × (i < to - from)) (s.new ≡ written s.old (from + i) (v ∷ [])) (s.new ≡ s.old) }
{
    match s.get(from..to) {
        Some(part) if i < part.len() => {
            s[from + i] = v;
            true
        }
        _ => false,
    }
}

// The bytes of other, one by one, become the part: the plain form of `slices_copy::copy_from`.
pub fn put(s: &mut [u8], from: usize, to: usize, other: &[u8]) -> bool
    ensures { Outcome result (Within from to s.old × (length other.now ≡ to - from))
        (s.new ≡ written s.old from other.now) (s.new ≡ s.old) }
{
    match s.get(from..to) {
        Some(part) if part.len() == other.len() => {
            copy(&mut s[from..to], other);
            true
        }
        _ => false,
    }
}

// ---- bytes that are held while others are written

// The bytes of s at the front of an array; of more than 64 none, and the array is all zeros.
pub fn held(s: &[u8]) -> [u8; 64]
    ensures { (length s.now ≤ 64 → (64 ≡ length result) × (take (length s.now) result ≡ s.now)) × (64 < length s.now → result ≡ replicate 64 0) }
{
    let mut bytes = [0u8; 64];
    put(&mut bytes, 0, s.len(), s);
    bytes
}
