// Parts of the part from..to of a slice of bytes. Every function refuses where from and to are not the ends of a part (from > to, or to past the
// end), and asks nothing of its caller. a, e and m are counted from `from`, the answers from the start of s.
#![tactic(auto)]

ghost use Rattle.std.specs.Prelude.{◌≡◌, ◌+◌, ◌-◌, ◌≤◌, ◌<◌, min, SomeIff};
ghost use Rattle.theory_lists.specs.Part.{Within, part_or_none};

use parts::Part;

pub fn sub_range(s: &[u8], from: usize, to: usize, a: usize, e: usize) -> Option<Part>
    ensures { SomeIff result (Within from to s.now × (a ≤ e) × (e ≤ to - from)) (record { from = from + a; to = from + e }) }
{
    s.get(from..to)?.get(a..e)?;
    Some(Part {
        from: from + a,
        to: from + e,
    })
}

pub fn split_at(s: &[u8], from: usize, to: usize, m: usize) -> Option<(Part, Part)>
    ensures { SomeIff result (Within from to s.now × (m ≤ to - from)) (record { from = from; to = from + m }, record { from = from + m; to = to }) }
{
    s.get(from..to)?.get(..m)?;
    let middle = from + m;
    Some((Part { from, to: middle }, Part { from: middle, to }))
}

// The first piece of n; the last may be shorter. The next one begins where it ends.
pub fn next_piece(s: &[u8], from: usize, to: usize, n: usize) -> Option<Part>
    ensures { SomeIff result (Within from to s.now × (from < to) × (0 < n)) (record { from = from; to = min (from + n) to }) }
{
    let part = s.get(from..to)?;
    if part.is_empty() || n == 0 {
        return None;
    }
    Some(Part {
        from,
        to: from + n.min(part.len()),
    })
}

// The part itself, and no bytes on refusal.
#[tactic(auto, using(theory_lists::proofs::Part::part_or_none_lem, theory_lists::proofs::Part::none_of_part))]
pub fn sub_slice(s: &[u8], from: usize, to: usize) -> &[u8]
    ensures { result.now ≡ part_or_none from to s.now }
{
    s.get(from..to).unwrap_or(&[])
}
