// Tests on the part from..to of a slice of bytes: whether it is, begins with, ends with or contains something, by the tests of `slices_whole`.
// Every function refuses where from and to are not the ends of a part, and asks nothing of its caller.
#![tactic(auto)]

ghost use Rattle.std.specs.Prelude.{◌≡◌, ◌-◌, length, take, drop};
ghost use Rattle.theory_answers.specs.Says.{Tells};
ghost use Rattle.theory_lists.specs.Part.{part, Within, Has};

pub fn equal(s: &[u8], from: usize, to: usize, other: &[u8]) -> Option<bool>
    ensures { Tells result (Within from to s.now) (part from to s.now ≡ other.now) }
{
    Some(slices_whole::same(s.get(from..to)?, other))
}

pub fn starts_with(s: &[u8], from: usize, to: usize, other: &[u8]) -> Option<bool>
    ensures { Tells result (Within from to s.now) (take (length other.now) (part from to s.now) ≡ other.now) }
{
    let part = s.get(from..to)?;
    let n = other.len();
    Some(n <= part.len() && slices_whole::same(&part[..n], other))
}

pub fn ends_with(s: &[u8], from: usize, to: usize, other: &[u8]) -> Option<bool>
    ensures { Tells result (Within from to s.now) (drop (to - from - length other.now) (part from to s.now) ≡ other.now) }
{
    let part = s.get(from..to)?;
    let n = other.len();
    Some(n <= part.len() && slices_whole::same(&part[part.len() - n..], other))
}

pub fn contains(s: &[u8], from: usize, to: usize, v: u8) -> Option<bool>
    ensures { Tells result (Within from to s.now) (Has v (part from to s.now)) }
{
    Some(slices_whole::has(s.get(from..to)?, v))
}
