// Reading the part from..to of a slice of bytes: its length and its elements, counted from `from`. Every function refuses where from and to are not
// the ends of a part (from > to, or to past the end), and asks nothing of its caller.
#![tactic(auto)]

ghost use Rattle.std.specs.Prelude.{◌≡◌, ◌+◌, ◌-◌, ◌<◌, length, get_or, SomeIff};
ghost use Rattle.theory_answers.specs.Says.{Tells};
ghost use Rattle.theory_lists.specs.Part.{part, Within};

use parts::Part;

pub fn len(s: &[u8], from: usize, to: usize) -> Option<usize>
    ensures { SomeIff result (Within from to s.now) (length (part from to s.now)) }
{
    Some(s.get(from..to)?.len())
}

pub fn is_empty(s: &[u8], from: usize, to: usize) -> Option<bool>
    ensures { Tells result (Within from to s.now) (length (part from to s.now) ≡ 0) }
{
    Some(s.get(from..to)?.is_empty())
}

pub fn get(s: &[u8], from: usize, to: usize, i: usize) -> Option<u8>
    ensures { SomeIff result (Within from to s.now × (i < to - from)) (get_or (part from to s.now) i 0) }
{
    s.get(from..to)?.get(i).copied()
}

pub fn first(s: &[u8], from: usize, to: usize) -> Option<u8>
    ensures { SomeIff result (Within from to s.now × (from < to)) (get_or (part from to s.now) 0 0) }
{
    s.get(from..to)?.first().copied()
}

pub fn last(s: &[u8], from: usize, to: usize) -> Option<u8>
    ensures { SomeIff result (Within from to s.now × (from < to)) (get_or (part from to s.now) (to - from - 1) 0) }
{
    s.get(from..to)?.last().copied()
}

// The first element, and where the others are.
pub fn split_first(s: &[u8], from: usize, to: usize) -> Option<(u8, Part)>
    ensures { SomeIff result (Within from to s.now × (from < to)) (get_or (part from to s.now) 0 0, record { from = from + 1; to = to }) }
{
    let (first, _) = s.get(from..to)?.split_first()?;
    Some((*first, Part { from: from + 1, to }))
}
