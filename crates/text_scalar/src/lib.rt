// One scalar value: whether a number is one, how long its form is, white space. What is no scalar value is refused.
#![tactic(auto)]

ghost use Rattle.std.specs.Prelude.{◌≡◌, SomeIff};
ghost use Rattle.theory_answers.specs.Says.{Says};
ghost use Rattle.theory_lists.specs.Part.{Has};
ghost use Rattle.theory_text.specs.Scalar.{Scalar, len};
ghost use Rattle.theory_text.specs.WhiteSpace.{white_space};

pub fn is_scalar(c: u32) -> bool
    ensures { Says result (Scalar c) }
{
    matches!(c, 0..=0xd7ff | 0xe000..=0x10ffff)
}

fn len_of(c: u32) -> usize
    ensures { result ≡ len c }
{
    match c {
        0..=0x7f => 1,
        0x80..=0x7ff => 2,
        0x800..=0xffff => 3,
        _ => 4,
    }
}

pub fn scalar_len(c: u32) -> Option<usize>
    ensures { SomeIff result (Scalar c) (len c) }
{
    is_scalar(c).then_some(len_of(c))
}

// Unicode's White_Space.
pub fn is_white_space(c: u32) -> bool
    ensures { Says result (Has c white_space) }
{
    match c {
        0..0x80 => matches!(c, 0x9..=0xd | 0x20),
        0x80..0x2000 => matches!(c, 0x85 | 0xa0 | 0x1680),
        0x2000..=0x200a => true,
        _ => matches!(c, 0x2028 | 0x2029 | 0x202f | 0x205f | 0x3000),
    }
}
