// The first place of a byte.
ghost use Rattle.words.specs.Places.{FirstFrom};

// The first place from `from` on where v stands, or the end.
pub fn first_from(s: &[u8], from: usize, v: u8) -> usize
    ensures { FirstFrom s.now from v result }
{
    for i in from..s.len() {
        if s[i] == v {
            return i;
        }
    }
    s.len()
}
