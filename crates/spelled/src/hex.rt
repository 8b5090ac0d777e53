// Bytes as questions and answers have them: two lowercase hex digits a byte, and `-` alone for no bytes.
ghost use Rattle.std.specs.Prelude.{◌%◌, ◌<◌, IfSome, unwrap_or};
ghost use Rattle.spelled.specs.Hex.{Spells, Digit};

// ---- reading

// The value of a digit.
fn digit(b: u8) -> Option<u8>
    ensures value { Digit b (unwrap_or result 16) }
    ensures small { IfSome result (λ n. n < 16) }
{
    match b {
        b'0'..=b'9' => Some(b - b'0'),
        b'a'..=b'f' => Some(b - b'a' + 10),
        _ => None,
    }
}

// The bytes that s spells, into the start of out: how many. Refused: an odd number of digits, another byte than a digit, or no room.
pub fn read(s: &[u8], out: &mut [u8]) -> Option<usize> {
    if s == b"-".as_slice() {
        return Some(0);
    }
    let n = s.len() / 2;
    if n == 0 || s.len() % 2 != 0 || out.len() < n {
        return None;
    }
    for (byte, pair) in out.iter_mut().zip(s.chunks_exact(2)) {
        *byte = digit(pair[0])? * 16 + digit(pair[1])?;
    }
    Some(n)
}

// ---- writing

// The digit of a value's lower half.
fn figure(value: u8) -> u8
    ensures { Spells result (value % 16) }
{
    let low = value % 16;
    if low < 10 {
        b'0' + low
    } else {
        b'a' - 10 + low
    }
}

// s as hex digits from a place on; answers the place behind them. Nothing is written where there is no room.
pub fn write(out: &mut [u8], at: usize, s: &[u8]) -> usize {
    if s.is_empty() {
        return crate::words(out, at, "-");
    }
    if out.len() < at || (out.len() - at) / 2 < s.len() {
        return at;
    }
    let end = at + 2 * s.len();
    for (pair, byte) in out[at..end].chunks_exact_mut(2).zip(s) {
        pair[0] = figure(*byte / 16);
        pair[1] = figure(*byte);
    }
    end
}
