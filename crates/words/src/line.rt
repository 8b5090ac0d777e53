// A line's words, with single spaces between: the NAME, and its arguments.
ghost use Rattle.std.specs.Prelude.{◌≡◌, length};
ghost use Rattle.std.specs.List.{slice_split};
ghost use Rattle.theory_lists.specs.Search.{is};

use crate::places;

// No question has more words.
const MOST: usize = 6;

// How many words there are, and the first MOST of them.
#[derive(Clone, Copy)]
pub struct Words<'a> {
    pub count: usize,
    words: [&'a [u8]; MOST],
}

impl<'a> Words<'a> {
    pub fn of(line: &'a [u8]) -> Words<'a>
        ensures { result.count ≡ length (slice_split (is 0x20) line.now) }
    {
        let mut words = Words::of_question(line);
        words.count = line.split(|b| *b == b' ').count();
        words
    }

    // Of a question: where there are more words than MOST it tells MOST + 1, and reads no further.
    pub fn of_question(line: &'a [u8]) -> Words<'a> {
        let mut words: [&[u8]; MOST] = [b""; MOST];
        let mut at = 0;
        for k in 0..MOST {
            let end = places::first_from(line, at, b' ');
            words[k] = line.get(at..end).unwrap_or(b"");
            if end == line.len() {
                return Words {
                    count: k + 1,
                    words,
                };
            }
            at = end + 1;
        }
        Words {
            count: MOST + 1,
            words,
        }
    }

    // The first word.
    pub fn name(self) -> &'a [u8] {
        self.words[0]
    }

    // An argument by its number, the first being 0. Past the last it is empty.
    pub fn argument(self, k: usize) -> &'a [u8] {
        if k < MOST - 1 { self.words[k + 1] } else { b"" }
    }
}

#[cfg(test)]
mod tests {
    use super::*;

    #[test]
    fn every_word_is_counted(rt: HostRuntime) {
        for (line, count) in [
            (&b""[..], 1),
            (b" ", 2),
            (b"a", 1),
            (b"a bc  d", 4),
            (b"a b c d e f", 6),
            (b"a b c d e f g h ", 9),
        ] {
            assert_eq!(rt; Words::of(line).count, count);
        }
    }

    #[test]
    fn words_are_told_in_their_order(rt: HostRuntime) {
        let words = Words::of(b"a bc  d");
        assert_eq!(rt; words.name(), &b"a"[..]);
        for (k, word) in [(0, &b"bc"[..]), (1, b""), (2, b"d"), (3, b"")] {
            assert_eq!(rt; words.argument(k), word);
        }
    }

    #[test]
    fn six_words_are_held(rt: HostRuntime) {
        let line = b"a b c d e f g h ";
        assert_eq!(rt; Words::of_question(line).count, 7);
        for words in [Words::of(line), Words::of_question(line)] {
            assert_eq!(rt; words.name(), &b"a"[..]);
            assert_eq!(rt; words.argument(4), &b"f"[..]);
            assert_eq!(rt; words.argument(5), &b""[..]);
        }
    }
}
