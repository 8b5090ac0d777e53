// What is read of text, and its parts: where there is nothing, every number is 0.
#![tactic(auto)]

ghost use Rattle.std.specs.Prelude.{◌≡◌, true, false, MatchOption};

use parts::Part;
use text_read::Read;

// A scalar value, and the length of its form.
#[repr(C)]
#[derive(Clone, Copy)]
pub struct TextRead {
    pub ok: bool,
    pub value: u32,
    pub length: usize,
}

impl From<Option<Read>> for TextRead {
    ghost from_gives = { λ answer result. MatchOption answer ((result.ok ≡ false) × ((result.value ≡ 0) × (result.length ≡ 0))) (λ read. (result.ok ≡ true) × ((result.value ≡ read.value) × (result.length ≡ read.length))) };

    fn from(answer: Option<Read>) -> TextRead {
        match answer {
            Some(read) => TextRead {
                ok: true,
                value: read.value,
                length: read.length,
            },
            None => TextRead {
                ok: false,
                value: 0,
                length: 0,
            },
        }
    }
}

// Two parts: up to `middle`, and from there to `end`.
#[repr(C)]
#[derive(Clone, Copy)]
pub struct TextSplit {
    pub ok: bool,
    pub middle: usize,
    pub end: usize,
}

impl From<Option<(Part, Part)>> for TextSplit {
    ghost from_gives = { λ answer result. MatchOption answer ((result.ok ≡ false) × ((result.middle ≡ 0) × (result.end ≡ 0))) (λ parts. (result.ok ≡ true) × ((result.middle ≡ parts.0.to) × (result.end ≡ parts.1.to))) };

    fn from(answer: Option<(Part, Part)>) -> TextSplit {
        match answer {
            Some((front, back)) => TextSplit {
                ok: true,
                middle: front.to,
                end: back.to,
            },
            None => TextSplit {
                ok: false,
                middle: 0,
                end: 0,
            },
        }
    }
}
