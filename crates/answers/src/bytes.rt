// Places in a slice of bytes, counted from its start: where there are none, every place is 0.

ghost use Rattle.std.specs.Prelude.{◌≡◌, true, false, MatchOption};

use parts::Part;

#[repr(C)]
#[derive(Clone, Copy)]
pub struct BytesRange {
    pub ok: bool,
    pub from: usize,
    pub to: usize,
}

impl From<Option<Part>> for BytesRange {
    ghost from_gives = { λ answer result. MatchOption answer
        ((result.ok ≡ false) × ((result.from ≡ 0) × (result.to ≡ 0)))
        (λ part. (result.ok ≡ true) × ((result.from ≡ part.from) × (result.to ≡ part.to))) };

    fn from(answer: Option<Part>) -> BytesRange {
        match answer {
            Some(part) => BytesRange {
                ok: true,
                from: part.from,
                to: part.to,
            },
            None => BytesRange {
                ok: false,
                from: 0,
                to: 0,
            },
        }
    }
}

// Two parts, of which the second begins where the first ends.
#[repr(C)]
#[derive(Clone, Copy)]
pub struct BytesSplit {
    pub ok: bool,
    pub from: usize,
    pub middle: usize,
    pub to: usize,
}

impl From<Option<(Part, Part)>> for BytesSplit {
    ghost from_gives = { λ answer result. MatchOption answer
        ((result.ok ≡ false) × ((result.from ≡ 0) × (result.middle ≡ 0) × (result.to ≡ 0)))
        (λ parts. (result.ok ≡ true) × ((result.from ≡ parts.0.from) × (result.middle ≡ parts.0.to) × (result.to ≡ parts.1.to))) };

    fn from(answer: Option<(Part, Part)>) -> BytesSplit {
        match answer {
            Some((front, back)) => BytesSplit {
                ok: true,
                from: front.from,
                middle: front.to,
                to: back.to,
            },
            None => BytesSplit {
                ok: false,
                from: 0,
                middle: 0,
                to: 0,
            },
        }
    }
}

#[repr(C)]
#[derive(Clone, Copy)]
pub struct BytesFirstAndRest {
    pub ok: bool,
    pub first: u8,
    pub from: usize,
    pub to: usize,
}

impl From<Option<(u8, Part)>> for BytesFirstAndRest {
    ghost from_gives = { λ answer result. MatchOption answer
        ((result.ok ≡ false) × ((result.first ≡ 0) × (result.from ≡ 0) × (result.to ≡ 0)))
        (λ parts. (result.ok ≡ true) × ((result.first ≡ parts.0) × (result.from ≡ parts.1.from) × (result.to ≡ parts.1.to))) };

    fn from(answer: Option<(u8, Part)>) -> BytesFirstAndRest {
        match answer {
            Some((first, rest)) => BytesFirstAndRest {
                ok: true,
                first,
                from: rest.from,
                to: rest.to,
            },
            None => BytesFirstAndRest {
                ok: false,
                first: 0,
                from: 0,
                to: 0,
            },
        }
    }
}
