// Every operation that the faces export, with what it takes and answers: what programs go through (written by generate/ from the table of operations).
// `numbered_integers`, `numbered_digits` and `numbered_bytes` run them.
#![tactic(auto)]

ghost use Rattle.std.specs.Prelude.{◌≤◌};

use std::fmt;

// ---- kinds of integer

#[derive(Clone, Copy, PartialEq, Eq, Debug)]
pub enum Kind {
    U8,
    U16,
    U32,
    U64,
    Usize,
    I8,
    I16,
    I32,
    I64,
    Isize,
}

impl Kind {
    pub const ALL: [Kind; 10] = [
        Kind::U8,
        Kind::U16,
        Kind::U32,
        Kind::U64,
        Kind::Usize,
        Kind::I8,
        Kind::I16,
        Kind::I32,
        Kind::I64,
        Kind::Isize,
    ];

    pub fn is_signed(self) -> bool {
        match self {
            Kind::I8 | Kind::I16 | Kind::I32 | Kind::I64 | Kind::Isize => true,
            _ => false,
        }
    }

    // The kind of the same width and the other sign.
    pub fn other_sign(self) -> Kind {
        match self {
            Kind::U8 => Kind::I8,
            Kind::U16 => Kind::I16,
            Kind::U32 => Kind::I32,
            Kind::U64 => Kind::I64,
            Kind::Usize => Kind::Isize,
            Kind::I8 => Kind::U8,
            Kind::I16 => Kind::U16,
            Kind::I32 => Kind::U32,
            Kind::I64 => Kind::U64,
            Kind::Isize => Kind::Usize,
        }
    }

    pub fn width(self) -> u64
        ensures { (8 ≤ result) × (result ≤ 64) }
    {
        match self {
            Kind::U8 | Kind::I8 => 8,
            Kind::U16 | Kind::I16 => 16,
            Kind::U32 | Kind::I32 => 32,
            Kind::U64 | Kind::Usize | Kind::I64 | Kind::Isize => 64,
        }
    }

    fn given(self, operation: Operation) -> usize {
        match operation {
            Operation::ToLeBytes | Operation::ToBeBytes => self.width() as usize / 8,
            _ => 0,
        }
    }

    // The bits of a kind, all ones.
    pub fn ones(self) -> u64
        ensures { 255 ≤ result }
    {
        match self.width() {
            8 => 0xff,
            16 => 0xffff,
            32 => 0xffff_ffff,
            _ => u64::MAX,
        }
    }

    // The bits of -n.
    pub fn minus(self, n: u64) -> u64 {
        let ones = self.ones();
        if 0 < n && n <= ones { ones - n + 1 } else { 0 }
    }

    // The bits of a signed kind's smallest number.
    pub fn smallest(self) -> u64
        ensures { (128 ≤ result) × (result ≤ 9223372036854775808) }
    {
        self.ones() / 2 + 1
    }
}

// ---- what has operations

// The operations of a kind, or another family of them.
#[derive(Clone, Copy, PartialEq, Eq, Debug)]
pub enum Group {
    Integers(Kind),
    Bytes,
    Text,
}

impl fmt::Display for Kind {
    fn fmt<W: fmt::Write>(&self, f: &mut fmt::Formatter<W>) -> fmt::Result {
        Group::Integers(*self).fmt(f)
    }
}

impl Group {
    pub const ALL: [Group; 12] = [
        Group::Integers(Kind::U8),
        Group::Integers(Kind::U16),
        Group::Integers(Kind::U32),
        Group::Integers(Kind::U64),
        Group::Integers(Kind::Usize),
        Group::Integers(Kind::I8),
        Group::Integers(Kind::I16),
        Group::Integers(Kind::I32),
        Group::Integers(Kind::I64),
        Group::Integers(Kind::Isize),
        Group::Bytes,
        Group::Text,
    ];

    pub fn name(self) -> &'static str {
        match self {
            Group::Integers(Kind::U8) => "u8",
            Group::Integers(Kind::U16) => "u16",
            Group::Integers(Kind::U32) => "u32",
            Group::Integers(Kind::U64) => "u64",
            Group::Integers(Kind::Usize) => "usize",
            Group::Integers(Kind::I8) => "i8",
            Group::Integers(Kind::I16) => "i16",
            Group::Integers(Kind::I32) => "i32",
            Group::Integers(Kind::I64) => "i64",
            Group::Integers(Kind::Isize) => "isize",
            Group::Bytes => "bytes",
            Group::Text => "text",
        }
    }

    fn part(self, shape: Shape) -> Option<Part> {
        match shape {
            Shape::Own => self.number(),
            Shape::Other => self.other_number(),
            Shape::Always(part) => Some(part),
        }
    }

    fn number(self) -> Option<Part> {
        match self {
            Group::Integers(kind) => Some(Part::Number(kind)),
            _ => None,
        }
    }

    fn other_number(self) -> Option<Part> {
        match self {
            Group::Integers(kind) => Some(Part::Number(kind.other_sign())),
            _ => None,
        }
    }

    fn given(self, operation: Operation) -> usize {
        match self {
            Group::Integers(kind) => kind.given(operation),
            _ => 0,
        }
    }
}

impl fmt::Display for Group {
    fn fmt<W: fmt::Write>(&self, f: &mut fmt::Formatter<W>) -> fmt::Result {
        f.write_str(self.name())
    }
}

const INTEGERS: [Group; 10] = [
    Group::Integers(Kind::U8),
    Group::Integers(Kind::U16),
    Group::Integers(Kind::U32),
    Group::Integers(Kind::U64),
    Group::Integers(Kind::Usize),
    Group::Integers(Kind::I8),
    Group::Integers(Kind::I16),
    Group::Integers(Kind::I32),
    Group::Integers(Kind::I64),
    Group::Integers(Kind::Isize),
];

const UNSIGNED: [Group; 5] = [
    Group::Integers(Kind::U8),
    Group::Integers(Kind::U16),
    Group::Integers(Kind::U32),
    Group::Integers(Kind::U64),
    Group::Integers(Kind::Usize),
];

const SIGNED: [Group; 5] = [
    Group::Integers(Kind::I8),
    Group::Integers(Kind::I16),
    Group::Integers(Kind::I32),
    Group::Integers(Kind::I64),
    Group::Integers(Kind::Isize),
];

const COUNTED: [Group; 4] = [
    Group::Integers(Kind::U8),
    Group::Integers(Kind::U16),
    Group::Integers(Kind::U32),
    Group::Integers(Kind::U64),
];

const OF_BYTES: [Group; 3] = [
    Group::Integers(Kind::U16),
    Group::Integers(Kind::U32),
    Group::Integers(Kind::U64),
];
// ---- what is taken or answered

// An argument, or a part of an answer.
#[derive(Clone, Copy, PartialEq, Eq, Debug)]
pub enum Part {
    Number(Kind),
    Truth,
    Order,
    Bytes,
}

// The same, where an operation is of several kinds: a number of its own kind, one of the other sign, or what is the same at all.
#[derive(Clone, Copy, PartialEq, Eq, Debug)]
pub enum Shape {
    Own,
    Other,
    Always(Part),
}

const TRUTH: Shape = Shape::Always(Part::Truth);

const ORDER: Shape = Shape::Always(Part::Order);

const BYTES: Shape = Shape::Always(Part::Bytes);

const U8: Shape = Shape::Always(Part::Number(Kind::U8));

const U32: Shape = Shape::Always(Part::Number(Kind::U32));

const USIZE: Shape = Shape::Always(Part::Number(Kind::Usize));

// ---- operations

// Those of integers on numbers alone come first.
#[derive(Clone, Copy, PartialEq, Eq, Debug)]
pub enum Operation {
    WrappingAdd,
    WrappingAddSigned,
    WrappingAddUnsigned,
    WrappingSub,
    WrappingMul,
    WrappingShl,
    WrappingShr,
    CheckedAdd,
    CheckedAddSigned,
    CheckedAddUnsigned,
    CheckedSub,
    CheckedSubUnsigned,
    CheckedMul,
    CheckedNextMultipleOf,
    CheckedDiv,
    CheckedDivEuclid,
    CheckedRem,
    CheckedRemEuclid,
    SaturatingAdd,
    SaturatingSub,
    SaturatingMul,
    IsMultipleOf,
    Clone,
    Eq,
    Ne,
    Lt,
    Le,
    Gt,
    Ge,
    Cmp,
    Compare,
    PartialCmp,
    LeadingZeros,
    LeadingOnes,
    TrailingZeros,
    TrailingOnes,
    FromLeBytes,
    ToLeBytes,
    FromBeBytes,
    ToBeBytes,
    BytesLen,
    BytesIsEmpty,
    BytesGet,
    BytesFirst,
    BytesLast,
    BytesSubRange,
    BytesSplitAt,
    BytesSplitFirst,
    BytesNextPiece,
    BytesStartsWith,
    BytesEndsWith,
    BytesContains,
    BytesEqual,
    BytesSet,
    BytesReverse,
    BytesCopyFrom,
    BytesCopyWithin,
    TextScalarLen,
    TextIsWhiteSpace,
    TextWrite,
    TextReadFirst,
    TextReadLast,
    TextValid,
    TextCount,
    TextIsBoundary,
    TextSplitAt,
    TextIsAscii,
    TextValidUpTo,
    ReadDecimal,
    WriteDecimal,
}

impl Operation {
    pub const ALL: [Operation; 70] = [
        Operation::WrappingAdd,
        Operation::WrappingAddSigned,
        Operation::WrappingAddUnsigned,
        Operation::WrappingSub,
        Operation::WrappingMul,
        Operation::WrappingShl,
        Operation::WrappingShr,
        Operation::CheckedAdd,
        Operation::CheckedAddSigned,
        Operation::CheckedAddUnsigned,
        Operation::CheckedSub,
        Operation::CheckedSubUnsigned,
        Operation::CheckedMul,
        Operation::CheckedNextMultipleOf,
        Operation::CheckedDiv,
        Operation::CheckedDivEuclid,
        Operation::CheckedRem,
        Operation::CheckedRemEuclid,
        Operation::SaturatingAdd,
        Operation::SaturatingSub,
        Operation::SaturatingMul,
        Operation::IsMultipleOf,
        Operation::Clone,
        Operation::Eq,
        Operation::Ne,
        Operation::Lt,
        Operation::Le,
        Operation::Gt,
        Operation::Ge,
        Operation::Cmp,
        Operation::Compare,
        Operation::PartialCmp,
        Operation::LeadingZeros,
        Operation::LeadingOnes,
        Operation::TrailingZeros,
        Operation::TrailingOnes,
        Operation::FromLeBytes,
        Operation::ToLeBytes,
        Operation::FromBeBytes,
        Operation::ToBeBytes,
        Operation::BytesLen,
        Operation::BytesIsEmpty,
        Operation::BytesGet,
        Operation::BytesFirst,
        Operation::BytesLast,
        Operation::BytesSubRange,
        Operation::BytesSplitAt,
        Operation::BytesSplitFirst,
        Operation::BytesNextPiece,
        Operation::BytesStartsWith,
        Operation::BytesEndsWith,
        Operation::BytesContains,
        Operation::BytesEqual,
        Operation::BytesSet,
        Operation::BytesReverse,
        Operation::BytesCopyFrom,
        Operation::BytesCopyWithin,
        Operation::TextScalarLen,
        Operation::TextIsWhiteSpace,
        Operation::TextWrite,
        Operation::TextReadFirst,
        Operation::TextReadLast,
        Operation::TextValid,
        Operation::TextCount,
        Operation::TextIsBoundary,
        Operation::TextSplitAt,
        Operation::TextIsAscii,
        Operation::TextValidUpTo,
        Operation::ReadDecimal,
        Operation::WriteDecimal,
    ];

    // Those of integers on numbers alone.
    pub const ON_NUMBERS: [Operation; 36] = [
        Operation::WrappingAdd,
        Operation::WrappingAddSigned,
        Operation::WrappingAddUnsigned,
        Operation::WrappingSub,
        Operation::WrappingMul,
        Operation::WrappingShl,
        Operation::WrappingShr,
        Operation::CheckedAdd,
        Operation::CheckedAddSigned,
        Operation::CheckedAddUnsigned,
        Operation::CheckedSub,
        Operation::CheckedSubUnsigned,
        Operation::CheckedMul,
        Operation::CheckedNextMultipleOf,
        Operation::CheckedDiv,
        Operation::CheckedDivEuclid,
        Operation::CheckedRem,
        Operation::CheckedRemEuclid,
        Operation::SaturatingAdd,
        Operation::SaturatingSub,
        Operation::SaturatingMul,
        Operation::IsMultipleOf,
        Operation::Clone,
        Operation::Eq,
        Operation::Ne,
        Operation::Lt,
        Operation::Le,
        Operation::Gt,
        Operation::Ge,
        Operation::Cmp,
        Operation::Compare,
        Operation::PartialCmp,
        Operation::LeadingZeros,
        Operation::LeadingOnes,
        Operation::TrailingZeros,
        Operation::TrailingOnes,
    ];

    pub fn is_on_numbers(self) -> bool {
        Operation::ON_NUMBERS.contains(&self)
    }

    // Several may share a name, of different groups.
    pub fn name(self) -> &'static str {
        match self {
            Operation::WrappingAdd => "wrapping_add",
            Operation::WrappingAddSigned => "wrapping_add_signed",
            Operation::WrappingAddUnsigned => "wrapping_add_unsigned",
            Operation::WrappingSub => "wrapping_sub",
            Operation::WrappingMul => "wrapping_mul",
            Operation::WrappingShl => "wrapping_shl",
            Operation::WrappingShr => "wrapping_shr",
            Operation::CheckedAdd => "checked_add",
            Operation::CheckedAddSigned => "checked_add_signed",
            Operation::CheckedAddUnsigned => "checked_add_unsigned",
            Operation::CheckedSub => "checked_sub",
            Operation::CheckedSubUnsigned => "checked_sub_unsigned",
            Operation::CheckedMul => "checked_mul",
            Operation::CheckedNextMultipleOf => "checked_next_multiple_of",
            Operation::CheckedDiv => "checked_div",
            Operation::CheckedDivEuclid => "checked_div_euclid",
            Operation::CheckedRem => "checked_rem",
            Operation::CheckedRemEuclid => "checked_rem_euclid",
            Operation::SaturatingAdd => "saturating_add",
            Operation::SaturatingSub => "saturating_sub",
            Operation::SaturatingMul => "saturating_mul",
            Operation::IsMultipleOf => "is_multiple_of",
            Operation::Clone => "clone",
            Operation::Eq => "eq",
            Operation::Ne => "ne",
            Operation::Lt => "lt",
            Operation::Le => "le",
            Operation::Gt => "gt",
            Operation::Ge => "ge",
            Operation::Cmp => "cmp",
            Operation::Compare => "compare",
            Operation::PartialCmp => "partial_cmp",
            Operation::LeadingZeros => "leading_zeros",
            Operation::LeadingOnes => "leading_ones",
            Operation::TrailingZeros => "trailing_zeros",
            Operation::TrailingOnes => "trailing_ones",
            Operation::FromLeBytes => "from_le_bytes",
            Operation::ToLeBytes => "to_le_bytes",
            Operation::FromBeBytes => "from_be_bytes",
            Operation::ToBeBytes => "to_be_bytes",
            Operation::BytesLen => "len",
            Operation::BytesIsEmpty => "is_empty",
            Operation::BytesGet => "get",
            Operation::BytesFirst => "first",
            Operation::BytesLast => "last",
            Operation::BytesSubRange => "sub_range",
            Operation::BytesSplitAt | Operation::TextSplitAt => "split_at",
            Operation::BytesSplitFirst => "split_first",
            Operation::BytesNextPiece => "next_piece",
            Operation::BytesStartsWith => "starts_with",
            Operation::BytesEndsWith => "ends_with",
            Operation::BytesContains => "contains",
            Operation::BytesEqual => "equal",
            Operation::BytesSet => "set",
            Operation::BytesReverse => "reverse",
            Operation::BytesCopyFrom => "copy_from",
            Operation::BytesCopyWithin => "copy_within",
            Operation::TextScalarLen => "scalar_len",
            Operation::TextIsWhiteSpace => "is_white_space",
            Operation::TextWrite => "write",
            Operation::TextReadFirst => "read_first",
            Operation::TextReadLast => "read_last",
            Operation::TextValid => "valid",
            Operation::TextCount => "count",
            Operation::TextIsBoundary => "is_boundary",
            Operation::TextIsAscii => "is_ascii",
            Operation::TextValidUpTo => "valid_up_to",
            Operation::ReadDecimal => "read_decimal",
            Operation::WriteDecimal => "write_decimal",
        }
    }

    pub fn takes(self) -> &'static [Shape] {
        match self {
            Operation::WrappingAdd
            | Operation::WrappingSub
            | Operation::WrappingMul
            | Operation::CheckedAdd
            | Operation::CheckedSub
            | Operation::CheckedMul
            | Operation::CheckedNextMultipleOf
            | Operation::CheckedDiv
            | Operation::CheckedDivEuclid
            | Operation::CheckedRem
            | Operation::CheckedRemEuclid
            | Operation::SaturatingAdd
            | Operation::SaturatingSub
            | Operation::SaturatingMul
            | Operation::IsMultipleOf
            | Operation::Eq
            | Operation::Ne
            | Operation::Lt
            | Operation::Le
            | Operation::Gt
            | Operation::Ge
            | Operation::Cmp
            | Operation::Compare
            | Operation::PartialCmp => &[Shape::Own, Shape::Own],
            Operation::WrappingAddSigned
            | Operation::WrappingAddUnsigned
            | Operation::CheckedAddSigned
            | Operation::CheckedAddUnsigned
            | Operation::CheckedSubUnsigned => &[Shape::Own, Shape::Other],
            Operation::WrappingShl | Operation::WrappingShr => &[Shape::Own, U32],
            Operation::Clone
            | Operation::LeadingZeros
            | Operation::LeadingOnes
            | Operation::TrailingZeros
            | Operation::TrailingOnes
            | Operation::ToLeBytes
            | Operation::ToBeBytes => &[Shape::Own],
            Operation::FromLeBytes
            | Operation::FromBeBytes
            | Operation::TextValid
            | Operation::TextCount
            | Operation::TextIsAscii
            | Operation::TextValidUpTo => &[BYTES],
            Operation::BytesLen
            | Operation::BytesIsEmpty
            | Operation::BytesFirst
            | Operation::BytesLast
            | Operation::BytesSplitFirst
            | Operation::BytesReverse
            | Operation::TextReadFirst
            | Operation::TextReadLast
            | Operation::ReadDecimal => &[BYTES, USIZE, USIZE],
            Operation::BytesGet
            | Operation::BytesSplitAt
            | Operation::BytesNextPiece
            | Operation::BytesCopyWithin => &[BYTES, USIZE, USIZE, USIZE],
            Operation::BytesSubRange => &[BYTES, USIZE, USIZE, USIZE, USIZE],
            Operation::BytesStartsWith
            | Operation::BytesEndsWith
            | Operation::BytesEqual
            | Operation::BytesCopyFrom => &[BYTES, USIZE, USIZE, BYTES],
            Operation::BytesContains => &[BYTES, USIZE, USIZE, U8],
            Operation::BytesSet => &[BYTES, USIZE, USIZE, USIZE, U8],
            Operation::TextScalarLen | Operation::TextIsWhiteSpace => &[U32],
            Operation::TextWrite => &[BYTES, USIZE, U32],
            Operation::TextIsBoundary | Operation::TextSplitAt => &[BYTES, USIZE],
            Operation::WriteDecimal => &[BYTES, USIZE, Shape::Own],
        }
    }

    pub fn says(self) -> &'static [Shape] {
        match self {
            Operation::WrappingAdd
            | Operation::WrappingAddSigned
            | Operation::WrappingAddUnsigned
            | Operation::WrappingSub
            | Operation::WrappingMul
            | Operation::WrappingShl
            | Operation::WrappingShr
            | Operation::CheckedAdd
            | Operation::CheckedAddSigned
            | Operation::CheckedAddUnsigned
            | Operation::CheckedSub
            | Operation::CheckedSubUnsigned
            | Operation::CheckedMul
            | Operation::CheckedNextMultipleOf
            | Operation::CheckedDiv
            | Operation::CheckedDivEuclid
            | Operation::CheckedRem
            | Operation::CheckedRemEuclid
            | Operation::SaturatingAdd
            | Operation::SaturatingSub
            | Operation::SaturatingMul
            | Operation::Clone
            | Operation::FromLeBytes
            | Operation::FromBeBytes
            | Operation::ReadDecimal => &[Shape::Own],
            Operation::IsMultipleOf
            | Operation::Eq
            | Operation::Ne
            | Operation::Lt
            | Operation::Le
            | Operation::Gt
            | Operation::Ge
            | Operation::BytesIsEmpty
            | Operation::BytesStartsWith
            | Operation::BytesEndsWith
            | Operation::BytesContains
            | Operation::BytesEqual
            | Operation::TextIsWhiteSpace
            | Operation::TextValid
            | Operation::TextIsBoundary
            | Operation::TextIsAscii => &[TRUTH],
            Operation::Cmp | Operation::Compare | Operation::PartialCmp => &[ORDER],
            Operation::LeadingZeros
            | Operation::LeadingOnes
            | Operation::TrailingZeros
            | Operation::TrailingOnes => &[U32],
            Operation::ToLeBytes
            | Operation::ToBeBytes
            | Operation::BytesSet
            | Operation::BytesReverse
            | Operation::BytesCopyFrom
            | Operation::BytesCopyWithin
            | Operation::TextWrite => &[BYTES],
            Operation::BytesLen
            | Operation::TextScalarLen
            | Operation::TextCount
            | Operation::TextValidUpTo => &[USIZE],
            Operation::BytesGet | Operation::BytesFirst | Operation::BytesLast => &[U8],
            Operation::BytesSubRange | Operation::BytesNextPiece => &[USIZE, USIZE],
            Operation::BytesSplitAt | Operation::TextSplitAt => &[USIZE, USIZE, USIZE],
            Operation::BytesSplitFirst => &[U8, USIZE, USIZE],
            Operation::TextReadFirst | Operation::TextReadLast => &[U32, USIZE],
            Operation::WriteDecimal => &[BYTES, USIZE],
        }
    }

    fn owners(self) -> &'static [Group] {
        match self {
            Operation::WrappingAdd
            | Operation::WrappingSub
            | Operation::WrappingMul
            | Operation::WrappingShl
            | Operation::WrappingShr
            | Operation::CheckedAdd
            | Operation::CheckedSub
            | Operation::CheckedMul
            | Operation::CheckedDiv
            | Operation::CheckedDivEuclid
            | Operation::CheckedRem
            | Operation::CheckedRemEuclid
            | Operation::Clone
            | Operation::Eq
            | Operation::Ne
            | Operation::Lt
            | Operation::Le
            | Operation::Gt
            | Operation::Ge
            | Operation::Cmp
            | Operation::Compare
            | Operation::PartialCmp
            | Operation::ReadDecimal
            | Operation::WriteDecimal => &INTEGERS,
            Operation::WrappingAddSigned
            | Operation::CheckedAddSigned
            | Operation::CheckedNextMultipleOf
            | Operation::SaturatingAdd
            | Operation::SaturatingSub
            | Operation::SaturatingMul
            | Operation::IsMultipleOf => &UNSIGNED,
            Operation::WrappingAddUnsigned
            | Operation::CheckedAddUnsigned
            | Operation::CheckedSubUnsigned => &SIGNED,
            Operation::LeadingZeros
            | Operation::LeadingOnes
            | Operation::TrailingZeros
            | Operation::TrailingOnes => &COUNTED,
            Operation::FromLeBytes
            | Operation::ToLeBytes
            | Operation::FromBeBytes
            | Operation::ToBeBytes => &OF_BYTES,
            Operation::BytesLen
            | Operation::BytesIsEmpty
            | Operation::BytesGet
            | Operation::BytesFirst
            | Operation::BytesLast
            | Operation::BytesSubRange
            | Operation::BytesSplitAt
            | Operation::BytesSplitFirst
            | Operation::BytesNextPiece
            | Operation::BytesStartsWith
            | Operation::BytesEndsWith
            | Operation::BytesContains
            | Operation::BytesEqual
            | Operation::BytesSet
            | Operation::BytesReverse
            | Operation::BytesCopyFrom
            | Operation::BytesCopyWithin => &[Group::Bytes],
            Operation::TextScalarLen
            | Operation::TextIsWhiteSpace
            | Operation::TextWrite
            | Operation::TextReadFirst
            | Operation::TextReadLast
            | Operation::TextValid
            | Operation::TextCount
            | Operation::TextIsBoundary
            | Operation::TextSplitAt
            | Operation::TextIsAscii
            | Operation::TextValidUpTo => &[Group::Text],
        }
    }

    // How it is run.
    pub fn form(self) -> Form {
        match self {
            Operation::WrappingAdd
            | Operation::WrappingSub
            | Operation::WrappingMul
            | Operation::SaturatingAdd
            | Operation::SaturatingSub
            | Operation::SaturatingMul => Form::NumberOfNumberNumber,
            Operation::WrappingAddSigned | Operation::WrappingAddUnsigned =>
                Form::NumberOfNumberOther,
            Operation::WrappingShl | Operation::WrappingShr => Form::NumberOfNumberU32,
            Operation::CheckedAdd
            | Operation::CheckedSub
            | Operation::CheckedMul
            | Operation::CheckedNextMultipleOf
            | Operation::CheckedDiv
            | Operation::CheckedDivEuclid
            | Operation::CheckedRem
            | Operation::CheckedRemEuclid => Form::CheckedOfNumberNumber,
            Operation::CheckedAddSigned
            | Operation::CheckedAddUnsigned
            | Operation::CheckedSubUnsigned => Form::CheckedOfNumberOther,
            Operation::IsMultipleOf
            | Operation::Eq
            | Operation::Ne
            | Operation::Lt
            | Operation::Le
            | Operation::Gt
            | Operation::Ge => Form::TestOfNumberNumber,
            Operation::Clone => Form::NumberOfNumber,
            Operation::Cmp | Operation::Compare => Form::OrderOfNumberNumber,
            Operation::PartialCmp => Form::PartialOrderingOfNumberNumber,
            Operation::LeadingZeros
            | Operation::LeadingOnes
            | Operation::TrailingZeros
            | Operation::TrailingOnes => Form::U32OfNumber,
            Operation::FromLeBytes
            | Operation::FromBeBytes
            | Operation::TextValid
            | Operation::TextCount
            | Operation::TextIsAscii
            | Operation::TextValidUpTo => Form::ReadingBytes,
            Operation::ToLeBytes | Operation::ToBeBytes => Form::WritingNumber,
            Operation::BytesLen
            | Operation::BytesIsEmpty
            | Operation::BytesFirst
            | Operation::BytesLast
            | Operation::BytesSplitFirst
            | Operation::TextReadFirst
            | Operation::TextReadLast
            | Operation::ReadDecimal => Form::ReadingBytesPlacePlace,
            Operation::BytesGet | Operation::BytesSplitAt | Operation::BytesNextPiece =>
                Form::ReadingBytesPlacePlacePlace,
            Operation::BytesSubRange => Form::ReadingBytesPlacePlacePlacePlace,
            Operation::BytesStartsWith | Operation::BytesEndsWith | Operation::BytesEqual =>
                Form::ReadingBytesPlacePlaceBytes,
            Operation::BytesContains => Form::ReadingBytesPlacePlaceByte,
            Operation::BytesSet => Form::WritingBytesPlacePlacePlaceByte,
            Operation::BytesReverse => Form::WritingBytesPlacePlace,
            Operation::BytesCopyFrom => Form::WritingBytesPlacePlaceBytes,
            Operation::BytesCopyWithin => Form::WritingBytesPlacePlacePlace,
            Operation::TextScalarLen | Operation::TextIsWhiteSpace => Form::ReadingU32,
            Operation::TextWrite => Form::WritingBytesPlaceU32,
            Operation::TextIsBoundary | Operation::TextSplitAt => Form::ReadingBytesPlace,
            Operation::WriteDecimal => Form::WritingBytesPlaceNumber,
        }
    }
}

// The ways to run one: those of a form take the same, and on numbers alone give the same.
#[derive(Clone, Copy, PartialEq, Eq, Debug)]
pub enum Form {
    NumberOfNumberNumber,
    NumberOfNumberOther,
    NumberOfNumberU32,
    CheckedOfNumberNumber,
    CheckedOfNumberOther,
    TestOfNumberNumber,
    NumberOfNumber,
    OrderOfNumberNumber,
    PartialOrderingOfNumberNumber,
    U32OfNumber,
    ReadingBytes,
    WritingNumber,
    ReadingBytesPlacePlace,
    ReadingBytesPlacePlacePlace,
    ReadingBytesPlacePlacePlacePlace,
    ReadingBytesPlacePlaceBytes,
    ReadingBytesPlacePlaceByte,
    WritingBytesPlacePlacePlaceByte,
    WritingBytesPlacePlace,
    WritingBytesPlacePlaceBytes,
    WritingBytesPlacePlacePlace,
    ReadingU32,
    WritingBytesPlaceU32,
    ReadingBytesPlace,
    WritingBytesPlaceNumber,
}

// ---- an operation of a group

#[derive(Clone, Copy, PartialEq, Eq, Debug)]
pub struct Name {
    pub group: Group,
    pub operation: Operation,
}

impl Name {
    pub fn of(kind: Kind, operation: Operation) -> Name {
        Name {
            group: Group::Integers(kind),
            operation,
        }
    }

    // Whether the group has the operation.
    pub fn is_there(self) -> bool {
        self.operation.owners().contains(&self.group)
    }

    // What an argument is by its place, if there is one.
    pub fn takes(self, place: usize) -> Option<Part> {
        self.group.part(*self.operation.takes().get(place)?)
    }

    // What a part of the answer is by its place, if there is one.
    pub fn says(self, place: usize) -> Option<Part> {
        self.group.part(*self.operation.says().get(place)?)
    }

    // How many bytes are handed over, in a slice that the question does not have.
    pub fn given(self) -> usize {
        self.group.given(self.operation)
    }
}

// `u8.wrapping_add`
impl fmt::Display for Name {
    fn fmt<W: fmt::Write>(&self, f: &mut fmt::Formatter<W>) -> fmt::Result {
        write!(f, "{}.{}", self.group, self.operation.name())
    }
}

// ---- arguments and answers

// The numbers among the arguments, by their bits.
pub type Numbers = [u64; 4];

// The parts of an answer by their bits. A truth is 0 or 1, a comparison one of the three below; of bytes nothing stands here.
pub type Parts = [u64; 4];

pub const LESS: u64 = 0;

pub const EQUAL: u64 = 1;

pub const GREATER: u64 = 2;

// The parts of an answer with a flag. A refusal has 0 in each; one that had not would be told as an answer, and seen by whoever compares.
pub fn told(ok: bool, parts: Parts) -> Option<Parts> {
    (ok || parts != [0; 4]).then_some(parts)
}

// An answer of one part.
pub fn found(first: u64) -> Option<Parts> {
    Some([first, 0, 0, 0])
}

pub fn bit(yes: bool) -> u64 {
    if yes { 1 } else { 0 }
}

// What a comparison's number says; no other number is one.
pub fn order(number: i8) -> Option<Parts> {
    match number {
        -1 => found(LESS),
        0 => found(EQUAL),
        1 => found(GREATER),
        _ => None,
    }
}

// ---- cut down

// The lowest bits of a number.
pub fn low8(n: u64) -> u8 {
    (n % 256) as u8
}

pub fn low16(n: u64) -> u16 {
    (n % 65536) as u16
}

pub fn low32(n: u64) -> u32 {
    (n % 4294967296) as u32
}
