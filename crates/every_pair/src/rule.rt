// What each operation on integers of 8 bits answers: the whole number, and how it is made to fit a byte.
ghost use Rattle.std.specs.Prelude.{◌≤◌};

use crate::whole::{
    Whole, difference, euclidean_quotient, euclidean_remainder, next_multiple, number, power,
    product, quotient, remainder, sum,
};
use numbered::{Kind, Name, Operation, Part, Parts};

pub fn answer(kind: Kind, operation: Operation, first: u64, second: u64) -> Option<Parts> {
    let signed = kind.is_signed();
    let second_signed = is_signed(Name::of(kind, operation).takes(1));
    let a = number(signed, first);
    let b = number(second_signed, second);
    match operation {
        Operation::Clone => numbered::found(wrapped(a)),
        Operation::IsMultipleOf => multiple(a, b),
        Operation::LeadingZeros
        | Operation::LeadingOnes
        | Operation::TrailingZeros
        | Operation::TrailingOnes => numbered::found(count(operation, a.size)),
        Operation::Eq
        | Operation::Ne
        | Operation::Lt
        | Operation::Le
        | Operation::Gt
        | Operation::Ge => {
            numbered::found(numbered::bit(test(operation, order(difference(a, b)))))
        }
        Operation::Cmp | Operation::Compare | Operation::PartialCmp => {
            numbered::found(order(difference(a, b)))
        }
        _ => arithmetic(signed, operation, a, b),
    }
}

fn is_signed(part: Option<Part>) -> bool {
    match part {
        Some(Part::Number(kind)) => kind.is_signed(),
        _ => false,
    }
}

fn arithmetic(signed: bool, operation: Operation, a: Whole, b: Whole) -> Option<Parts> {
    match operation {
        Operation::WrappingAdd
        | Operation::WrappingAddSigned
        | Operation::WrappingAddUnsigned
        | Operation::WrappingSub
        | Operation::WrappingMul
        | Operation::WrappingShl
        | Operation::WrappingShr => numbered::found(wrapped(exact(operation, a, b))),
        Operation::CheckedAdd
        | Operation::CheckedAddSigned
        | Operation::CheckedAddUnsigned
        | Operation::CheckedSub
        | Operation::CheckedSubUnsigned
        | Operation::CheckedMul => refused_or(signed, exact(operation, a, b)),
        Operation::SaturatingAdd | Operation::SaturatingSub | Operation::SaturatingMul => {
            numbered::found(clamped(exact(operation, a, b)))
        }
        _ => division(signed, operation, a, b),
    }
}

fn exact(operation: Operation, a: Whole, b: Whole) -> Whole {
    match operation {
        Operation::WrappingSub
        | Operation::CheckedSub
        | Operation::CheckedSubUnsigned
        | Operation::SaturatingSub => difference(a, b),
        Operation::WrappingMul | Operation::CheckedMul | Operation::SaturatingMul => product(a, b),
        Operation::WrappingShl => product(a, power(b.size)),
        Operation::WrappingShr => euclidean_quotient(a, power(b.size)),
        _ => sum(a, b),
    }
}

fn division(signed: bool, operation: Operation, a: Whole, b: Whole) -> Option<Parts> {
    if b.size == 0 {
        return None;
    }
    match operation {
        Operation::CheckedDiv => refused_or(signed, quotient(a, b)),
        Operation::CheckedRem => remaining(signed, quotient(a, b), remainder(a, b)),
        Operation::CheckedDivEuclid => refused_or(signed, euclidean_quotient(a, b)),
        Operation::CheckedRemEuclid => euclidean_remaining(signed, a, b),
        Operation::CheckedNextMultipleOf => refused_or(signed, next_multiple(a, b)),
        _ => None,
    }
}

// A remainder is refused where its quotient does not fit.
fn remaining(signed: bool, quotient: Whole, remainder: Whole) -> Option<Parts> {
    if fits(signed, quotient) {
        refused_or(signed, remainder)
    } else {
        None
    }
}

fn euclidean_remaining(signed: bool, a: Whole, b: Whole) -> Option<Parts> {
    remaining(signed, euclidean_quotient(a, b), euclidean_remainder(a, b))
}

// Only 0 is a multiple of 0.
fn multiple(a: Whole, b: Whole) -> Option<Parts> {
    if b.size == 0 {
        numbered::found(numbered::bit(a.size == 0))
    } else {
        numbered::found(numbered::bit(a.size % b.size == 0))
    }
}

// ---- comparing

fn order(difference: Whole) -> u64 {
    if difference.size == 0 {
        numbered::EQUAL
    } else if difference.negative {
        numbered::LESS
    } else {
        numbered::GREATER
    }
}

fn test(operation: Operation, order: u64) -> bool {
    match operation {
        Operation::Eq => order == numbered::EQUAL,
        Operation::Ne => order != numbered::EQUAL,
        Operation::Lt => order == numbered::LESS,
        Operation::Le => order != numbered::GREATER,
        Operation::Gt => order == numbered::GREATER,
        _ => order != numbered::LESS,
    }
}

// ---- zeros and ones of a byte

fn count(operation: Operation, byte: u64) -> u64 {
    let n = byte % 256;
    match operation {
        Operation::LeadingZeros => zeros_in_front(n),
        Operation::LeadingOnes => zeros_in_front(255 - n),
        Operation::TrailingZeros => zeros_at_the_end(n),
        _ => zeros_at_the_end(255 - n),
    }
}

fn zeros_in_front(n: u64) -> u64 {
    match n {
        0 => 8,
        1 => 7,
        2..=3 => 6,
        4..=7 => 5,
        8..=15 => 4,
        16..=31 => 3,
        32..=63 => 2,
        64..=127 => 1,
        _ => 0,
    }
}

// A number that 2^k divides and 2^(k + 1) does not has k zeros at the end.
fn zeros_at_the_end(n: u64) -> u64 {
    let low = n % 16;
    if low == 0 {
        4 + of_half(n / 16 % 16)
    } else {
        of_half(low)
    }
}

fn of_half(n: u64) -> u64
    ensures { result ≤ 4 }
{
    match n {
        0 => 4,
        8 => 3,
        4 | 12 => 2,
        2 | 6 | 10 | 14 => 1,
        _ => 0,
    }
}

// ---- fitting into a byte

fn fits(signed: bool, a: Whole) -> bool {
    match (signed, a.negative) {
        (true, true) => a.size <= 128,
        (true, false) => a.size <= 127,
        (false, true) => a.size == 0,
        (false, false) => a.size <= 255,
    }
}

fn wrapped(a: Whole) -> u64 {
    let low = a.size % 256;
    if a.negative && 0 < low {
        256 - low
    } else {
        low
    }
}

fn refused_or(signed: bool, a: Whole) -> Option<Parts> {
    fits(signed, a).then_some([wrapped(a), 0, 0, 0])
}

// The nearest unsigned number.
fn clamped(a: Whole) -> u64 {
    if fits(false, a) {
        wrapped(a)
    } else if a.negative {
        0
    } else {
        255
    }
}
