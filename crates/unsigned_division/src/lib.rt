// Unsigned integers: quotients, remainders and multiples (theory_whole). No function asks anything of its caller.
#![tactic(auto)]

ghost use Rattle.std.specs.Prelude.{◌≡◌, not, pos};
ghost use Rattle.std.specs.Option.{option_map};
ghost use Rattle.std.specs.Int.Signed.{quot_z, rem_z};
ghost use Rattle.theory_whole.specs.Kind.{unsigned};
ghost use Rattle.theory_whole.specs.Division.{ediv, emod};
ghost use Rattle.theory_whole.specs.Order.{eq_z};
ghost use Rattle.theory_answers.specs.Answer.{only_if};
ghost use Rattle.theory_whole.specs.Fit.{refuse, divided};
ghost use Rattle.theory_whole.specs.Multiple.{is_multiple, next_multiple};

use integers::Unsigned;

// ---- quotients and remainders

pub fn checked_div<T: Unsigned>(a: T, b: T) -> Option<T>
    ensures { option_map (λ r. pos (T.whole r)) result
        ≡ divided (unsigned T.bits) (pos (T.whole b)) (quot_z (pos (T.whole a)) (pos (T.whole b))) (quot_z (pos (T.whole a)) (pos (T.whole b))) }
{
    a.known();
    if b == T::ZERO { None } else { Some(a / b) }
}

pub fn checked_rem<T: Unsigned>(a: T, b: T) -> Option<T>
    ensures { option_map (λ r. pos (T.whole r)) result
        ≡ divided (unsigned T.bits) (pos (T.whole b)) (quot_z (pos (T.whole a)) (pos (T.whole b))) (rem_z (pos (T.whole a)) (pos (T.whole b))) }
{
    a.known();
    if b == T::ZERO { None } else { Some(a % b) }
}

pub fn checked_div_euclid<T: Unsigned>(a: T, b: T) -> Option<T>
    ensures { option_map (λ r. pos (T.whole r)) result
        ≡ divided (unsigned T.bits) (pos (T.whole b)) (ediv (pos (T.whole a)) (pos (T.whole b))) (ediv (pos (T.whole a)) (pos (T.whole b))) }
{
    checked_div(a, b)
}

pub fn checked_rem_euclid<T: Unsigned>(a: T, b: T) -> Option<T>
    ensures { option_map (λ r. pos (T.whole r)) result
        ≡ divided (unsigned T.bits) (pos (T.whole b)) (ediv (pos (T.whole a)) (pos (T.whole b))) (emod (pos (T.whole a)) (pos (T.whole b))) }
{
    checked_rem(a, b)
}

// ---- multiples

pub fn checked_next_multiple_of<T: Unsigned>(a: T, b: T) -> Option<T>
    ensures { option_map (λ r. pos (T.whole r)) result
        ≡ only_if (not (eq_z (pos (T.whole b)) (pos 0))) (refuse (unsigned T.bits) (pos (next_multiple (T.whole a) (T.whole b)))) }
{
    if b == T::ZERO {
        return None;
    }
    a.known();
    let past = a % b;
    if past == T::ZERO {
        Some(a)
    } else {
        unsigned_sums::checked_add(a, b - past)
    }
}

pub fn is_multiple_of<T: Unsigned>(a: T, b: T) -> bool
    ensures { result ≡ is_multiple (T.whole a) (T.whole b) }
{
    if b == T::ZERO {
        a == T::ZERO
    } else {
        a % b == T::ZERO
    }
}
