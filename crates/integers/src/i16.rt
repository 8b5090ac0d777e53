// The signed integers of 16 bits.

ghost use Rattle.std.specs.Prelude.{◌^◌, pos, negsuc, ◌≡◌, ◌+ℤ◌, ◌-ℤ◌, ◌*ℤ◌};
ghost use Rattle.std.specs.Int.{w16};
ghost use Rattle.std.proofs.Common.{refl};
ghost use Rattle.integers.specs.Tests.{whole_equal, whole_less, whole_at_most};
ghost use Rattle.integers.specs.Signs.{allowed, divides, shifted_left, shifted_right};

use crate::signed::Signed;

impl Signed for i16 {
    type Unsigned = u16;

    ghost whole = { λ a. a };

    const ZERO: i16 = 0;

    ghost ZERO = { pos 0 };

    const ONE: i16 = 1;

    ghost ONE = { pos 1 };

    const MINUS_ONE: i16 = -1;

    ghost MINUS_ONE = { negsuc 0 };

    const MIN: i16 = i16::MIN;

    ghost MIN = { negsuc 32767 };

    fn known(self) {}

    fn bits(self) -> u16 {
        if self < 0 {
            !((!self) as u16)
        } else {
            self as u16
        }
    }

    fn of_bits(bits: u16) -> i16 {
        if bits < 32768 {
            bits as i16
        } else {
            !((!bits) as i16)
        }
    }

    ghost zero_law = { refl };

    ghost one_law = { refl };

    ghost minus_one_law = { refl };

    ghost min_law = { refl };

    ghost eq_law = { whole_equal };

    ghost lt_law = { whole_less };

    ghost le_law = { whole_at_most };

    ghost can_add_law = { λ a b f. allowed w16 f };

    ghost add_law = { λ a b r h. h };

    ghost can_sub_law = { λ a b f. allowed w16 f };

    ghost sub_law = { λ a b r h. h };

    ghost can_mul_law = { λ a b f. allowed w16 f };

    ghost mul_law = { λ a b r h. h };

    ghost can_div_law = { λ a b f n q. divides w16 a b f n q };

    ghost div_law = { λ a b r h. h };

    ghost can_rem_law = { λ a b f n q. divides w16 a b f n q };

    ghost rem_law = { λ a b r h. h };

    ghost can_shl_law = { λ a k h. h };

    ghost shl_law = { λ a k r f h. shifted_left w16 a (2 ^ k) f h };

    ghost can_shr_law = { λ a k h. h };

    ghost shr_law = { λ a k r h. shifted_right a k h };
}
