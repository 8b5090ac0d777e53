// The signed integers of 64 bits.

ghost use Rattle.std.specs.Prelude.{◌^◌, pos, negsuc, ◌≡◌, ◌+ℤ◌, ◌-ℤ◌, ◌*ℤ◌};
ghost use Rattle.std.specs.Int.{w64};
ghost use Rattle.std.proofs.Common.{refl};
ghost use Rattle.integers.specs.Tests.{whole_equal, whole_less, whole_at_most};
ghost use Rattle.integers.specs.Signs.{allowed, divides, shifted_left, shifted_right};

use crate::signed::Signed;

impl Signed for isize {
    type Unsigned = usize;

    ghost whole = { λ a. a };

    const ZERO: isize = 0;

    ghost ZERO = { pos 0 };

    const ONE: isize = 1;

    ghost ONE = { pos 1 };

    const MINUS_ONE: isize = -1;

    ghost MINUS_ONE = { negsuc 0 };

    const MIN: isize = isize::MIN;

    ghost MIN = { negsuc 9223372036854775807 };

    fn known(self) {}

    fn bits(self) -> usize {
        if self < 0 {
            !((!self) as usize)
        } else {
            self as usize
        }
    }

    fn of_bits(bits: usize) -> isize {
        if bits < 9223372036854775808 {
            bits as isize
        } else {
            !((!bits) as isize)
        }
    }

    ghost zero_law = { refl };

    ghost one_law = { refl };

    ghost minus_one_law = { refl };

    ghost min_law = { refl };

    ghost eq_law = { whole_equal };

    ghost lt_law = { whole_less };

    ghost le_law = { whole_at_most };

    ghost can_add_law = { λ a b f. allowed w64 f };

    ghost add_law = { λ a b r h. h };

    ghost can_sub_law = { λ a b f. allowed w64 f };

    ghost sub_law = { λ a b r h. h };

    ghost can_mul_law = { λ a b f. allowed w64 f };

    ghost mul_law = { λ a b r h. h };

    ghost can_div_law = { λ a b f n q. divides w64 a b f n q };

    ghost div_law = { λ a b r h. h };

    ghost can_rem_law = { λ a b f n q. divides w64 a b f n q };

    ghost rem_law = { λ a b r h. h };

    ghost can_shl_law = { λ a k h. h };

    ghost shl_law = { λ a k r f h. shifted_left w64 a (2 ^ k) f h };

    ghost can_shr_law = { λ a k h. h };

    ghost shr_law = { λ a k r h. shifted_right a k h };
}
