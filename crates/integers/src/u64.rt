// The unsigned integers of 64 bits.

ghost use Rattle.std.specs.Prelude.{◌+◌, ◌*◌, ◌/◌, ◌%◌, ◌^◌};
ghost use Rattle.std.proofs.Common.{refl, lit<, lit≤};
ghost use Rattle.integers.specs.Tests.{natural_equal, natural_less, natural_at_most};

use crate::unsigned::Unsigned;

impl Unsigned for u64 {
    ghost bits = { 64 };

    ghost whole = { λ a. a };

    const BITS: u32 = 64;

    ghost BITS = { 64 };

    const ZERO: u64 = 0;

    ghost ZERO = { 0 };

    const ONE: u64 = 1;

    ghost ONE = { 1 };

    const MAX: u64 = u64::MAX;

    ghost MAX = { 18446744073709551615 };

    fn known(self) {}

    fn room(self) -> u64 {
        u64::MAX - self
    }

    fn times(self, other: u64) -> u64 {
        crate::halves::product(self, other)
    }

    fn to_u64(self) -> u64 {
        self
    }

    fn truncated(n: u64) -> u64 {
        n
    }

    fn from_u64(n: u64) -> Option<u64> {
        Some(n)
    }

    ghost bits_law = { refl };

    ghost some_bits_law = { lit< tt };

    ghost zero_law = { refl };

    ghost one_law = { refl };

    ghost max_law = { refl };

    ghost eq_law = { natural_equal };

    ghost lt_law = { natural_less };

    ghost le_law = { natural_at_most };

    ghost can_add_law = { λ a b h. h };

    ghost add_law = { λ a b r h. h };

    ghost can_sub_law = { λ a b h. h };

    ghost sub_law = { λ a b r h. h };

    ghost can_mul_law = { λ a b h. h };

    ghost mul_law = { λ a b r h. h };

    ghost can_div_law = { λ a b h. h };

    ghost div_law = { λ a b r h. h };

    ghost can_rem_law = { λ a b h. h };

    ghost rem_law = { λ a b r h. h };

    ghost can_shl_law = { λ a k h. h };

    ghost shl_law = { λ a k r h. h };

    ghost can_shr_law = { λ a k h. h };

    ghost shr_law = { λ a k r h. h };

    ghost bytes_law = { refl };

    ghost most_bits_law = { lit≤ tt };
}
