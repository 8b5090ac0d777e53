// What vstd promises of zeros and ones, kept: each function's contract is vstd's count by halving (specs/Zeros.antt), and its body a call of ours.
#![tactic(auto)]

ghost use Rattle.std.specs.Prelude.{◌≡◌};
ghost use Rattle.vstd_zeros.specs.Zeros.{vstd_trailing_zeros, vstd_leading_zeros, vstd_trailing_ones, vstd_leading_ones};

// ---- 8 bits

#[unsafe(no_mangle)]
pub extern "C" fn pb_u8_leading_zeros(i: u8) -> u32
    ensures { result ≡ vstd_leading_zeros 8 i }
{
    zeros::leading_zeros(i)
}

#[unsafe(no_mangle)]
pub extern "C" fn pb_u8_leading_ones(i: u8) -> u32
    ensures { result ≡ vstd_leading_ones 8 i }
{
    zeros::leading_ones(i)
}

#[unsafe(no_mangle)]
pub extern "C" fn pb_u8_trailing_zeros(i: u8) -> u32
    ensures { result ≡ vstd_trailing_zeros 8 i }
{
    zeros::trailing_zeros(i)
}

#[unsafe(no_mangle)]
pub extern "C" fn pb_u8_trailing_ones(i: u8) -> u32
    ensures { result ≡ vstd_trailing_ones 8 i }
{
    zeros::trailing_ones(i)
}

// ---- 16 bits

#[unsafe(no_mangle)]
pub extern "C" fn pb_u16_leading_zeros(i: u16) -> u32
    ensures { result ≡ vstd_leading_zeros 16 i }
{
    zeros::leading_zeros(i)
}

#[unsafe(no_mangle)]
pub extern "C" fn pb_u16_leading_ones(i: u16) -> u32
    ensures { result ≡ vstd_leading_ones 16 i }
{
    zeros::leading_ones(i)
}

#[unsafe(no_mangle)]
pub extern "C" fn pb_u16_trailing_zeros(i: u16) -> u32
    ensures { result ≡ vstd_trailing_zeros 16 i }
{
    zeros::trailing_zeros(i)
}

#[unsafe(no_mangle)]
pub extern "C" fn pb_u16_trailing_ones(i: u16) -> u32
    ensures { result ≡ vstd_trailing_ones 16 i }
{
    zeros::trailing_ones(i)
}

// ---- 32 bits

#[unsafe(no_mangle)]
pub extern "C" fn pb_u32_leading_zeros(i: u32) -> u32
    ensures { result ≡ vstd_leading_zeros 32 i }
{
    zeros::leading_zeros(i)
}

#[unsafe(no_mangle)]
pub extern "C" fn pb_u32_leading_ones(i: u32) -> u32
    ensures { result ≡ vstd_leading_ones 32 i }
{
    zeros::leading_ones(i)
}

#[unsafe(no_mangle)]
pub extern "C" fn pb_u32_trailing_zeros(i: u32) -> u32
    ensures { result ≡ vstd_trailing_zeros 32 i }
{
    zeros::trailing_zeros(i)
}

#[unsafe(no_mangle)]
pub extern "C" fn pb_u32_trailing_ones(i: u32) -> u32
    ensures { result ≡ vstd_trailing_ones 32 i }
{
    zeros::trailing_ones(i)
}

// ---- 64 bits

#[unsafe(no_mangle)]
pub extern "C" fn pb_u64_leading_zeros(i: u64) -> u32
    ensures { result ≡ vstd_leading_zeros 64 i }
{
    zeros::leading_zeros(i)
}

#[unsafe(no_mangle)]
pub extern "C" fn pb_u64_leading_ones(i: u64) -> u32
    ensures { result ≡ vstd_leading_ones 64 i }
{
    zeros::leading_ones(i)
}

#[unsafe(no_mangle)]
pub extern "C" fn pb_u64_trailing_zeros(i: u64) -> u32
    ensures { result ≡ vstd_trailing_zeros 64 i }
{
    zeros::trailing_zeros(i)
}

#[unsafe(no_mangle)]
pub extern "C" fn pb_u64_trailing_ones(i: u64) -> u32
    ensures { result ≡ vstd_trailing_ones 64 i }
{
    zeros::trailing_ones(i)
}
