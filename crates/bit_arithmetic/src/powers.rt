// Powers of two, and numbers whose lowest bits are 1.
ghost use Rattle.std.specs.Prelude.{◌≡◌, ◌-◌, ◌^◌, ◌≤◌, ◌<◌};

// 2 to the power k.
pub fn two_to(k: u32) -> u32
    requires { k < 32 }
    ensures { result ≡ 2 ^ k }
{
    1u32 << k
}

// The number whose lowest n bits are 1, and no others.
pub fn low_ones(n: u32) -> u64
    requires { n ≤ 64 }
    ensures { result ≡ 2 ^ n - 1 }
{
    if n == 0 {
        return 0;
    }
    u64::MAX >> (64 - n)
}
