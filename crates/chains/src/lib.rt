// Finding: the first number with a property, and numbers chained by bucket; one step of a digest.
#![tactic(auto)]

ghost use Rattle.std.specs.Prelude.{◌≡◌};
ghost use Rattle.chains.specs.Digest.{mixed_by};

// One word more in a digest, by two factors: those of a digest stay the same.
pub fn mixed<const A: u32, const B: u32>(h: u64, w: u64) -> u64
    ensures { result ≡ mixed_by A B h w }
{
    let p = (h ^ w) % 4294967296 * u64::from(A) ^ w / 4294967296 * u64::from(B);
    p ^ p / 4294967296
}
