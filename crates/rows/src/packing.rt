// Results packed into a byte.
ghost use Rattle.std.specs.Prelude.{◌≡◌, ℕ, ◌<◌, min, Bool};
ghost use Rattle.rows.specs.Bits.{bits};

// The first `count` results, at most eight, in a byte: bit k is result k, and the bits above are 0.
pub fn pack<F: Fn(usize) -> bool>(results: F, count: usize) -> u8
    requires { (k : ℕ) → k < min count 8 → F.pre results k }
    ensures { (f : ℕ → Bool) → ((k : ℕ) (b : Bool) → k < min count 8 → F.post results k b → b ≡ f k) → result ≡ bits f 0 (min count 8) }
{
    let mut byte = 0u8;
    for k in 0..count.min(8) {
        let bit = results(k) as u8;
        byte |= bit << k;
    }
    byte
}
