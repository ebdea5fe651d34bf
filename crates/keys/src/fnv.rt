// FNV-1a in 32 bits: the check of stored entries, and a translator of keys.

ghost use Rattle.std.specs.Prelude.{◌≡◌};
ghost use Rattle.keys.specs.Fnv as hash;

fn step_32(h: u32, b: u8) -> u32
    ensures { result ≡ hash.step_32 h b }
{
    (h ^ u32::from(b)).wrapping_mul(16_777_619)
}

pub fn fnv_1a_32(bytes: &[u8]) -> u32
    ensures { result ≡ hash.fnv_1a_32 bytes.now }
{
    bytes.iter().fold(2_166_136_261, |h, b| step_32(h, *b))
}
