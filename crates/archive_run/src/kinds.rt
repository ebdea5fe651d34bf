// Two kinds of key of this program's own, of one byte and of three: any bytes of the width are a key.

ghost use Rattle.std.specs.Prelude.{◌≡◌, length, replicate, None, refl};
ghost use Rattle.archive_run.specs.Kinds as kinds;
ghost use Rattle.keys.specs.Flaws.{width_right};
ghost use Rattle.keys.specs.Reading.{taken};
ghost use Rattle.std.proofs.Common.{rules, arith};

use keys::fault::KeyFault;
use keys::kind::Key;

// Bytes as an array of the width, or the refusal of another length.
fn exactly<const N: usize>(from: &[u8]) -> Result<[u8; N], KeyFault>
    ensures { result ≡ taken N from.now }
{
    match <[u8; N]>::try_from(from) {
        Ok(bytes) => Ok(bytes),
        Err(_) => Err(KeyFault::NotAKey { amount: N as u64 }),
    }
}

#[derive(Clone, Copy, Debug, PartialEq, Eq)]
pub struct Tag {
    bytes: [u8; 1],
    ghost long: { length bytes ≡ 1 },
}

impl Key for Tag {
    const W: usize = 1;

    ghost W = { 1 };

    ghost bytes = { λ k. k.bytes };

    ghost flaw = { kinds.tag_flaw };

    ghost first_bytes = { replicate 1 0 };

    ghost some = { Prim.search rules };

    ghost narrow = { Prim.search rules };

    ghost long = { Prim.search rules };

    ghost apart = { Prim.grind (arith, Self.row.coded.inj) };

    ghost clean = { Prim.search rules };

    ghost given = { λ xs h. (record { bytes = xs; long = width_right 1 None xs h }, refl) };

    ghost sized = { Prim.search rules };

    ghost inside = { Prim.search rules };

    fn first() -> Tag {
        Tag { bytes: [0; 1] }
    }

    fn as_bytes(&self) -> &[u8] {
        &self.bytes
    }

    fn read(&mut self, from: &[u8]) -> Result<(), KeyFault> {
        let bytes = exactly::<1>(from)?;
        *self = Tag { bytes };
        Ok(())
    }
}

#[derive(Clone, Copy, Debug, PartialEq, Eq)]
pub struct Triple {
    bytes: [u8; 3],
    ghost long: { length bytes ≡ 3 },
}

impl Key for Triple {
    const W: usize = 3;

    ghost W = { 3 };

    ghost bytes = { λ k. k.bytes };

    ghost flaw = { kinds.triple_flaw };

    ghost first_bytes = { replicate 3 0 };

    ghost some = { Prim.search rules };

    ghost narrow = { Prim.search rules };

    ghost long = { Prim.search rules };

    ghost apart = { Prim.grind (arith, Self.row.coded.inj) };

    ghost clean = { Prim.search rules };

    ghost given = { λ xs h. (record { bytes = xs; long = width_right 3 None xs h }, refl) };

    ghost sized = { Prim.search rules };

    ghost inside = { Prim.search rules };

    fn first() -> Triple {
        Triple { bytes: [0; 3] }
    }

    fn as_bytes(&self) -> &[u8] {
        &self.bytes
    }

    fn read(&mut self, from: &[u8]) -> Result<(), KeyFault> {
        let bytes = exactly::<3>(from)?;
        *self = Triple { bytes };
        Ok(())
    }
}
