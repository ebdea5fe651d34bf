// A digest: any 32 bytes.

ghost use Rattle.std.specs.Prelude.{◌≡◌, length, replicate, None, refl};
ghost use Rattle.keys.specs.Digests as digests;
ghost use Rattle.keys.specs.Flaws.{width_right};
ghost use Rattle.std.proofs.Common.{rules, arith};

use crate::bytes::exactly;
use crate::fault::KeyFault;
use crate::kind::Key;

#[derive(Clone, Copy, Debug, PartialEq, Eq)]
pub struct Digest {
    bytes: [u8; 32],
    ghost long: { length bytes ≡ 32 },
}

impl Key for Digest {
    const W: usize = 32;

    ghost W = { 32 };

    ghost bytes = { λ k. k.bytes };

    ghost flaw = { digests.flaw };

    ghost first_bytes = { replicate 32 0 };

    ghost some = { Prim.search rules };

    ghost narrow = { Prim.search rules };

    ghost long = { Prim.search rules };

    ghost apart = { Prim.grind (arith, Self.row.coded.inj) };

    ghost clean = { Prim.search rules };

    ghost given = { λ xs h. (record { bytes = xs; long = width_right 32 None xs h }, refl) };

    ghost sized = { Prim.search rules };

    ghost inside = { Prim.search rules };

    fn first() -> Digest {
        Digest { bytes: [0; 32] }
    }

    fn as_bytes(&self) -> &[u8] {
        &self.bytes
    }

    fn read(&mut self, from: &[u8]) -> Result<(), KeyFault> {
        let bytes = exactly::<32>(from)?;
        *self = Digest { bytes: *bytes };
        Ok(())
    }
}
