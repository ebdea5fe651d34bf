// Stretches of good pages at another place than their own, as writes that went astray leave them.

use crate::bytes::put;
use crate::pair::Pair;
use crate::plain::{Plain, some_bytes};
use journal::limits::Limits;
use std::alloc::{AllocError, Global};

/// What lies elsewhere, and whether what lay there comes back in exchange.
#[derive(Clone, Copy)]
pub enum Stretch {
    Header,
    Row,
    Page,
    ExchangedPages,
    ExchangedPagesAndValues,
}

// Puts `n` bytes that lie at `from` in `old` to the place `to`.
fn copy(
    heap: Global,
    old: &[u8],
    new: &mut [u8],
    from: u64,
    to: u64,
    n: u64,
) -> Result<(), AllocError> {
    let stretch = some_bytes(heap, old, from, n)?;
    put(new, to, stretch.as_slice());
    Ok(())
}

impl Stretch {
    /// How many of them pages of these limits have.
    pub fn count(self, limits: Limits) -> u64 {
        match self {
            Stretch::Row => limits.slots.saturating_mul(limits.rows),
            _ => limits.slots,
        }
    }

    // Where one begins among the entries.
    fn place(self, plain: Plain<'_>, number: u64) -> u64 {
        let rows = plain.limits.rows;
        match self {
            Stretch::Row if rows > 0 => plain.row(number / rows, number % rows),
            _ => plain.page(number),
        }
    }

    // How many bytes of the entries it has.
    fn size(self, plain: Plain<'_>) -> u64 {
        match self {
            Stretch::Header => 16,
            Stretch::Row => plain.row_size(),
            _ => plain.page_size(),
        }
    }

    // One of them over another, in `pair`.
    fn copied(
        self,
        heap: Global,
        good: &Pair,
        pair: &mut Pair,
        from: u64,
        to: u64,
    ) -> Result<(), AllocError> {
        let plain = good.plain();
        let size = self.size(plain);
        let entries = pair.entries.as_mut_slice();
        copy(
            heap,
            plain.entries,
            entries,
            self.place(plain, from),
            self.place(plain, to),
            size,
        )?;
        if let Stretch::ExchangedPagesAndValues = self {
            let n = good.limits.bytes;
            let values = pair.values.as_mut_slice();
            copy(
                heap,
                plain.values,
                values,
                from.saturating_mul(n),
                to.saturating_mul(n),
                n,
            )?;
        }
        Ok(())
    }

    /// The good pair, one of its stretches at the place of another.
    pub fn misplaced(
        self,
        heap: Global,
        good: &Pair,
        from: u64,
        to: u64,
    ) -> Result<Pair, AllocError> {
        let mut pair = good.clone()?;
        self.copied(heap, good, &mut pair, from, to)?;
        if let Stretch::ExchangedPages | Stretch::ExchangedPagesAndValues = self {
            self.copied(heap, good, &mut pair, to, from)?;
        }
        Ok(pair)
    }
}
