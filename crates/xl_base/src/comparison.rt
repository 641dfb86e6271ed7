//! Bytes compare as texts do, by the first byte in which they differ.
ghost use Rattle.std.specs.Prelude.{Some, refl};
ghost use Rattle.std.specs.Ordering.{nat_cmp};
ghost use Rattle.std.specs.Cmp.{on_total, on_po};
ghost use Rattle.std.specs.Cmp.Lexicographic.{slice_cmp, nat_list_cmp_total, texts_ties, texts_po};

use crate::sequence::Sequence;
use std::cmp::Ordering;

impl PartialOrd for Sequence<u8> {
    ghost partial_cmp = { λ a b. Some (slice_cmp nat_cmp a b) };

    ghost laws = { on_po (λ s. s) texts_po };

    fn partial_cmp(&self, other: &Sequence<u8>) -> Option<Ordering> {
        Some(self.cmp(other))
    }
}

impl Ord for Sequence<u8> {
    ghost cmp = { λ a b. slice_cmp nat_cmp a b };

    ghost total = { on_total (λ s. s) nat_list_cmp_total };

    ghost matches_partial_cmp = { λ a b. refl };

    ghost matches_eq = { λ a b. texts_ties a b };

    fn cmp(&self, other: &Sequence<u8>) -> Ordering {
        self.as_slice().cmp(other.as_slice())
    }
}
