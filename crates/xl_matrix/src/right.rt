//! Sets of rights.
ghost use Rattle.std.specs.Prelude.{◌≡◌};
ghost use Rattle.xl_matrix.specs.Rights.{implies, common, empty, rights_lie_within};

use crate::claim::Rwd;

/// Whether a right is in both.
pub fn has_common(p: Rwd, q: Rwd) -> bool
    ensures { result ≡ common p q }
{
    (p.r && q.r) || (p.w && q.w) || (p.d && q.d)
}

/// Whether no right is in it.
pub fn is_none(p: Rwd) -> bool
    ensures { result ≡ empty p }
{
    !p.r && !p.w && !p.d
}

/// Whether the second holds wherever the first does.
pub(crate) fn follows(p: bool, q: bool) -> bool
    ensures { result ≡ implies p q }
{
    !p || q
}

/// Whether each right of the first is in the second.
pub fn rights_within(p: Rwd, q: Rwd) -> bool
    ensures { result ≡ rights_lie_within p q }
{
    follows(p.r, q.r) && follows(p.w, q.w) && follows(p.d, q.d)
}
