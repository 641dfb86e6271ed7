//! Who leaves, and what goes with it.
ghost use Rattle.std.specs.Prelude.{◌≡◌};
ghost use Rattle.xl_table.specs.Leaving.{is_of_some, goes};

use xl_base::{Owner, Party};
use xl_matrix::{Claim, is_a_cache, same_owner, same_party};

/// Who leaves the claims.
#[derive(Clone, Copy)]
pub enum Leaver {
    /// A party, with all that it has.
    Party(Party),
    /// The SMB open of this number, with its share and its ranges, and with it the caches of this party, if one goes
    /// with it (MS-SMB2 3.3.4.17).
    Open(u32, Option<Party>),
}

/// Whether a claim is this party's.
fn is_of_some(party: Option<Party>, claim: &Claim) -> bool
    ensures { result ≡ is_of_some party claim.now }
{
    match party {
        Some(party) => same_party(claim.party, party),
        None => false,
    }
}

/// Whether a claim goes with who leaves.
pub(crate) fn goes(leaver: Leaver, claim: &Claim) -> bool
    ensures { result ≡ goes leaver claim.now }
{
    match leaver {
        Leaver::Party(party) => same_party(claim.party, party),
        Leaver::Open(number, party) => {
            if is_a_cache(claim.what) {
                is_of_some(party, claim)
            } else {
                same_owner(claim.owner, Owner::Open(number))
            }
        }
    }
}
