//! Seqids of owners (RFC 7530 9.1.7, 9.1.8).
ghost use Rattle.std.specs.Prelude.{◌≡◌, ◌≢◌, ◌<◌, ◌^◌, ℕ, Some};
ghost use Rattle.xl_nfs_state.specs.declared.owner.SeqidState.{SeqidState as OwnerSeqids};
ghost use Rattle.xl_nfs_state.specs.declared.seqid.SeqidVerdict.TheVariants.{Next, Repeat};
ghost use Rattle.xl_nfs_state.specs.Verdict.{verdict, accepted};

use crate::owner::SeqidState;

/// What an owner's seqid says of a request.
#[derive(Clone, Copy, Debug, PartialEq, Eq)]
pub enum SeqidVerdict {
    /// The owner is new, and may begin anywhere.
    New,
    /// The request is the owner's next.
    Next,
    /// The request is the owner's last one once more, by its seqid and its operation: the kept result answers it.
    Repeat,
    /// The seqid is neither; the owner's last one is this.
    Bad(u32),
}

impl SeqidState {
    /// The same once a request of this operation and seqid counted: its seqid and operation are the last from then on.
    pub fn accepted(self, op: u32, seqid: u32) -> SeqidState
        ensures { result ≡ accepted op seqid self }
    {
        SeqidState {
            seqid,
            op,
            confirmed: self.confirmed,
            closed: self.closed,
        }
    }
}

/// What the seqid says of a request by an owner whose requests have come this far; None if the owner is new. The
/// seqid after 2^32 - 1 is 0.
pub fn verdict(seqids: Option<SeqidState>, op: u32, seqid: u32) -> SeqidVerdict
    ensures { result ≡ verdict seqids op seqid }
{
    let Some(seqids) = seqids else {
        return SeqidVerdict::New;
    };
    if seqid == seqids.seqid.wrapping_add(1) {
        SeqidVerdict::Next
    } else if seqid == seqids.seqid && op == seqids.op {
        SeqidVerdict::Repeat
    } else {
        SeqidVerdict::Bad(seqids.seqid)
    }
}

/// A seqid that counted isn't next again; it is a repeat for its own operation.
pub fn accepted_seqids_are_not_next()
    ensures next { (seqids : OwnerSeqids) (op other seqid : ℕ) → seqid < 2 ^ 32 → verdict (Some (accepted op seqid seqids)) other seqid ≢ Next }
    ensures repeat { (seqids : OwnerSeqids) (op seqid : ℕ) → seqid < 2 ^ 32 → verdict (Some (accepted op seqid seqids)) op seqid ≡ Repeat }
{}
