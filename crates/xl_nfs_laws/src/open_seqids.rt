//! Laws of seqids of requests on an open, as what these come to. The functions do nothing: each has laws as its clauses.
ghost use Rattle.std.specs.Prelude.{◌≡◌, ℕ, true, false, Option, Some, None};
ghost use Rattle.std.specs.List.{find};
ghost use Rattle.xl_nfs.specs.declared.basics.Stateid.{Stateid};
ghost use Rattle.xl_nfs.specs.declared.opens.CloseArgs.{CloseArgs};
ghost use Rattle.xl_nfs.specs.declared.opens.OpenConfirmArgs.{OpenConfirmArgs};
ghost use Rattle.xl_nfs.specs.declared.opens.OpenDowngradeArgs.{OpenDowngradeArgs};
ghost use Rattle.xl_nfs.specs.declared.status.NfsStatus.{NfsStatus};
ghost use Rattle.xl_nfs_state.specs.State.{NfsLists, is_owner};
ghost use Rattle.xl_nfs_state.specs.declared.owner.OwnerRow.{OwnerRow};
ghost use Rattle.xl_nfs_state.specs.declared.owner.SeqidState.{SeqidState as OwnerSeqids};
ghost use Rattle.xl_nfs_state.specs.declared.stateid.StateidRow.{StateidRow};
ghost use Rattle.xl_core.specs.State.{CoreState};
ghost use Rattle.xl_nfs_laws.specs.OpenSeqids.{closed_by, confirmed_by, seqids_after, CountsFor, IsAlone};
ghost use Rattle.xl_nfs_opens.specs.Closing.{checked, close_by, confirm_by};
ghost use Rattle.xl_nfs_opens.specs.Downgrades.{downgrade_by};
ghost use Rattle.xl_nfs_opens.specs.Plans.{carried, status_of};
ghost use Rattle.xl_nfs_opens.specs.Seqids.{advances};
ghost use Rattle.xl_nfs_opens.specs.declared.opener.Checked.TheVariants.{Passed, Refused};

/// An OPEN_CONFIRM, OPEN_DOWNGRADE or CLOSE that is judged further, and ends so that it counts, advances its owner's
/// seqid by one, and no other owner's; what it was answered is kept for its owner, and what is kept for others stays
/// (RFC 7530 9.1.7, 9.1.8). One that is OK confirms the owner, if it is an OPEN_CONFIRM, and closes the open, if it is
/// a CLOSE.
pub fn requests_on_opens_advance_by_one()
    ensures confirms { (n : ℕ) (s : CoreState) (l : NfsLists) (current : Option ℕ) (a : OpenConfirmArgs) (r : StateidRow) (owner : ℕ) (seqids : OwnerSeqids) (o : OwnerRow) → checked s l current 20 a.seqid a.stateid ≡ Passed r owner seqids → find (is_owner owner) l.owners ≡ Some o → CountsFor owner o (seqids_after o 20 (confirmed_by (status_of (carried n s l (confirm_by s l current a (checked s l current 20 a.seqid a.stateid))).0) o.seqids.confirmed) None) 20 l (carried n s l (confirm_by s l current a (checked s l current 20 a.seqid a.stateid))) }
    ensures downgrades { (n : ℕ) (s : CoreState) (l : NfsLists) (current : Option ℕ) (a : OpenDowngradeArgs) (r : StateidRow) (owner : ℕ) (seqids : OwnerSeqids) (o : OwnerRow) → checked s l current 21 a.seqid a.stateid ≡ Passed r owner seqids → find (is_owner owner) l.owners ≡ Some o → CountsFor owner o (seqids_after o 21 o.seqids.confirmed None) 21 l (carried n s l (downgrade_by s l current a (checked s l current 21 a.seqid a.stateid))) }
    ensures closes { (n : ℕ) (s : CoreState) (l : NfsLists) (current : Option ℕ) (a : CloseArgs) (r : StateidRow) (owner : ℕ) (seqids : OwnerSeqids) (o : OwnerRow) → checked s l current 4 a.seqid a.stateid ≡ Passed r owner seqids → find (is_owner owner) l.owners ≡ Some o → CountsFor owner o (seqids_after o 4 o.seqids.confirmed (closed_by (status_of (carried n s l (close_by s l current a (checked s l current 4 a.seqid a.stateid))).0) r.number)) 4 l (carried n s l (close_by s l current a (checked s l current 4 a.seqid a.stateid))) }
{}

/// An OPEN_CONFIRM, OPEN_DOWNGRADE or CLOSE that ends so that it doesn't count changes nothing, neither what is
/// remembered nor the core, except for the lease that it renews before. So ends each that is refused by the check of
/// its stateid and of its owner's seqid (RFC 7530 9.1.7).
pub fn requests_that_do_not_count_change_nothing()
    ensures confirms { (n : ℕ) (s : CoreState) (l : NfsLists) (current : Option ℕ) (a : OpenConfirmArgs) → advances (status_of (carried n s l (confirm_by s l current a (checked s l current 20 a.seqid a.stateid))).0) ≡ false → IsAlone l s (carried n s l (confirm_by s l current a (checked s l current 20 a.seqid a.stateid))) }
    ensures downgrades { (n : ℕ) (s : CoreState) (l : NfsLists) (current : Option ℕ) (a : OpenDowngradeArgs) → advances (status_of (carried n s l (downgrade_by s l current a (checked s l current 21 a.seqid a.stateid))).0) ≡ false → IsAlone l s (carried n s l (downgrade_by s l current a (checked s l current 21 a.seqid a.stateid))) }
    ensures closes { (n : ℕ) (s : CoreState) (l : NfsLists) (current : Option ℕ) (a : CloseArgs) → advances (status_of (carried n s l (close_by s l current a (checked s l current 4 a.seqid a.stateid))).0) ≡ false → IsAlone l s (carried n s l (close_by s l current a (checked s l current 4 a.seqid a.stateid))) }
    ensures refused { (s : CoreState) (l : NfsLists) (current : Option ℕ) (op seqid : ℕ) (stateid : Stateid) (status : NfsStatus) → checked s l current op seqid stateid ≡ Refused status → advances status ≡ false }
{}
