//! Laws of OPEN_DOWNGRADE, and of how an open and its owner's share are tied. The functions do nothing: each has laws as its
//! clauses.
ghost use Rattle.std.specs.Prelude.{◌≡◌, ◌↔◌, ℕ, true, false, [], ◌∷◌, Option, Some, None};
ghost use Rattle.std.specs.List.{find};
ghost use Rattle.xl_base.specs.declared.name.Owner.TheVariants.{Name};
ghost use Rattle.xl_base.specs.declared.name.Protocol.TheVariants.{Nfs};
ghost use Rattle.xl_matrix.specs.declared.claim.Claim.{Claim as HeldClaim};
ghost use Rattle.xl_names.specs.Names.{number_of};
ghost use Rattle.xl_names.specs.declared.name.Name.TheVariants.{NfsShare};
ghost use Rattle.xl_nfs.specs.declared.opens.OpenDowngradeArgs.{OpenDowngradeArgs};
ghost use Rattle.xl_nfs_state.specs.Rows.{with_standing};
ghost use Rattle.xl_nfs_state.specs.State.{NfsLists, is_stateid};
ghost use Rattle.xl_nfs_state.specs.Verdict.{next_seqid};
ghost use Rattle.xl_nfs_state.specs.declared.owner.SeqidState.{SeqidState as OwnerSeqids};
ghost use Rattle.xl_nfs_state.specs.declared.stateid.Holder.TheVariants.{Open as OfOpen};
ghost use Rattle.xl_nfs_state.specs.declared.stateid.StateidRow.{StateidRow};
ghost use Rattle.xl_table.specs.Relock.{shares_of};
ghost use Rattle.xl_core.specs.Good.{IsGood};
ghost use Rattle.xl_core.specs.Settle.{share_has};
ghost use Rattle.xl_core.specs.State.{CoreState};
ghost use Rattle.xl_nfs_opens.specs.Closing.{checked, opener_by, standing_fault};
ghost use Rattle.xl_nfs_opens.specs.Downgrades.{downgrade_by, downgrade_done};
ghost use Rattle.xl_nfs_opens.specs.Opens.{rights_of, share_held};
ghost use Rattle.xl_nfs_opens.specs.Plans.{carried};
ghost use Rattle.xl_nfs_opens.specs.declared.opener.Checked.TheVariants.{Passed};
ghost use Rattle.xl_nfs_opens.specs.declared.opener.Opener.{Opener as OpenOwner};
ghost use Rattle.xl_nfs_opens.specs.declared.told.Told.TheVariants.{Ended};
ghost use Rattle.xl_nfs.specs.declared.status.NfsStatus.TheVariants.{Inval};
ghost use Rattle.xl_nfs_laws.specs.OpenLaws.{IsLess};

/// An OPEN_DOWNGRADE that is done leaves its open with just the access and the deny that were asked, and its owner's
/// share on the file likewise, if that had these (RFC 7530 16.19). What the owner's request before closed is another
/// open.
pub fn downgrades_leave_what_was_asked()
    ensures row { (n : ℕ) (s : CoreState) (l : NfsLists) (current : Option ℕ) (a : OpenDowngradeArgs) (r : StateidRow) (owner by : ℕ) (seqids : OwnerSeqids) → find (is_stateid r.number) l.stateids ≡ Some r → r.holder ≡ OfOpen by → (seqids.closed ≡ Some r.number → ⊥) → find (is_stateid r.number) (carried n s l (downgrade_done s l current a r owner seqids None)).3.stateids ≡ Some (with_standing (record { seqid = next_seqid r.standing.seqid; access = a.access; deny = a.deny; closed = false }) r) }
    ensures share { (n : ℕ) (s : CoreState) (l : NfsLists) (current : Option ℕ) (a : OpenDowngradeArgs) (r : StateidRow) (owner number : ℕ) (seqids : OwnerSeqids) (o : OpenOwner) (claim : HeldClaim) → IsGood s → opener_by l r.client owner ≡ Some o → number_of (NfsShare o.id o.owner) s.names ≡ Some number → share_held s o r.file ≡ Some claim → share_has claim.what (rights_of a.access) (rights_of a.deny) ≡ true → shares_of r.file (Name Nfs number) (carried n s l (downgrade_done s l current a r owner seqids None)).4.claims ≡ (rights_of a.access, rights_of a.deny) ∷ [] }
{}

/// An OPEN_DOWNGRADE whose stateid passed is INVAL exactly if it asks for no access, or for access or deny that its open doesn't
/// have (RFC 7530 16.19).
#[tactic(auto, using(crate::proofs::ExactStatusLaws::downgrade_inval))]
pub fn downgrades_take_no_more()
    ensures { (n : ℕ) (s : CoreState) (l : NfsLists) (current : Option ℕ) (a : OpenDowngradeArgs) (r : StateidRow) (w : ℕ) (seqids : OwnerSeqids) → checked s l current 21 a.seqid a.stateid ≡ Passed r w seqids → standing_fault r seqids a.stateid.seqid true ≡ None → ((carried n s l (downgrade_by s l current a (checked s l current 21 a.seqid a.stateid))).0 ≡ Ended Inval) ↔ (IsLess r a.access a.deny → ⊥) }
{}
