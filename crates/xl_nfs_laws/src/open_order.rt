//! What holds of owners and stateids at all times, and so of what an OPEN is answered. The functions do nothing: each
//! has laws as its clauses.
ghost use Rattle.std.specs.Prelude.{◌≡◌, ℕ, Bool, true, List, [], Option, Some, None, option_map};
ghost use Rattle.std.specs.List.{find};
ghost use Rattle.xl_base.specs.declared.name.Owner.TheVariants.{Name};
ghost use Rattle.xl_base.specs.declared.name.Protocol.TheVariants.{Nfs};
ghost use Rattle.xl_names.specs.Names.{number_of};
ghost use Rattle.xl_names.specs.declared.name.Name.TheVariants.{NfsShare};
ghost use Rattle.xl_nfs.specs.Opens.{OpenArgsItem};
ghost use Rattle.xl_nfs.specs.declared.basics.Stateid.{Stateid};
ghost use Rattle.xl_nfs.specs.declared.opens.CloseArgs.{CloseArgs};
ghost use Rattle.xl_nfs.specs.declared.opens.OpenConfirmArgs.{OpenConfirmArgs};
ghost use Rattle.xl_nfs.specs.declared.opens.OpenDowngradeArgs.{OpenDowngradeArgs};
ghost use Rattle.xl_nfs_state.specs.State.{NfsLists, is_stateid, no_lists};
ghost use Rattle.xl_nfs_state.specs.declared.client.ClientRow.{ClientRow};
ghost use Rattle.xl_nfs_state.specs.declared.owner.SeqidState.{SeqidState as OwnerSeqids};
ghost use Rattle.xl_nfs_state.specs.declared.stateid.Holder.TheVariants.{Open as OfOpen};
ghost use Rattle.xl_nfs_state.specs.declared.stateid.StateidRow.{StateidRow};
ghost use Rattle.xl_table.specs.Relock.{shares_of};
ghost use Rattle.xl_core.specs.Good.{IsGood};
ghost use Rattle.xl_core.specs.State.{CoreState};
ghost use Rattle.xl_nfs_opens.specs.Closing.{checked, close, close_done, deleg_return, open_confirm, opener_by};
ghost use Rattle.xl_nfs_opens.specs.Downgrades.{open_downgrade};
ghost use Rattle.xl_nfs_opens.specs.Opens.{client_in, judged, open_file, open_judged, opener_of};
ghost use Rattle.xl_nfs_laws.specs.Orderly.{IsKnown, IsOrderly};
ghost use Rattle.xl_nfs_opens.specs.Plans.{carried};
ghost use Rattle.xl_nfs_opens.specs.declared.opener.Checked.TheVariants.{Passed};
ghost use Rattle.xl_nfs_opens.specs.declared.opener.Opener.{Opener as OpenOwner};
ghost use Rattle.xl_nfs_opens.specs.declared.told.Told.TheVariants.{Opened};

/// Each stateid has a number and a place of its own, and an owner of its client; and an open is closed exactly if its
/// owner's last request closed it (RFC 7530 9.1.4, 9.1.8). So it is at a start, and stays whatever an operation on
/// opens comes to.
pub fn stateids_stay_orderly()
    ensures start { IsOrderly no_lists }
    ensures opens { (n : ℕ) (files : List (List ℕ)) (others : ℕ) (s : CoreState) (l : NfsLists) (current : Option ℕ) (a : OpenArgsItem) → IsOrderly l → IsOrderly (carried n s l (open_file files others s l current a)).3 }
    ensures confirms { (n : ℕ) (s : CoreState) (l : NfsLists) (current : Option ℕ) (a : OpenConfirmArgs) → IsOrderly l → IsOrderly (carried n s l (open_confirm s l current a)).3 }
    ensures downgrades { (n : ℕ) (s : CoreState) (l : NfsLists) (current : Option ℕ) (a : OpenDowngradeArgs) → IsOrderly l → IsOrderly (carried n s l (open_downgrade s l current a)).3 }
    ensures closes { (n : ℕ) (s : CoreState) (l : NfsLists) (current : Option ℕ) (a : CloseArgs) → IsOrderly l → IsOrderly (carried n s l (close s l current a)).3 }
    ensures returns { (n : ℕ) (s : CoreState) (l : NfsLists) (current : Option ℕ) (stateid : Stateid) → IsOrderly l → IsOrderly (carried n s l (deleg_return s l current stateid)).3 }
{}

/// The stateid that an OPEN is given names one open from then on: its owner's, on the file that is the current one
/// then, not closed, with the access and the deny that were asked (RFC 7530 9.1.4, 16.16).
pub fn told_opens_are_known()
    ensures { (n : ℕ) (files : List (List ℕ)) (others : ℕ) (s : CoreState) (l : NfsLists) (current : Option ℕ) (at : ℕ) (c : ClientRow) (a : OpenArgsItem) (stateid : Stateid) (flags : ℕ) (delegation : Option (Stateid × Bool)) → IsOrderly l → client_in s l a.owner.clientid ≡ Some c → (carried n s l (open_judged files others s l current at (opener_of c a) a (judged l (opener_of c a) a.seqid))).0 ≡ Opened stateid flags delegation → IsKnown (opener_of c a) a stateid (carried n s l (open_judged files others s l current at (opener_of c a) a (judged l (opener_of c a) a.seqid))) }
{}

/// A CLOSE that is done marks its open closed, and leaves its owner no share on the file (RFC 7530 9.9, 16.2).
pub fn a_close_ends_its_open()
    ensures marked { (n : ℕ) (s : CoreState) (l : NfsLists) (current : Option ℕ) (a : CloseArgs) (r : StateidRow) (owner by : ℕ) (seqids : OwnerSeqids) → IsOrderly l → checked s l current 4 a.seqid a.stateid ≡ Passed r owner seqids → r.holder ≡ OfOpen by → option_map (λ (x : StateidRow). x.standing.closed) (find (is_stateid r.number) (carried n s l (close_done s l current a r owner seqids None)).3.stateids) ≡ Some true }
    ensures share { (n : ℕ) (s : CoreState) (l : NfsLists) (current : Option ℕ) (a : CloseArgs) (r : StateidRow) (owner number : ℕ) (seqids : OwnerSeqids) (o : OpenOwner) → IsGood s → opener_by l r.client owner ≡ Some o → number_of (NfsShare o.id o.owner) (carried n s l (close_done s l current a r owner seqids None)).4.names ≡ Some number → shares_of r.file (Name Nfs number) (carried n s l (close_done s l current a r owner seqids None)).4.claims ≡ [] }
{}
