//! Laws of opens. The functions do nothing: each has laws as its clauses.
ghost use Rattle.std.specs.Prelude.{◌≡◌, ◌↔◌, ◌==◌, ◌+◌, ◌<◌, ◌^◌, ℕ, true, false, if◌then◌else◌, List, [], Bool, Option, Some, None, Ok, Err, is_some, option_map};
ghost use Rattle.std.specs.List.{filter, find};
ghost use Rattle.std.specs.Option.{option_and_then};
ghost use Rattle.xl_matrix.specs.Rights.{rights_lie_within};
ghost use Rattle.xl_nfs.specs.Opens.{OpenArgsItem};
ghost use Rattle.xl_nfs.specs.declared.basics.Stateid.{Stateid};
ghost use Rattle.xl_nfs.specs.declared.opens.CloseArgs.{CloseArgs};
ghost use Rattle.xl_nfs.specs.declared.opens.OpenConfirmArgs.{OpenConfirmArgs};
ghost use Rattle.xl_nfs.specs.declared.opens.OpenDowngradeArgs.{OpenDowngradeArgs};
ghost use Rattle.xl_nfs.specs.declared.status.NfsStatus.{NfsStatus};
ghost use Rattle.xl_nfs.specs.declared.status.NfsStatus.TheVariants.{BadSeqid, Ok as Fine, Resource};
ghost use Rattle.xl_nfs_state.specs.declared.stateid.Holder.TheVariants.{Open as OfOpen};
ghost use Rattle.xl_nfs_state.specs.Rows.{with_standing, with_seqids};
ghost use Rattle.xl_nfs_state.specs.State.{NfsLists, IsRising, is_kept, is_owner, is_stateid, is_whose, without_owner};
ghost use Rattle.xl_nfs_state.specs.declared.stateid.Whose.TheVariants.{Owner as OfOwner};
ghost use Rattle.xl_nfs_state.specs.Verdict.{next_seqid};
ghost use Rattle.xl_nfs_state.specs.declared.kept.KeptRow.{KeptRow};
ghost use Rattle.xl_nfs_state.specs.declared.owner.OwnerRow.{OwnerRow};
ghost use Rattle.xl_nfs_state.specs.declared.owner.SeqidState.{SeqidState as OwnerSeqids};
ghost use Rattle.xl_nfs_state.specs.declared.stateid.StateidRow.{StateidRow};
ghost use Rattle.xl_nfs_opens.specs.Closing.{checked, close_by, close_done, confirm_by, confirm_done, failed_lists, standing_fault};
ghost use Rattle.xl_nfs_opens.specs.Downgrades.{downgrade_by, downgrade_done};
ghost use Rattle.xl_nfs_laws.specs.OpenLaws.{can_come, goes_on, HasCome, IsOpenOf, IsOpenTold, IsRepeated, IsShared, share_claim, share_way};
ghost use Rattle.xl_nfs_opens.specs.Opens.{either_bits, gives_all, granted_more, granted_new, has_room, judged, open_judged, opened_file, refused_lists, rights_of, share_ask, wish_of};
ghost use Rattle.xl_nfs_opens.specs.Renewing.{number_of};
ghost use Rattle.xl_nfs_opens.specs.Results.{spelled};
ghost use Rattle.xl_nfs_opens.specs.Seqids.{advances, counted, is_opener, is_room_for, opener_number};
ghost use Rattle.xl_nfs_opens.specs.declared.opener.Checked.TheVariants.{Passed, Refused, Repeated};
ghost use Rattle.xl_nfs_opens.specs.declared.opener.Judged.TheVariants.{Anew, Next, Repeats};
ghost use Rattle.xl_nfs_opens.specs.declared.opener.Opener.{Opener as OpenOwner};
ghost use Rattle.xl_matrix.specs.declared.claim.What.TheVariants.{Share};
ghost use Rattle.xl_table.specs.Relock.{old_shares, shares_of, united_by, with_share};
ghost use Rattle.xl_core.specs.Askers.{asker};
ghost use Rattle.xl_core.specs.Deeds.{all_done};
ghost use Rattle.xl_core.specs.Good.{IsGood};
ghost use Rattle.xl_core.specs.State.{CoreState};
ghost use Rattle.xl_nfs_opens.specs.Plans.{carried, status_of};
ghost use Rattle.xl_nfs_opens.specs.declared.told.Told.TheVariants.{Ended};

/// A request that comes again is sent the bytes that were kept of it, and nothing changes: neither what is remembered
/// nor the core, except for the lease that each request renews before (RFC 7530 9.1.8). The last OPEN of an owner comes
/// again by its seqid, whatever else it asks.
pub fn repeats_change_nothing()
    ensures opens { (n : ℕ) (files : List (List ℕ)) (others : ℕ) (s : CoreState) (l : NfsLists) (current : Option ℕ) (at : ℕ) (o : OpenOwner) (a : OpenArgsItem) (number : ℕ) (k : KeptRow) → find (is_kept number) l.kept ≡ Some k → IsRepeated k.result l s (carried n s l (open_judged files others s l current at o a (Repeats number))) }
    ensures confirms { (n : ℕ) (s : CoreState) (l : NfsLists) (current : Option ℕ) (a : OpenConfirmArgs) (number : ℕ) (k : KeptRow) → find (is_kept number) l.kept ≡ Some k → IsRepeated k.result l s (carried n s l (confirm_by s l current a (Repeated number))) }
    ensures downgrades { (n : ℕ) (s : CoreState) (l : NfsLists) (current : Option ℕ) (a : OpenDowngradeArgs) (number : ℕ) (k : KeptRow) → find (is_kept number) l.kept ≡ Some k → IsRepeated k.result l s (carried n s l (downgrade_by s l current a (Repeated number))) }
    ensures closes { (n : ℕ) (s : CoreState) (l : NfsLists) (current : Option ℕ) (a : CloseArgs) (number : ℕ) (k : KeptRow) → find (is_kept number) l.kept ≡ Some k → IsRepeated k.result l s (carried n s l (close_by s l current a (Repeated number))) }
    ensures last { (l : NfsLists) (o : OpenOwner) (r : OwnerRow) (seqid : ℕ) → find (is_opener o) l.owners ≡ Some r → seqid ≡ r.seqids.seqid → r.seqids.op ≡ 18 → seqid < 2 ^ 32 → judged l o seqid ≡ Repeats r.number }
{}

/// A request on an open that is judged further has the seqid after its owner's last (RFC 7530 9.1.7). One that counts makes
/// that its owner's last, and no other owner's; and one that ends so that it doesn't count leaves all as it was.
pub fn seqids_advance_by_one()
    ensures next { (s : CoreState) (l : NfsLists) (current : Option ℕ) (op seqid : ℕ) (stateid : Stateid) (x : StateidRow) (w : ℕ) (t : OwnerSeqids) → checked s l current op seqid stateid ≡ Passed x w t → seqid ≡ next_seqid t.seqid }
    ensures counted { (owner number : ℕ) (closed : Option ℕ) (seqids : OwnerSeqids) (bytes : List ℕ) (l : NfsLists) → find (is_owner number) (counted owner closed seqids bytes l).owners ≡ option_map (λ r. if number == owner then with_seqids seqids r else r) (find (is_owner number) l.owners) }
    ensures only { (l : NfsLists) (owner : ℕ) (seqids : OwnerSeqids) (op seqid : ℕ) (status : NfsStatus) → advances status ≡ false → failed_lists l owner seqids op seqid status ≡ l }
{}

/// Once an open is closed, nothing more is done by its stateid: no request on it is judged further, whatever its seqids are
/// (RFC 7530 16.2).
pub fn closed_opens_are_over()
    ensures { (s : CoreState) (l : NfsLists) (current : Option ℕ) (op seqid number : ℕ) (stateid : Stateid) (r x : StateidRow) (w : ℕ) (t : OwnerSeqids) → number_of s stateid.other ≡ Some number → find (is_stateid number) l.stateids ≡ Some r → r.standing.closed ≡ true → checked s l current op seqid stateid ≡ Passed x w t → ⊥ }
{}

/// The access, and the deny, of an open that is opened again have those that were asked and those that it had (RFC 7530
/// 9.9).
pub fn opens_have_what_was_asked()
    ensures { (had asked : ℕ) → rights_lie_within (rights_of asked) (rights_of (either_bits had asked)) ≡ true }
{}

/// An OPEN of a confirmed owner that is known is judged further exactly with the seqid after the owner's last; its last
/// OPEN comes again by its seqid (see `repeats_change_nothing`); any other is answered with BAD_SEQID, and nothing
/// changes (RFC 7530 9.1.7).
pub fn opens_come_in_order()
    ensures next { (l : NfsLists) (o : OpenOwner) (r : OwnerRow) (seqid : ℕ) → find (is_opener o) l.owners ≡ Some r → r.seqids.confirmed ≡ true → seqid ≡ next_seqid r.seqids.seqid → judged l o seqid ≡ Next }
    ensures others { (n : ℕ) (files : List (List ℕ)) (others : ℕ) (s : CoreState) (l : NfsLists) (current : Option ℕ) (at : ℕ) (o : OpenOwner) (a : OpenArgsItem) (r : OwnerRow) → find (is_opener o) l.owners ≡ Some r → r.seqids.confirmed ≡ true → (a.seqid ≡ next_seqid r.seqids.seqid → ⊥) → (a.seqid ≡ r.seqids.seqid → r.seqids.op ≡ 18 → ⊥) → carried n s l (open_judged files others s l current at o a (judged l o a.seqid)) ≡ (Ended BadSeqid, current, [], l, s) }
{}

/// A new open is known by its number from then on: of its owner and file, with the access and the deny that were asked,
/// if it can come (RFC 7530 9.1.4, 16.16).
pub fn new_opens_are_known()
    ensures { (n : ℕ) (s : CoreState) (l : NfsLists) (current : Option ℕ) (o : OpenOwner) (a : OpenArgsItem) (file : ℕ) (confirmed : Bool) (write : Option Bool) → can_come s l o a file confirmed ≡ true → find (is_stateid (s.counter + 1)) (carried n s l (granted_new s l o a file confirmed write)).3.stateids ≡ Some (record { number = s.counter + 1; client = o.client; file = file; holder = OfOpen (opener_number o l); standing = record { seqid = 1; access = a.access; deny = a.deny; closed = false } }) }
{}

/// An open that is closed is marked so, and stays known by its number for its owner's CLOSE to come again (RFC 7530 9.1.8,
/// 16.2). What the owner's request before closed is another open.
pub fn closed_opens_are_marked()
    ensures { (n : ℕ) (s : CoreState) (l : NfsLists) (current : Option ℕ) (a : CloseArgs) (r : StateidRow) (owner by : ℕ) (seqids : OwnerSeqids) → find (is_stateid r.number) l.stateids ≡ Some r → r.holder ≡ OfOpen by → (seqids.closed ≡ Some r.number → ⊥) → option_map (λ (x : StateidRow). x.standing.closed) (find (is_stateid r.number) (carried n s l (close_done s l current a r owner seqids None)).3.stateids) ≡ Some true }
{}

/// The result of a request that counts is kept for its owner, as it was sent, in the place of the one before: of an
/// OPEN, of a new owner's too if there is room for it, OPEN_CONFIRM, OPEN_DOWNGRADE and CLOSE, whether they were done
/// or refused (RFC 7530 9.1.8). It is what a repeat is sent (see `repeats_change_nothing`).
pub fn results_are_kept()
    ensures first { (n : ℕ) (s : CoreState) (l : NfsLists) (current : Option ℕ) (o : OpenOwner) (a : OpenArgsItem) (file : ℕ) (confirmed : Bool) (write : Option Bool) → is_room_for o l ≡ true → find (is_kept (opener_number o l)) (carried n s l (granted_new s l o a file confirmed write)).3.kept ≡ Some (record { owner = opener_number o l; result = spelled 18 (carried n s l (granted_new s l o a file confirmed write)).0 }) }
    ensures more { (n : ℕ) (s : CoreState) (l : NfsLists) (current : Option ℕ) (o : OpenOwner) (a : OpenArgsItem) (file : ℕ) (confirmed : Bool) (write : Option Bool) (r : StateidRow) → is_room_for o l ≡ true → find (is_kept (opener_number o l)) (carried n s l (granted_more s l o a file confirmed write r)).3.kept ≡ Some (record { owner = opener_number o l; result = spelled 18 (carried n s l (granted_more s l o a file confirmed write r)).0 }) }
    ensures refused { (o : OpenOwner) (a : OpenArgsItem) (confirmed : Bool) (status : NfsStatus) (l : NfsLists) → advances status ≡ true → is_room_for o l ≡ true → find (is_kept (opener_number o l)) (refused_lists o a confirmed status l).kept ≡ Some (record { owner = opener_number o l; result = spelled 18 (Ended status) }) }
    ensures confirms { (n : ℕ) (s : CoreState) (l : NfsLists) (current : Option ℕ) (a : OpenConfirmArgs) (r : StateidRow) (owner : ℕ) (seqids : OwnerSeqids) → is_some (find (is_owner owner) l.owners) ≡ true → find (is_kept owner) (carried n s l (confirm_done s l current a r owner seqids None)).3.kept ≡ Some (record { owner = owner; result = spelled 20 (carried n s l (confirm_done s l current a r owner seqids None)).0 }) }
    ensures downgrades { (n : ℕ) (s : CoreState) (l : NfsLists) (current : Option ℕ) (a : OpenDowngradeArgs) (r : StateidRow) (owner : ℕ) (seqids : OwnerSeqids) → is_some (find (is_owner owner) l.owners) ≡ true → find (is_kept owner) (carried n s l (downgrade_done s l current a r owner seqids None)).3.kept ≡ Some (record { owner = owner; result = spelled 21 (carried n s l (downgrade_done s l current a r owner seqids None)).0 }) }
    ensures closes { (n : ℕ) (s : CoreState) (l : NfsLists) (current : Option ℕ) (a : CloseArgs) (r : StateidRow) (owner : ℕ) (seqids : OwnerSeqids) → is_some (find (is_owner owner) l.owners) ≡ true → find (is_kept owner) (carried n s l (close_done s l current a r owner seqids None)).3.kept ≡ Some (record { owner = owner; result = spelled 4 (carried n s l (close_done s l current a r owner seqids None)).0 }) }
    ensures fails { (l : NfsLists) (owner : ℕ) (seqids : OwnerSeqids) (op seqid : ℕ) (status : NfsStatus) → advances status ≡ true → is_some (find (is_owner owner) l.owners) ≡ true → find (is_kept owner) (failed_lists l owner seqids op seqid status).kept ≡ Some (record { owner = owner; result = spelled op (Ended status) }) }
{}

/// OPEN_CONFIRM, OPEN_DOWNGRADE and CLOSE on an open that is there, if its file is the current one: with the seqid
/// after its owner's last they are judged further, unless it is closed; with the owner's last seqid and operation they
/// are a repeat, also on one that is closed; any other is answered with BAD_SEQID on one that isn't closed (RFC 7530
/// 9.1.7, 9.1.8).
pub fn known_opens_are_judged()
    ensures next { (s : CoreState) (l : NfsLists) (op seqid : ℕ) (stateid : Stateid) (r : StateidRow) (w : ℕ) (o : OwnerRow) → IsOpenOf s l stateid r w o → seqid ≡ next_seqid o.seqids.seqid → r.standing.closed ≡ false → checked s l (Some r.file) op seqid stateid ≡ Passed r w o.seqids }
    ensures last { (s : CoreState) (l : NfsLists) (op seqid : ℕ) (stateid : Stateid) (r : StateidRow) (w : ℕ) (o : OwnerRow) → IsOpenOf s l stateid r w o → seqid ≡ o.seqids.seqid → op ≡ o.seqids.op → seqid < 2 ^ 32 → checked s l (Some r.file) op seqid stateid ≡ Repeated w }
    ensures others { (s : CoreState) (l : NfsLists) (op seqid : ℕ) (stateid : Stateid) (r : StateidRow) (w : ℕ) (o : OwnerRow) → IsOpenOf s l stateid r w o → (seqid ≡ next_seqid o.seqids.seqid → ⊥) → (seqid ≡ o.seqids.seqid → op ≡ o.seqids.op → ⊥) → r.standing.closed ≡ false → checked s l (Some r.file) op seqid stateid ≡ Refused BadSeqid }
{}

/// An OPEN that counts makes its seqid the last of its owner, and of no other: of a new open, of one that is opened again,
/// and of one that is refused so; and one that ends so that it doesn't count leaves all as it was (RFC 7530 9.1.7).
pub fn opens_advance_by_one()
    ensures first { (n : ℕ) (s : CoreState) (l : NfsLists) (current : Option ℕ) (o : OpenOwner) (a : OpenArgsItem) (file : ℕ) (confirmed : Bool) (write : Option Bool) → IsRising l.owners → is_room_for o l ≡ true → HasCome o (record { seqid = a.seqid; op = 18; confirmed = confirmed; closed = None }) l (carried n s l (granted_new s l o a file confirmed write)).3 }
    ensures more { (n : ℕ) (s : CoreState) (l : NfsLists) (current : Option ℕ) (o : OpenOwner) (a : OpenArgsItem) (file : ℕ) (confirmed : Bool) (write : Option Bool) (r : StateidRow) → IsRising l.owners → is_room_for o l ≡ true → HasCome o (record { seqid = a.seqid; op = 18; confirmed = confirmed; closed = None }) l (carried n s l (granted_more s l o a file confirmed write r)).3 }
    ensures refused { (o : OpenOwner) (a : OpenArgsItem) (confirmed : Bool) (status : NfsStatus) (l : NfsLists) → advances status ≡ true → IsRising l.owners → is_room_for o l ≡ true → HasCome o (record { seqid = a.seqid; op = 18; confirmed = confirmed; closed = None }) l (refused_lists o a confirmed status l) }
    ensures only { (o : OpenOwner) (a : OpenArgsItem) (confirmed : Bool) (status : NfsStatus) (l : NfsLists) → advances status ≡ false → refused_lists o a confirmed status l ≡ l }
{}

/// An open that its owner opens again keeps its number, file and owner; it has the access and the deny that it had and those
/// that were asked, its seqid is the next, and it isn't closed (RFC 7530 9.9, 16.16). What the owner's request before closed
/// is another open.
pub fn opens_again_are_widened()
    ensures { (n : ℕ) (s : CoreState) (l : NfsLists) (current : Option ℕ) (o : OpenOwner) (a : OpenArgsItem) (file : ℕ) (confirmed : Bool) (write : Option Bool) (r : StateidRow) (by : ℕ) → find (is_stateid r.number) l.stateids ≡ Some r → r.holder ≡ OfOpen by → (option_and_then (λ (y : OwnerRow). y.seqids.closed) (find (is_opener o) l.owners) ≡ Some r.number → ⊥) → find (is_stateid r.number) (carried n s l (granted_more s l o a file confirmed write r)).3.stateids ≡ Some (with_standing (record { seqid = next_seqid r.standing.seqid; access = either_bits r.standing.access a.access; deny = either_bits r.standing.deny a.deny; closed = false }) r) }
{}

/// An OPEN that is judged further is answered with each status exactly if that has its cause (RFC 7530 9.9, 16.16).
/// What it opens can't be opened: the first check that fails, and the core stays as it is. There is no room for its
/// owner or for the open: RESOURCE, and nothing changes. Else the breaks of the caches in its way begin, if nothing
/// stands against its share for good; and then it is answered with OK if grace lets it in, nothing held stands against its
/// share, and its client is recorded or can be; SHARE_DENIED if something stands against it for good, RECLAIM_CONFLICT if
/// anything does against a reclaim, or against the delegation that is reclaimed with it; DELAY if a cache keeps it off,
/// RESOURCE if the core or the record has no room; GRACE in grace if it doesn't reclaim, NO_GRACE out of grace if it does,
/// RECLAIM_BAD if it reclaims and its client isn't recorded, or is with another verifier; SERVERFAULT if the store fails that
/// records its client; and no other (RFC 7530 9.6.2). So is that of an owner that was never confirmed, once the shares of its
/// opens are given back and it is gone.
pub fn open_statuses_have_causes()
    ensures told { (n : ℕ) (files : List (List ℕ)) (others : ℕ) (s : CoreState) (l : NfsLists) (current : Option ℕ) (at : ℕ) (o : OpenOwner) (a : OpenArgsItem) (confirmed : Bool) (file : ℕ) (status : NfsStatus) → goes_on (judged l o a.seqid) ≡ Some confirmed → opened_file files s l o.client at a ≡ Ok file → has_room others l o file ≡ true → (status_of (carried n s l (open_judged files others s l current at o a (judged l o a.seqid))).0 ≡ status) ↔ IsOpenTold n (share_way s (wish_of s l o a confirmed file) o a file) (share_ask (wish_of s l o a confirmed file) o a file) (share_claim s o a file) status }
    ensures anew { (n : ℕ) (files : List (List ℕ)) (others : ℕ) (s t : CoreState) (l : NfsLists) (current : Option ℕ) (at : ℕ) (o : OpenOwner) (a : OpenArgsItem) (number file : ℕ) (status : NfsStatus) → judged l o a.seqid ≡ Anew number → t ≡ all_done n s (gives_all s o (filter (is_whose (OfOwner number)) l.stateids)) → opened_file files t (without_owner number l) o.client at a ≡ Ok file → has_room others (without_owner number l) o file ≡ true → (status_of (carried n s l (open_judged files others s l current at o a (judged l o a.seqid))).0 ≡ status) ↔ IsOpenTold n (share_way t (wish_of t (without_owner number l) o a false file) o a file) (share_ask (wish_of t (without_owner number l) o a false file) o a file) (share_claim t o a file) status }
    ensures fails { (n : ℕ) (files : List (List ℕ)) (others : ℕ) (s : CoreState) (l : NfsLists) (current : Option ℕ) (at : ℕ) (o : OpenOwner) (a : OpenArgsItem) (confirmed : Bool) (status : NfsStatus) → goes_on (judged l o a.seqid) ≡ Some confirmed → opened_file files s l o.client at a ≡ Err status → carried n s l (open_judged files others s l current at o a (judged l o a.seqid)) ≡ (Ended status, current, [], refused_lists o a confirmed status l, s) }
    ensures full { (n : ℕ) (files : List (List ℕ)) (others : ℕ) (s : CoreState) (l : NfsLists) (current : Option ℕ) (at : ℕ) (o : OpenOwner) (a : OpenArgsItem) (confirmed : Bool) (file : ℕ) → goes_on (judged l o a.seqid) ≡ Some confirmed → opened_file files s l o.client at a ≡ Ok file → has_room others l o file ≡ false → carried n s l (open_judged files others s l current at o a (judged l o a.seqid)) ≡ (Ended Resource, current, [], l, s) }
{}

/// An OPEN that is OK leaves its owner with one share on the file: what was asked, united with what it had there; so it has
/// the access and the deny that were asked (RFC 7530 9.9). So has an owner that was never confirmed, once what it had is gone.
pub fn opens_are_shares()
    ensures united { (n : ℕ) (files : List (List ℕ)) (others : ℕ) (s : CoreState) (l : NfsLists) (current : Option ℕ) (at : ℕ) (o : OpenOwner) (a : OpenArgsItem) (confirmed : Bool) (file : ℕ) → IsGood s → goes_on (judged l o a.seqid) ≡ Some confirmed → opened_file files s l o.client at a ≡ Ok file → has_room others l o file ≡ true → status_of (carried n s l (open_judged files others s l current at o a (judged l o a.seqid))).0 ≡ Fine → shares_of file (asker (share_ask None o a file) s.names) (carried n s l (open_judged files others s l current at o a (judged l o a.seqid))).4.claims ≡ with_share (united_by (asker (share_ask None o a file) s.names) (Share (rights_of a.access) (rights_of a.deny)) (old_shares file (asker (share_ask None o a file) s.names) s.claims)) [] }
    ensures asked { (n : ℕ) (files : List (List ℕ)) (others : ℕ) (s : CoreState) (l : NfsLists) (current : Option ℕ) (at : ℕ) (o : OpenOwner) (a : OpenArgsItem) (confirmed : Bool) (file : ℕ) → IsGood s → goes_on (judged l o a.seqid) ≡ Some confirmed → opened_file files s l o.client at a ≡ Ok file → has_room others l o file ≡ true → status_of (carried n s l (open_judged files others s l current at o a (judged l o a.seqid))).0 ≡ Fine → IsShared (rights_of a.access) (rights_of a.deny) (shares_of file (asker (share_ask None o a file) s.names) (carried n s l (open_judged files others s l current at o a (judged l o a.seqid))).4.claims) }
    ensures anew { (n : ℕ) (files : List (List ℕ)) (others : ℕ) (s t : CoreState) (l : NfsLists) (current : Option ℕ) (at : ℕ) (o : OpenOwner) (a : OpenArgsItem) (number file : ℕ) → IsGood s → judged l o a.seqid ≡ Anew number → t ≡ all_done n s (gives_all s o (filter (is_whose (OfOwner number)) l.stateids)) → opened_file files t (without_owner number l) o.client at a ≡ Ok file → has_room others (without_owner number l) o file ≡ true → status_of (carried n s l (open_judged files others s l current at o a (judged l o a.seqid))).0 ≡ Fine → IsShared (rights_of a.access) (rights_of a.deny) (shares_of file (asker (share_ask None o a file) t.names) (carried n s l (open_judged files others s l current at o a (judged l o a.seqid))).4.claims) }
{}

/// Of a request on an open that is judged further, the stateid passes exactly if its seqid is the open's own and the
/// owner is confirmed, or of OPEN_CONFIRM isn't yet (RFC 7530 9.1.4, 16.18); and an OPEN_CONFIRM that is done confirms
/// the owner.
pub fn current_stateids_stand()
    ensures stands { (r : StateidRow) (seqids : OwnerSeqids) (seqid : ℕ) (confirmed : Bool) → (standing_fault r seqids seqid confirmed ≡ None) ↔ ((seqid ≡ r.standing.seqid) × (seqids.confirmed ≡ confirmed)) }
    ensures confirms { (n : ℕ) (s : CoreState) (l : NfsLists) (current : Option ℕ) (a : OpenConfirmArgs) (r : StateidRow) (owner : ℕ) (seqids : OwnerSeqids) (o : OwnerRow) → find (is_owner owner) l.owners ≡ Some o → find (is_owner owner) (carried n s l (confirm_done s l current a r owner seqids None)).3.owners ≡ Some (with_seqids (record { seqid = a.seqid; op = 20; confirmed = true; closed = None }) o) }
{}
