//! Laws of what an OPEN is answered beside its stateid. The functions do nothing: each has laws as its clauses.
ghost use Rattle.std.specs.Prelude.{◌≡◌, ℕ, Bool, List, Option, Some, None};
ghost use Rattle.xl_nfs.specs.Opens.{OpenArgsItem};
ghost use Rattle.xl_nfs.specs.declared.basics.Stateid.{Stateid};
ghost use Rattle.xl_nfs_state.specs.State.{NfsLists};
ghost use Rattle.xl_core.specs.Good.{IsGood};
ghost use Rattle.xl_core.specs.State.{CoreState};
ghost use Rattle.xl_nfs_opens.specs.Opens.{judged, open_judged};
ghost use Rattle.xl_nfs_opens.specs.Plans.{carried};
ghost use Rattle.xl_nfs_opens.specs.declared.opener.Opener.{Opener as OpenOwner};
ghost use Rattle.xl_nfs_opens.specs.declared.told.Told.TheVariants.{Opened};
ghost use Rattle.xl_nfs_laws.specs.Delegated.{delegation_held};
ghost use Rattle.xl_nfs_laws.specs.OpenAnswers.{IsFlagged};
ghost use Rattle.xl_nfs_laws.specs.Orderly.{IsOrderly};

/// An OPEN that is OK is answered the flag OPEN4_RESULT_CONFIRM exactly if its owner isn't confirmed then, and with it no
/// delegation; no other flag is answered. Its owner is confirmed exactly if it was before, or if the file was open before a
/// restart (RFC 7530 16.16, 16.18).
pub fn unconfirmed_owners_are_to_confirm()
    ensures { (n : ℕ) (files : List (List ℕ)) (others : ℕ) (s : CoreState) (l : NfsLists) (current : Option ℕ) (at : ℕ) (o : OpenOwner) (a : OpenArgsItem) (stateid : Stateid) (flags : ℕ) (delegation : Option (Stateid × Bool)) → IsOrderly l → (carried n s l (open_judged files others s l current at o a (judged l o a.seqid))).0 ≡ Opened stateid flags delegation → IsFlagged o a l flags delegation (carried n s l (open_judged files others s l current at o a (judged l o a.seqid))) }
{}

/// An OPEN that is OK is answered a delegation exactly if its client came to have one on the file: if it is answered none, the
/// client has what it had there, and if it is answered one, the client had none (what it has then, says
/// `told_delegations_are_held`; RFC 7530 10.4).
pub fn delegations_that_come_are_told()
    ensures silent { (n : ℕ) (files : List (List ℕ)) (others : ℕ) (s : CoreState) (l : NfsLists) (current : Option ℕ) (at : ℕ) (o : OpenOwner) (a : OpenArgsItem) (stateid : Stateid) (flags file : ℕ) → IsGood s → (carried n s l (open_judged files others s l current at o a (judged l o a.seqid))).0 ≡ Opened stateid flags None → (carried n s l (open_judged files others s l current at o a (judged l o a.seqid))).1 ≡ Some file → delegation_held (carried n s l (open_judged files others s l current at o a (judged l o a.seqid))).4 o.id file ≡ delegation_held s o.id file }
    ensures fresh { (n : ℕ) (files : List (List ℕ)) (others : ℕ) (s : CoreState) (l : NfsLists) (current : Option ℕ) (at : ℕ) (o : OpenOwner) (a : OpenArgsItem) (stateid : Stateid) (flags file : ℕ) (given : Stateid × Bool) → IsGood s → (carried n s l (open_judged files others s l current at o a (judged l o a.seqid))).0 ≡ Opened stateid flags (Some given) → (carried n s l (open_judged files others s l current at o a (judged l o a.seqid))).1 ≡ Some file → delegation_held s o.id file ≡ None }
{}
