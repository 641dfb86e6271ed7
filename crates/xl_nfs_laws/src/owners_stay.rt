//! Laws of owners: which go, and what those of locks close. The functions do nothing: each has laws as its clauses.
ghost use Rattle.std.specs.List.{find};
ghost use Rattle.std.specs.Prelude.{◌≡◌, ℕ, false, List, Option, Some};
ghost use Rattle.xl_base.specs.declared.event.Moment.{Moment};
ghost use Rattle.xl_base.specs.declared.journal.Exports.{Exports};
ghost use Rattle.xl_nfs.specs.Ops.{OpItem};
ghost use Rattle.xl_nfs_state.specs.State.{NfsLists, is_owner};
ghost use Rattle.xl_nfs_state.specs.declared.owner.OwnerRow.{OwnerRow};
ghost use Rattle.xl_programs.specs.Programs.{RequestItem};
ghost use Rattle.xl_core.specs.State.{CoreState};
ghost use Rattle.xl_core.specs.declared.ask.Effect.{Effect as CoreEffect};
ghost use Rattle.xl_nfs_laws.specs.AnsweredStateids.{LockersCloseNothing};
ghost use Rattle.xl_nfs_laws.specs.Orderly.{IsOrderly};
ghost use Rattle.xl_nfs_laws.specs.OwnersStay.{is_expired, may_go, name_numbered};
ghost use Rattle.xl_nfs_opens.specs.Plans.{carried};
ghost use Rattle.xl_front_nfs.specs.FrontNfs.{nfs_step};
ghost use Rattle.xl_front_nfs.specs.State.{empty_nfs_front, FrontNfs, nfs_shown, nfs_tick};
ghost use Rattle.xl_front_nfs.specs.Steps.{planned};

/// An owner of locks has closed nothing by its last request, as it makes no CLOSE (RFC 7530 9.1.8, 16.2). So it is at a start,
/// and stays by each operation, by a whole request, as time passes and as clients expire; so it is at all times.
pub fn lock_owners_close_nothing()
    ensures start { LockersCloseNothing empty_nfs_front.state }
    ensures operations { (n : ℕ) (files : List (List ℕ)) (others : ℕ) (s : CoreState) (l : NfsLists) (current : Option ℕ) (item : OpItem) → IsOrderly l → LockersCloseNothing l → LockersCloseNothing (carried n s l (planned files others s l current item)).3 }
    ensures requests { (n : ℕ) (exports : Exports) (others : ℕ) (f : FrontNfs) (s : CoreState) (conn : ℕ) (r : RequestItem) → IsOrderly f.state → LockersCloseNothing f.state → LockersCloseNothing (nfs_step n exports others f s conn r).2.state }
    ensures ticks { (f : FrontNfs) (now : Moment) → LockersCloseNothing f.state → LockersCloseNothing (nfs_tick f now).state }
    ensures shown { (f : FrontNfs) (effect : CoreEffect) → LockersCloseNothing f.state → LockersCloseNothing (nfs_shown f effect).state }
{}

/// An owner that is there stays, under its number and its name, with the seqid of its last request or of the one that counts
/// (RFC 7530 9.1.7, 9.1.8). It goes in three ways alone: by a RELEASE_LOCKOWNER of it, by the next OPEN of one that was never
/// confirmed, and with its client, which starts anew by a SETCLIENTID_CONFIRM under another clientid or whose lease ends (9.5,
/// 16.34.5, 16.37).
pub fn owners_go_for_a_cause()
    ensures operations { (n : ℕ) (files : List (List ℕ)) (others : ℕ) (s : CoreState) (l : NfsLists) (current : Option ℕ) (item : OpItem) (number : ℕ) (o : OwnerRow) → IsOrderly l → find (is_owner number) l.owners ≡ Some o → may_go s l item o ≡ false → name_numbered number (carried n s l (planned files others s l current item)).3.owners ≡ Some o.name }
    ensures ticks { (f : FrontNfs) (now : Moment) → (nfs_tick f now).state.owners ≡ f.state.owners }
    ensures shown { (f : FrontNfs) (effect : CoreEffect) (number : ℕ) (o : OwnerRow) → find (is_owner number) f.state.owners ≡ Some o → is_expired f.state effect o ≡ false → name_numbered number (nfs_shown f effect).state.owners ≡ Some o.name }
{}
