//! Laws of leases (RFC 7530 9.1.1, 9.5). The function does nothing: its clauses are the laws.
ghost use Rattle.std.specs.Prelude.{◌≡◌, ℕ, List, ◌∷◌, Option};
ghost use Rattle.xl_base.specs.Stable.{Stable as StableRecord};
ghost use Rattle.xl_base.specs.declared.event.Moment.{Moment};
ghost use Rattle.xl_base.specs.declared.journal.Exports.{Exports};
ghost use Rattle.xl_nfs.specs.Ops.{OpItem};
ghost use Rattle.xl_nfs_state.specs.State.{NfsLists};
ghost use Rattle.xl_programs.specs.Programs.{RequestItem};
ghost use Rattle.xl_core.specs.Good.{IsGood};
ghost use Rattle.xl_core.specs.Leases.{without_lease};
ghost use Rattle.xl_core.specs.State.{CoreState, started};
ghost use Rattle.xl_core.specs.declared.ask.Effect.TheVariants.{Expired};
ghost use Rattle.xl_core.specs.declared.lease.Times.{Times as CoreTimes};
ghost use Rattle.xl_front_nfs.specs.FrontNfs.{nfs_step};
ghost use Rattle.xl_front_nfs.specs.State.{empty_nfs_front, FrontNfs, nfs_shown, nfs_tick};
ghost use Rattle.xl_front_nfs.specs.Steps.{planned};
ghost use Rattle.xl_nfs_laws.specs.Delegated.{AreClients, AreSet, AreTied};
ghost use Rattle.xl_nfs_laws.specs.Leased.{AreLeased, AreLeasedBut};
ghost use Rattle.xl_nfs_laws.specs.Orderly.{IsOrderly};
ghost use Rattle.xl_nfs_opens.specs.Plans.{carried};

/// Each client has a lease exactly if its record is confirmed (RFC 7530 9.1.1, 9.5). So it is at a start, and stays by each
/// operation, by a whole request, and as unconfirmed records go. If a client expires its lease is over, and once the front is
/// told its record is gone.
pub fn confirmed_clients_have_leases()
    ensures start { (stable : StableRecord) (clock : Moment) (times : CoreTimes) → AreLeased (started stable clock times) empty_nfs_front.state }
    ensures operations { (n : ℕ) (files : List (List ℕ)) (others : ℕ) (s : CoreState) (l : NfsLists) (current : Option ℕ) (item : OpItem) → IsGood s → AreClients s.counter l.clients → AreLeased s l → AreLeased (carried n s l (planned files others s l current item)).4 (carried n s l (planned files others s l current item)).3 }
    ensures requests { (n : ℕ) (exports : Exports) (others : ℕ) (f : FrontNfs) (s : CoreState) (conn : ℕ) (r : RequestItem) → IsGood s → IsOrderly f.state → AreTied s f.state → AreLeased s f.state → AreLeased (nfs_step n exports others f s conn r).3 (nfs_step n exports others f s conn r).2.state }
    ensures ticks { (gone : List (List ℕ)) (s : CoreState) (f : FrontNfs) (now : Moment) → AreLeasedBut gone s f.state → AreLeasedBut gone s (nfs_tick f now).state }
    ensures expires { (gone : List (List ℕ)) (s t : CoreState) (l : NfsLists) (id : List ℕ) → t.leases ≡ without_lease id s.leases → AreLeasedBut gone s l → AreLeasedBut (id ∷ gone) t l }
    ensures shown { (s : CoreState) (gone : List (List ℕ)) (f : FrontNfs) (id : List ℕ) → AreSet s.counter f.state → AreLeasedBut (id ∷ gone) s f.state → AreLeasedBut gone s (nfs_shown f (Expired id)).state }
{}
