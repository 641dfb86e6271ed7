//! Laws of the numbers of stateids. The function does nothing: it has laws as its clauses.
ghost use Rattle.std.specs.Prelude.{ℕ, List, Option};
ghost use Rattle.xl_base.specs.declared.event.Moment.{Moment};
ghost use Rattle.xl_base.specs.declared.journal.Exports.{Exports};
ghost use Rattle.xl_nfs.specs.Ops.{OpItem};
ghost use Rattle.xl_nfs_state.specs.State.{NfsLists};
ghost use Rattle.xl_programs.specs.Programs.{RequestItem};
ghost use Rattle.xl_core.specs.Good.{IsGood};
ghost use Rattle.xl_core.specs.State.{CoreState};
ghost use Rattle.xl_core.specs.declared.ask.Effect.{Effect as CoreEffect};
ghost use Rattle.xl_nfs_laws.specs.StateidNumbers.{AreGivenOut, StayGivenOut};
ghost use Rattle.xl_nfs_opens.specs.Plans.{carried};
ghost use Rattle.xl_front_nfs.specs.FrontNfs.{nfs_step};
ghost use Rattle.xl_front_nfs.specs.State.{empty_nfs_front, FrontNfs, nfs_shown, nfs_tick};
ghost use Rattle.xl_front_nfs.specs.Steps.{planned};

/// Each stateid has a number that the core gave out, so that none names two (RFC 7530 9.1.4). So it is at a start, and stays by
/// each operation, by a whole request, as time passes and as clients expire.
pub fn stateids_have_given_numbers()
    ensures start { (last : ℕ) → AreGivenOut last empty_nfs_front.state }
    ensures operations { (n : ℕ) (files : List (List ℕ)) (others : ℕ) (s : CoreState) (l : NfsLists) (current : Option ℕ) (item : OpItem) → IsGood s → AreGivenOut s.counter l → StayGivenOut s (carried n s l (planned files others s l current item)) }
    ensures requests { (n : ℕ) (exports : Exports) (others : ℕ) (f : FrontNfs) (s : CoreState) (conn : ℕ) (r : RequestItem) → IsGood s → AreGivenOut s.counter f.state → AreGivenOut (nfs_step n exports others f s conn r).3.counter (nfs_step n exports others f s conn r).2.state }
    ensures ticks { (last : ℕ) (f : FrontNfs) (now : Moment) → AreGivenOut last f.state → AreGivenOut last (nfs_tick f now).state }
    ensures shown { (last : ℕ) (f : FrontNfs) (effect : CoreEffect) → AreGivenOut last f.state → AreGivenOut last (nfs_shown f effect).state }
{}
