//! Laws of the requests that wait. The functions do nothing: their clauses are the laws.
ghost use Rattle.std.specs.Prelude.{◌≡◌, ℕ, nat_eq, true, false, List, [], Some};
ghost use Rattle.std.specs.List.{AllByRecursion, IsDistinct, list_any};
ghost use Rattle.std.specs.Map.{keys_of};
ghost use Rattle.xl_base.specs.Lists.{IsIn};
ghost use Rattle.xl_base.specs.declared.journal.Exports.{Exports};
ghost use Rattle.xl_base.specs.declared.name.Owner.TheVariants as Owner;
ghost use Rattle.xl_base.specs.declared.name.Party.{Party};
ghost use Rattle.xl_matrix.specs.declared.claim.Claim.{Claim};
ghost use Rattle.xl_smb_state.specs.Links.{AreDistinct, IsSound};
ghost use Rattle.xl_smb_state.specs.State.{Lists, open_of};
ghost use Rattle.xl_smb_state.specs.declared.row.Open.{Open};
ghost use Rattle.xl_smb_state.specs.declared.row.Waiting.{Waiting};
ghost use Rattle.xl_wait.specs.Waiting.{is_waiting};
ghost use Rattle.xl_wait.specs.declared.waiter.Rooms.{Rooms};
ghost use Rattle.xl_wait.specs.declared.waiter.Waiter.{Waiter};
ghost use Rattle.xl_core.specs.Askers.{IsFit};
ghost use Rattle.xl_core.specs.Decide.{ask};
ghost use Rattle.xl_core.specs.Deeds.{Deed, AreFit, all_done, all_told_of};
ghost use Rattle.xl_core.specs.Good.{IsGood};
ghost use Rattle.xl_core.specs.State.{CoreState};
ghost use Rattle.xl_core.specs.declared.ask.Answer.TheVariants as Answer;
ghost use Rattle.xl_core.specs.declared.ask.Ask.{Ask};
ghost use Rattle.xl_core.specs.declared.ask.Effect.{Effect};
ghost use Rattle.xl_core.specs.declared.ask.Effect.TheVariants as Effect;
ghost use Rattle.xl_plan.specs.Plans.{AllAt};
ghost use Rattle.xl_smb_locks.specs.Finals.{final_outs};
ghost use Rattle.xl_smb_locks.specs.declared.finals.FinalReply.TheVariants.{Opened};
ghost use Rattle.xl_core.specs.Ids.{id_of};
ghost use Rattle.xl_smb_locks.specs.Levels.{caching};
ghost use Rattle.xl_smb_laws.specs.WaitingRequests.{AreAwaited, AreKept, IsAwaited, IsGranted, SparesSmb, ends_wait, is_open_ask, serves_request};
ghost use Rattle.xl_front_smb.specs.Ending.{smb_end};
ghost use Rattle.xl_front_smb.specs.FrontSmb.{smb_shown, smb_step};
ghost use Rattle.xl_front_smb.specs.Laws.{IsLeased};
ghost use Rattle.xl_front_smb.specs.Plans.{has_room_to_wait};
ghost use Rattle.xl_front_smb.specs.State.{FrontSmb, empty_smb_front, smb_begin};

/// Each request that waits in the front's lists is a waiter of the core, of the request's open; that is under the
/// connection that the request came by, or, if the request makes it, may stand once it is granted: on the tree connect
/// that the request came by, which is there, under a number that no open has and no other request waits for, and under
/// a lease whose key is in use on its file alone (MS-SMB2 3.3.4.2, 3.3.5.9, 3.3.5.9.8). So it is at a start, and stays
/// if a connection opens or ends, and whatever a message does; behind any deeds of the core it is so of each of which
/// they don't tell that it waits no more, and of all behind deeds that leave SMB's waiters; and if the core tells that one
/// is served, the others are all that is left. So there is room for each that is let wait, and it is kept.
pub fn waiting_requests_are_awaited()
    ensures kept { (n : ℕ) (left : Rooms) (s : CoreState) (l : Lists) (a : Ask) (id : ℕ) → IsGood s → IsFit a → IsDistinct nat_eq (keys_of l.waiting) → AreAwaited s l → (ask n left s a).0 ≡ Answer.Queued id → has_room_to_wait l id ≡ true }
    ensures waits { (s : CoreState) (l : Lists) → AreAwaited s l → AllByRecursion (λ e. is_waiting e.0 s.waiters ≡ true) l.waiting }
    ensures start { (s : CoreState) → AreAwaited s empty_smb_front.state }
    ensures begins { (f : FrontSmb) (s : CoreState) (conn : ℕ) → AreAwaited s f.state → AreAwaited s (smb_begin f conn).state }
    ensures messages { (n : ℕ) (exports : Exports) (others : ℕ) (f : FrontSmb) (s : CoreState) (conn : ℕ) (bytes : List ℕ) → IsGood s → AreDistinct f.state → AreAwaited s f.state → AreAwaited (smb_step n exports others f s conn bytes).3 (smb_step n exports others f s conn bytes).2.state }
    ensures shown { (f : FrontSmb) (s : CoreState) (effect : Effect) → IsDistinct nat_eq (keys_of f.state.waiting) → ((e : ℕ × Waiting) → IsIn e f.state.waiting → serves_request e.0 effect ≡ false → IsAwaited s f.state e) → AreAwaited s (smb_shown f s effect).1.state }
    ensures ends { (f : FrontSmb) (s : CoreState) (conn : ℕ) → IsSound f.state → AreDistinct f.state → AreAwaited s f.state → AreAwaited (smb_end f s conn).2 (smb_end f s conn).1.state }
    ensures deeds { (n : ℕ) (s : CoreState) (l : Lists) (ds : List Deed) (e : ℕ × Waiting) → IsGood s → AreFit n s ds → AreAwaited s l → IsIn e l.waiting → list_any (ends_wait e.0) (all_told_of n s ds) ≡ false → IsAwaited (all_done n s ds) l e }
    ensures spared { (n : ℕ) (s : CoreState) (l : Lists) (ds : List Deed) → IsGood s → AreFit n s ds → AllAt SparesSmb n s ds → AreAwaited s l → AreAwaited (all_done n s ds) l }
{}

/// Each waiter of the core that asks for claims of an SMB open has its row in the front's lists, under its number and
/// of this open: so who is served, or waits no more, is answered (MS-SMB2 3.3.4.2). So it is at a start, as nobody
/// waits, and stays if a connection opens or ends, whatever a message does, and behind any deeds of the core that are
/// no asks by an SMB open; of who waits still no effect says that it waits no more, and its row stays behind an effect
/// that doesn't.
pub fn waiters_of_opens_are_kept()
    ensures start { (s : CoreState) → s.waiters ≡ [] → AreKept s empty_smb_front.state }
    ensures begins { (f : FrontSmb) (s : CoreState) (conn : ℕ) → AreKept s f.state → AreKept s (smb_begin f conn).state }
    ensures messages { (n : ℕ) (exports : Exports) (others : ℕ) (f : FrontSmb) (s : CoreState) (conn : ℕ) (bytes : List ℕ) → IsGood s → AreDistinct f.state → AreAwaited s f.state → AreKept s f.state → AreKept (smb_step n exports others f s conn bytes).3 (smb_step n exports others f s conn bytes).2.state }
    ensures shown { (f : FrontSmb) (s : CoreState) (effect : Effect) → ((w : Waiter) → IsIn w s.waiters → ends_wait w.id effect ≡ false) → AreKept s f.state → AreKept s (smb_shown f s effect).1.state }
    ensures ends { (f : FrontSmb) (s : CoreState) (conn : ℕ) → IsGood s → AreAwaited s f.state → AreKept s f.state → AreKept (smb_end f s conn).2 (smb_end f s conn).1.state }
    ensures deeds { (n : ℕ) (s : CoreState) (l : Lists) (ds : List Deed) → IsGood s → AreFit n s ds → AllByRecursion (λ d. is_open_ask d ≡ false) ds → AreKept s l → AreKept (all_done n s ds) l }
    ensures still { (n : ℕ) (s : CoreState) (ds : List Deed) (w : Waiter) → IsGood s → AreFit n s ds → IsIn w (all_done n s ds).waiters → list_any (ends_wait w.id) (all_told_of n s ds) ≡ false }
{}

/// A CREATE that waited and is granted stands: the share that is granted is its open's, on the open's file; the open is in the
/// lists under its number then, and under the lease that it asks for, if it does, which is on its file; and its reply is
/// STATUS_SUCCESS, with what the open has of caches (MS-SMB2 3.3.4.4, 3.3.5.9, 3.3.5.9.8). So no share is held of an open that
/// isn't there, and no lease's cache beside an open of it that its lease doesn't know.
pub fn granted_creates_stand()
    ensures share { (n : ℕ) (left : Rooms) (s t : CoreState) (f : FrontSmb) (party : Party) (id : ℕ) (row : Waiting) (made : Open) (claim : Claim) → IsGood s → AreAwaited s f.state → IsGranted n left s t f.state party id row made claim → (claim.owner ≡ Owner.Open row.opened) × (claim.file ≡ made.file) }
    ensures stands { (n : ℕ) (left : Rooms) (s t u : CoreState) (f : FrontSmb) (party : Party) (id : ℕ) (row : Waiting) (made : Open) (claim : Claim) → IsGood s → AreAwaited s f.state → IsGranted n left s t f.state party id row made claim → open_of row.opened (smb_shown f u (Effect.Served party id (Answer.Granted claim))).1.state ≡ Some made }
    ensures leased { (n : ℕ) (left : Rooms) (s t u : CoreState) (f : FrontSmb) (party : Party) (id : ℕ) (row : Waiting) (made : Open) (claim : Claim) → IsGood s → AreAwaited s f.state → IsGranted n left s t f.state party id row made claim → IsLeased (smb_shown f u (Effect.Served party id (Answer.Granted claim))).1.state row.opened made }
    ensures told { (n : ℕ) (left : Rooms) (s t u : CoreState) (f : FrontSmb) (party : Party) (id : ℕ) (row : Waiting) (made : Open) (claim : Claim) → IsGood s → AreAwaited s f.state → IsGranted n left s t f.state party id row made claim → (smb_shown f u (Effect.Served party id (Answer.Granted claim))).0 ≡ final_outs id row (Opened (id_of u row.opened) (caching u row.opened made)) }
{}
