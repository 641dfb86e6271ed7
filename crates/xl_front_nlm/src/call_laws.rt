//! Laws of what calls leave, and of what their replies repeat. The functions do nothing: each has laws as its clauses.
ghost use Rattle.std.specs.Prelude.{◌≡◌, ◌≤◌, ◌<◌, ◌^◌, ℕ, true, false, not, List, [], ◌∷◌, Some, Ok};
ghost use Rattle.std.specs.List.{filter, slice_get};
ghost use Rattle.xl_base.specs.Lists.{IsIn};
ghost use Rattle.xl_base.specs.declared.name.Owner.{Owner};
ghost use Rattle.xl_base.specs.declared.name.Party.{Party};
ghost use Rattle.xl_base.specs.declared.name.Protocol.TheVariants.{Nlm};
ghost use Rattle.xl_matrix.specs.Equal.{same_parties};
ghost use Rattle.xl_matrix.specs.declared.claim.Claim.{Claim};
ghost use Rattle.xl_names.specs.Names.{is_kept};
ghost use Rattle.xl_names.specs.declared.name.Name.{Name};
ghost use Rattle.xl_names.specs.declared.name.Name.TheVariants.{NlmParty};
ghost use Rattle.xl_nlm.specs.Items.{TestArgsItem, LockArgsItem, CancelArgsItem, UnlockArgsItem, ShareArgsItem, NotifyItem, HolderItem, CallItem};
ghost use Rattle.xl_nlm.specs.declared.item.NlmStatus.TheVariants.{Granted, Denied};
ghost use Rattle.xl_table.specs.Relock.{shares_of};
ghost use Rattle.xl_wait.specs.Waiting.{cancelled};
ghost use Rattle.xl_wait.specs.declared.waiter.Waiter.{Waiter};
ghost use Rattle.xl_core.specs.Askers.{asker};
ghost use Rattle.xl_core.specs.Bytes.{AreBytes, byte_lock, no_lock};
ghost use Rattle.xl_core.specs.Causes.{stands_against};
ghost use Rattle.xl_core.specs.Good.{IsGood};
ghost use Rattle.xl_core.specs.Settle.{waits_for};
ghost use Rattle.xl_core.specs.declared.ask.Answer.{Answer as Answering};
ghost use Rattle.xl_core.specs.declared.ask.Effect.{Effect};
ghost use Rattle.xl_base.specs.declared.journal.Exports.{Exports};
ghost use Rattle.xl_front_nlm.specs.Grants.{shown};
ghost use Rattle.xl_core.specs.State.{CoreState};
ghost use Rattle.xl_front_nlm.specs.Aims.{exported, last_of, length_of, aimed};
ghost use Rattle.xl_front_nlm.specs.Asks.{rights_of, share_owner, share_ask};
ghost use Rattle.xl_front_nlm.specs.Hosts.{host_rows, is_host, makes_host};
ghost use Rattle.xl_front_nlm.specs.Left.{unlock_claim, test_claim, IsForThat, cookie_of, cookie_told, IsHolder};
ghost use Rattle.xl_front_nlm.specs.Results.{status_of, test_holder, reply_of};
ghost use Rattle.xl_front_nlm.specs.Serving.{served};
ghost use Rattle.xl_front_nlm.specs.State.{FrontState};
ghost use Rattle.xl_front_nlm.specs.Statuses.{lock_claim};
ghost use Rattle.xl_front_nlm.specs.declared.aim.Aim.{Aim};
ghost use Rattle.xl_front_nlm.specs.declared.outcome.Outcome.{Outcome};

/// A LOCK or NM_LOCK that is GRANTED leaves each byte of its range to its owner, in its mode, and each other byte, each byte of
/// another owner and of another file as they were; its caller is a host from then on (XNFS C702, NLM_LOCK).
pub fn granted_locks_are_held()
    ensures locks { (n count : ℕ) (f : FrontState) (s : CoreState) (a : LockArgsItem) (at : Aim) → IsGood s → aimed count a.lock ≡ Ok at → let r = served n count f s (CallItem.Lock a) in status_of r.0 ≡ Granted → AreBytes (lock_claim f.hosts s a at) at.first at.last (byte_lock a.exclusive) s r.3 × (is_host a.lock.caller_name r.2.hosts ≡ true) }
    ensures nm_locks { (n count : ℕ) (f : FrontState) (s : CoreState) (a : LockArgsItem) (at : Aim) → IsGood s → aimed count a.lock ≡ Ok at → let r = served n count f s (CallItem.NmLock a) in status_of r.0 ≡ Granted → AreBytes (lock_claim f.hosts s a at) at.first at.last (byte_lock a.exclusive) s r.3 × (is_host a.lock.caller_name r.2.hosts ≡ true) }
{}

/// An UNLOCK that is GRANTED leaves its owner no byte of its range, whether it had some or not, and each other byte, each byte
/// of another owner and of another file as they were (XNFS C702, NLM_UNLOCK).
#[tactic(auto, using(crate::proofs::LeftLaws::unlocks_are_free))]
pub fn unlocked_bytes_are_free()
    ensures { (n count : ℕ) (f : FrontState) (s : CoreState) (a : UnlockArgsItem) (at : Aim) → IsGood s → aimed count a.lock ≡ Ok at → let r = served n count f s (CallItem.Unlock a) in status_of r.0 ≡ Granted → AreBytes (unlock_claim s a at) at.first at.last no_lock s r.3 }
{}

/// After a SHARE that is GRANTED its owner has just this share of the file, and its caller is a host; after an UNSHARE the
/// owner of that name has none (XNFS C702, NLM_SHARE, NLM_UNSHARE).
#[tactic(auto, using(crate::proofs::LeftLaws::shares_are_held, crate::proofs::LeftLaws::unshared_are_free))]
pub fn shares_come_and_go()
    ensures shared { (n count : ℕ) (f : FrontState) (s : CoreState) (a : ShareArgsItem) (file : ℕ) → IsGood s → exported count a.fh ≡ Some file → let r = served n count f s (CallItem.Share a) in status_of r.0 ≡ Granted → (shares_of file (asker (share_ask (host_rows a.caller_name f.hosts) a file) s.names) r.3.claims ≡ (rights_of a.access, rights_of a.mode) ∷ []) × (is_host a.caller_name r.2.hosts ≡ true) }
    ensures unshared { (n count : ℕ) (f : FrontState) (s : CoreState) (a : ShareArgsItem) (file number : ℕ) → IsGood s → exported count a.fh ≡ Some file → slice_get s.names number ≡ Some (share_owner a) → shares_of file (Owner.Name Nlm number) (served n count f s (CallItem.Unshare a)).3.claims ≡ [] }
{}

/// A CANCEL that is GRANTED takes out one who waits for just that lock, of the same owner, file, range and mode, and changes
/// nothing else; one that is DENIED found nobody who does, and changes nothing (XNFS C702, NLM_CANCEL).
pub fn cancelled_locks_wait_no_more()
    ensures { (n count : ℕ) (f : FrontState) (s : CoreState) (a : CancelArgsItem) (at : Aim) → IsGood s → aimed count a.lock ≡ Ok at → let r = served n count f s (CallItem.Cancel a) in (status_of r.0 ≡ Granted → (w : Waiter) × IsIn w s.waiters × IsForThat s a.lock a.exclusive at w × (r.3 ≡ record s { waiters = cancelled w.id s.waiters })) × (status_of r.0 ≡ Denied → ((w : Waiter) → IsIn w s.waiters → IsForThat s a.lock a.exclusive at w → ⊥) × (r.3 ≡ s)) }
{}

/// After a FREE_ALL its caller holds nothing and doesn't wait; all others hold what they held, and wait. A caller that is
/// unknown has nothing before either (XNFS C702, NLM_FREE_ALL).
pub fn freed_callers_have_nothing()
    ensures freed { (n count : ℕ) (f : FrontState) (s : CoreState) (a : NotifyItem) (number : ℕ) → IsGood s → slice_get s.names number ≡ Some (NlmParty a.name) → let t = (served n count f s (CallItem.FreeAll a)).3 in (t.claims ≡ filter (λ c. not (same_parties c.party (Party.Name Nlm number))) s.claims) × (t.waiters ≡ filter (λ w. not (waits_for (Party.Name Nlm number) w)) s.waiters) }
    ensures unknown { (n count : ℕ) (f : FrontState) (s : CoreState) (a : NotifyItem) → is_kept (NlmParty a.name) s.names ≡ false → (served n count f s (CallItem.FreeAll a)).3 ≡ s }
{}

/// A reply has its call's cookie, if its results have one. The length that is sent of a range reaches from its first byte to
/// its last. A TEST that is DENIED gives a range that is held and stands against it: its mode, its bytes, and the process and
/// the handle of its owner (XNFS C702, nlm4_holder).
#[tactic(auto, using(crate::proofs::LeftLaws::cookie_repeated, crate::proofs::LeftLaws::length_reaches, crate::proofs::LeftLaws::tests_give_a_holder))]
pub fn replies_name_what_they_answer()
    ensures cookies { (names : List Name) (call : CallItem) (outcome : Outcome) → cookie_told (reply_of names call outcome) ≡ cookie_of call }
    ensures lengths { (first last : ℕ) → first ≤ last → last < 2 ^ 64 → last_of first (length_of first last) ≡ Some last }
    ensures holders { (names : List Name) (n count : ℕ) (f : FrontState) (s : CoreState) (a : TestArgsItem) (at : Aim) (h : HolderItem) → aimed count a.lock ≡ Ok at → test_holder names (served n count f s (CallItem.Test a)).0 ≡ Some h → (c : Claim) × IsIn c s.claims × (stands_against (test_claim s a at) c ≡ true) × IsHolder names c h }
{}

/// The caller of a LOCK, a NM_LOCK or a SHARE that the core grants, or lets wait, is a host from then on; and each host stays one,
/// whatever a call asks, and as clients are told of their grants (XNFS C702, NLM_FREE_ALL).
#[tactic(auto, using(crate::proofs::HostKeptLaws::lockers_come, crate::proofs::HostKeptLaws::nm_lockers_come, crate::proofs::HostKeptLaws::sharers_come, crate::proofs::HostKeptLaws::hosts_stay, crate::proofs::HostKeptLaws::shown_hosts))]
pub fn grants_make_hosts()
    ensures locks { (n count : ℕ) (f : FrontState) (s : CoreState) (a : LockArgsItem) (at : Aim) (answer : Answering) → aimed count a.lock ≡ Ok at → let r = served n count f s (CallItem.Lock a) in r.0 ≡ Outcome.Answered answer → makes_host answer ≡ true → is_host a.lock.caller_name r.2.hosts ≡ true }
    ensures nm_locks { (n count : ℕ) (f : FrontState) (s : CoreState) (a : LockArgsItem) (at : Aim) (answer : Answering) → aimed count a.lock ≡ Ok at → let r = served n count f s (CallItem.NmLock a) in r.0 ≡ Outcome.Answered answer → makes_host answer ≡ true → is_host a.lock.caller_name r.2.hosts ≡ true }
    ensures shares { (n count : ℕ) (f : FrontState) (s : CoreState) (a : ShareArgsItem) (file : ℕ) (answer : Answering) → exported count a.fh ≡ Some file → let r = served n count f s (CallItem.Share a) in r.0 ≡ Outcome.Answered answer → makes_host answer ≡ true → is_host a.caller_name r.2.hosts ≡ true }
    ensures calls { (n count : ℕ) (f : FrontState) (s : CoreState) (call : CallItem) (caller : List ℕ) → is_host caller f.hosts ≡ true → is_host caller (served n count f s call).2.hosts ≡ true }
    ensures grants { (exports : Exports) (f : FrontState) (s : CoreState) (effect : Effect) → (shown exports f s effect).1.hosts ≡ f.hosts }
{}
