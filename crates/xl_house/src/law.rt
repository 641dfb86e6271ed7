//! Laws of the house. The functions do nothing.
ghost use Rattle.std.specs.Prelude.{◌≡◌, ℕ, nat_lt, Bool, true, false, List, [], ◌∷◌, ◌++◌, Option, Some, None, is_some, ◌==◌, find};
ghost use Rattle.std.specs.List.{list_any};
ghost use Rattle.xl_base.specs.Lists.{IsIn};
ghost use Rattle.xl_base.specs.Stable.{is_kept, is_recordable, is_recorded};
ghost use Rattle.xl_base.specs.declared.event.Event.TheVariants.{Message, Tick, Called, Restart};
ghost use Rattle.xl_base.specs.declared.event.Moment.{Moment};
ghost use Rattle.xl_base.specs.declared.event.Out.{Out};
ghost use Rattle.xl_base.specs.declared.journal.Entry.{Entry};
ghost use Rattle.xl_base.specs.declared.journal.Exports.{Exports};
ghost use Rattle.xl_base.specs.declared.name.Owner.{Owner};
ghost use Rattle.xl_base.specs.declared.name.Owner.TheVariants.{Name as ByName};
ghost use Rattle.xl_base.specs.declared.name.Party.{Party};
ghost use Rattle.xl_base.specs.declared.name.Protocol.TheVariants.{Nfs};
ghost use Rattle.xl_base.specs.declared.stable.Recorded.{Recorded};
ghost use Rattle.xl_cache.specs.BreakPlans.{is_running, is_obstacle};
ghost use Rattle.xl_grace.specs.Grace.{Running, is_known};
ghost use Rattle.xl_matrix.specs.declared.claim.Break.{Break};
ghost use Rattle.xl_matrix.specs.declared.claim.CacheKind.{CacheKind};
ghost use Rattle.xl_matrix.specs.declared.claim.Claim.{Claim};
ghost use Rattle.xl_matrix.specs.declared.claim.Extent.{Extent};
ghost use Rattle.xl_matrix.specs.declared.claim.Rwd.{Rwd};
ghost use Rattle.xl_wait.specs.declared.waiter.Rooms.{Rooms};
ghost use Rattle.xl_wait.specs.declared.waiter.Waiter.{Waiter};
ghost use Rattle.xl_core.specs.BreakAnswers.{may_be_left};
ghost use Rattle.xl_core.specs.Causes.{asks_claims, stands_against};
ghost use Rattle.xl_core.specs.Deeds.{Asks, Weakens, Acks, Serves, Draws, all_done, given};
ghost use Rattle.xl_core.specs.Dues.{IsPutOff};
ghost use Rattle.xl_core.specs.Leases.{Lease, ended};
ghost use Rattle.xl_core.specs.Settle.{settle, share_has, waits_as};
ghost use Rattle.xl_core.specs.Smallest.{all_room, smallest_lock, unnamed};
ghost use Rattle.xl_core.specs.State.{CoreState, started};
ghost use Rattle.xl_core.specs.declared.ask.Act.{Act};
ghost use Rattle.xl_core.specs.declared.ask.Answer.{Answer};
ghost use Rattle.xl_core.specs.declared.ask.Ask.{Ask};
ghost use Rattle.xl_core.specs.declared.ask.Effect.{Effect};
ghost use Rattle.xl_core.specs.declared.lease.Times.{Times};
ghost use Rattle.xl_smb_state.specs.State.{open_of, waiting_of, Lists};
ghost use Rattle.xl_smb_state.specs.declared.row.Holder.{Holder};
ghost use Rattle.xl_smb_state.specs.declared.row.Open.{Open};
ghost use Rattle.xl_smb_state.specs.declared.row.Place.{Place};
ghost use Rattle.xl_smb_state.specs.declared.row.Waiting.{Waiting};
ghost use Rattle.xl_house.specs.Steady.{IsSteady};
ghost use Rattle.xl_matrix.specs.declared.claim.What.{What};
ghost use Rattle.xl_wait.specs.Waiting.{waits_on};
ghost use Rattle.xl_core.specs.Places.{CacheOf, held_at};
ghost use Rattle.xl_house.specs.Wished.{IsWished};
ghost use Rattle.xl_table.specs.Flat.{blocks};
ghost use Rattle.xl_core.specs.Askers.{asked_what, asked_whats, asked_claims};
ghost use Rattle.xl_core.specs.Blockers.{is_stopped};
ghost use Rattle.xl_core.specs.Decide.{way, ask};
ghost use Rattle.xl_house.specs.Breaking.{IsBroken, IsFirstOf, HasBegun};
ghost use Rattle.xl_house.specs.Entries.{IsKeeping};
ghost use Rattle.xl_names.specs.declared.name.Name.{Name};
ghost use Rattle.xl_table.specs.Held.{is_cache};
ghost use Rattle.xl_smb_state.specs.declared.row.Scope.{Scope};
ghost use Rattle.xl_front_nlm.specs.Answers.{refuses};
ghost use Rattle.xl_front_nlm.specs.Grants.{grant_of};
ghost use Rattle.xl_front_nlm.specs.declared.call.GrantedCall.{GrantedCall};
ghost use Rattle.xl_front_nlm.specs.declared.grant.Grant.{Grant};
ghost use Rattle.xl_smb_laws.specs.OpenRights.{is_held_under};
ghost use Rattle.xl_house.specs.Owed.{own_deeds, IsOwed, AreGone};
ghost use Rattle.xl_house.specs.Journals.{IsLegal, replay};
ghost use Rattle.xl_house.specs.Recording.{IsChanged, IsOver, IsRecording, IsAdmitting, IsToStay};
ghost use Rattle.xl_house.specs.State.{start_of};
ghost use Rattle.xl_house.specs.Truthful.{Happening, AreLetIn, NeverCollide};
ghost use Rattle.xl_reclaims.specs.Truthful.{Before, WereHeld, Reclaims, turns_away};
ghost use Rattle.xl_base.specs.declared.journal.Head.{Head};
ghost use Rattle.xl_core.specs.Deeds.{all_told_of};
ghost use Rattle.xl_core.specs.Frames.{who_expired};
ghost use Rattle.xl_core.specs.Standings.{asker_as};
ghost use Rattle.xl_core.specs.Stores.{client_name};
ghost use Rattle.xl_base.specs.declared.event.Dest.TheVariants.{Conn};
ghost use Rattle.xl_programs.specs.Sent.{sent_to};
ghost use Rattle.xl_house.specs.Replying.{IsOneReply};
ghost use Rattle.xl_house.specs.Parties.{IsHeldFor};
ghost use Rattle.xl_house.specs.Notices.{IsNlmNews, IsSmbNews};
ghost use Rattle.xl_house.specs.Notified.{AreAnnounced};
ghost use Rattle.xl_nlm.specs.Items.{CallItem};
ghost use Rattle.xl_front_nlm.specs.Asking.{reclaims, IsAskFor};
ghost use Rattle.xl_nfs.specs.Ops.{OpItem};
ghost use Rattle.xl_nfs.specs.declared.basics.Stateid.{Stateid};
ghost use Rattle.xl_names.specs.Names.{number_of};
ghost use Rattle.xl_names.specs.declared.name.Name.TheVariants.{NfsShare};
ghost use Rattle.xl_table.specs.Relock.{shares_of};
ghost use Rattle.xl_nfs.specs.Basics.{OwnerItem};
ghost use Rattle.xl_nfs.specs.Locks.{LockTestArgsItem, NewLockerItem};
ghost use Rattle.xl_nfs_state.specs.State.{NfsLists, delegated_on, is_owner, is_owner_named};
ghost use Rattle.xl_nfs_state.specs.declared.client.ClientRow.{ClientRow};
ghost use Rattle.xl_nfs_state.specs.declared.owner.OwnerKind.TheVariants.{Lock as OfLocks};
ghost use Rattle.xl_nfs_state.specs.declared.owner.OwnerRow.{OwnerRow};
ghost use Rattle.xl_nfs_state.specs.declared.stateid.Holder.TheVariants.{Open as OfOpen};
ghost use Rattle.xl_nfs_state.specs.declared.stateid.StateidRow.{StateidRow};
ghost use Rattle.xl_nfs_opens.specs.Closing.{opener_by};
ghost use Rattle.xl_nfs_opens.specs.Plans.{Outcome};
ghost use Rattle.xl_nfs_opens.specs.declared.opener.Opener.{Opener as NfsOpener};
ghost use Rattle.xl_nfs_opens.specs.declared.told.Told.TheVariants.{Free};
ghost use Rattle.xl_nfs_laws.specs.AnsweredStateids.{IsAnswered};
ghost use Rattle.xl_nfs_laws.specs.DoneAsTold.{IsClosed, IsFirstTold, IsGivenBack, IsLockTestTold, IsNamed, IsReleased, IsRenewed};
ghost use Rattle.xl_nfs_laws.specs.LockLaws.{test_claim};
ghost use Rattle.xl_nfs_laws.specs.AskedRequests.{says_reclaim, IsItsAsk};
ghost use Rattle.xl_nfs_laws.specs.Delegated.{delegation_held};
ghost use Rattle.xl_nfs_laws.specs.Leased.{has_lease, is_confirmed};
ghost use Rattle.xl_house.specs.Awaited.{IsServed};
ghost use Rattle.xl_house.specs.Done.{Round, deeds, rounds};
ghost use Rattle.xl_house.specs.Fitting.{IsFitting};
ghost use Rattle.xl_house.specs.Free.{IsFree};
ghost use Rattle.xl_house.specs.Lawful.{found, IsLawful, IsWaiting, IsKept, IsComplete};
ghost use Rattle.xl_house.specs.Machine.{heard, is_plain};
ghost use Rattle.xl_house.specs.Own.{own_of};
ghost use Rattle.xl_house.specs.State.{Whole, as_found, rooms_of};
ghost use Rattle.xl_house.specs.Telling.{TurnTaken};
ghost use Rattle.xl_house.specs.Tied.{IsTied};

/// A machine that answers that a lock is granted and keeps nothing has no lawful entry for a lock of one byte at a start; if one
/// waits, a machine that drops it at another's test has none in which who waits is right; and if a break of a cache runs, a
/// machine that lets the cache go at another's ask has none in which it is kept until it is answered. If a client has a lease, a
/// machine that drops all leases at another's ask has no lawful entry for that; at a reading of the clock that is later one that
/// leaves the clock as it was has none, and one that leaves a lease that has ended, of a client whose expiry no failed store puts
/// off, has none that is complete. A machine that forgets all requests of SMB while an SMB open's waiter is there has no entry
/// that is served, nor has one that keeps an SMB open in its list and nothing of what is held, or one of whose last round a turn
/// grants a claim to an SMB open that isn't there afterwards, as the first turn does where no frame goes on. One that makes a share
/// weaker so that it has more than before, or leaves more of a cache than its break does, has none of deeds that are fit.
/// One that draws a number and gives out none has none that is steady.
/// One that gives a greater cache than was chosen, or one though someone waits on the file, grants no wish rightly.
/// One that lets a cache go at once that is to be given up first, breaks one to more than it is, breaks the only cache though it is
/// in nobody's way, or turns an ask away for a cache of which no break runs, begins no break rightly; and one that drops a cache at
/// another's ask and tells nobody has no entry that keeps the caches.
/// One that does nothing for a grant that its client refuses has no entry that is owed; and one that leaves a share or a range of an
/// open that went with its connection ends no connection rightly.
/// One that replies on another connection replies to no call of ONC RPC rightly.
/// One whose record gains a name as a number is drawn doesn't record rightly; and one that grants a lock while grace runs to who
/// doesn't reclaim it lets nobody in rightly.
/// One that comes to hold a claim as it draws a number holds it for nobody, and so does one that does at a turn that serves none.
/// One that makes a reclaim of an ask of NLM, or of an operation of NFSv4, which says that it is none doesn't ask rightly.
#[tactic(auto, using(crate::proofs::HollowLaws::waiter_dropped_in, crate::proofs::HollowLaws::cache_let_go_in, crate::proofs::HollowLaws::leases_dropped_in, crate::proofs::HollowLaws::clock_stands_in, crate::proofs::FittingLaws::share_widened_in, crate::proofs::FittingLaws::more_left_in, crate::proofs::SteadyLaws::numbers_stand_in, crate::proofs::WishedLaws::unchosen_is, crate::proofs::WishedLaws::beside_waiter_is, crate::proofs::BreakingLaws::gone_at_once_is, crate::proofs::BreakingLaws::raised_is, crate::proofs::BreakingLaws::uncaused_is, crate::proofs::BreakingLaws::unbroken_is, crate::proofs::EntryLaws::cache_dropped_in, crate::proofs::OwedLaws::refusal_dropped_in, crate::proofs::OwedLaws::left_behind_is, crate::proofs::ReplyingLaws::reply_astray_is, crate::proofs::PartiesLaws::for_nobody_is, crate::proofs::PartiesLaws::unserved_is, crate::proofs::AskingLaws::always_reclaims_is, crate::proofs::AskingLaws::nfs_always_reclaims_is))]
pub fn hollow_machines_are_refused()
    ensures kept { (n stores number epoch : ℕ) (bytes : List ℕ) (outs : List Out) (s t : Whole) (clock : Moment) (times : Times) → found s ≡ started (unnamed epoch) clock times → deeds n s (Message number bytes) ≡ Asks all_room smallest_lock ∷ []
        → t.core.claims ≡ [] → IsLawful n s (record { event = Message number bytes; stores = stores; outs = outs }) t → ⊥ }
    ensures dropped { (n stores number : ℕ) (bytes : List ℕ) (outs : List Out) (s t : Whole) (left : Rooms) (a : Ask) (w : Waiter) (extent : Extent) (exclusive : Bool) → a.act ≡ Act.Test extent exclusive → deeds n s (Message number bytes) ≡ Asks left a ∷ []
        → s.core.waiters ≡ w ∷ [] → t.core.waiters ≡ [] → IsWaiting n s (record { event = Message number bytes; stores = stores; outs = outs }) t → ⊥ }
    ensures let_go { (n stores number : ℕ) (bytes : List ℕ) (outs : List Out) (s t : Whole) (left : Rooms) (a : Ask) (c : Claim) → deeds n s (Message number bytes) ≡ Asks left a ∷ []
        → IsIn c s.core.claims → is_running c.what ≡ true → t.core.claims ≡ [] → IsKept n s (record { event = Message number bytes; stores = stores; outs = outs }) t → ⊥ }
    ensures leases { (n stores number : ℕ) (bytes : List ℕ) (outs : List Out) (s t : Whole) (left : Rooms) (a : Ask) (l : Lease) → deeds n s (Message number bytes) ≡ Asks left a ∷ []
        → IsIn l s.core.leases → t.core.leases ≡ [] → IsLawful n s (record { event = Message number bytes; stores = stores; outs = outs }) t → ⊥ }
    ensures clock { (n stores : ℕ) (outs : List Out) (s t : Whole) (now : Moment) → nat_lt s.core.clock.0 now.0 ≡ true → t.core.clock ≡ s.core.clock → IsLawful n s (record { event = Tick now; stores = stores; outs = outs }) t → ⊥ }
    ensures ended { (n stores : ℕ) (outs : List Out) (s t : Whole) (now : Moment) (client : List ℕ) → IsIn client (ended t.core.clock t.core.leases)
        → (IsPutOff (all_done n (found s) (own_of n (as_found s) (Tick now)).deeds).failed (all_done n (found s) (own_of n (as_found s) (Tick now)).deeds).stable client → ⊥) → IsComplete n s (record { event = Tick now; stores = stores; outs = outs }) t → ⊥ }
    ensures forgotten { (n : ℕ) (s t : Whole) (e : Entry) (w : Waiter) (number : ℕ) → IsIn w t.core.waiters → waits_as number w ≡ true → t.front.smb.state.waiting ≡ [] → IsServed n s e t → ⊥ }
    ensures unmade { (n stores conn : ℕ) (bytes : List ℕ) (outs : List Out) (s t : Whole) (u : CoreState) (told : List Effect) (party : Party) (id number : ℕ) (claim : Claim) → IsFree s → is_plain s (Message conn bytes) ≡ true → settle n (rooms_of (heard n (as_found s) (Message conn bytes)).1) (heard n (as_found s) (Message conn bytes)).2 ≡ Some (told, u)
        → IsIn (Effect.Served party id (Answer.Granted claim)) told → claim.owner ≡ Owner.Open number → open_of number t.front.smb.state ≡ None → IsServed n s (record { event = Message conn bytes; stores = stores; outs = outs }) t → ⊥ }
    ensures last_unmade { (n : ℕ) (s t : Whole) (e : Entry) (before : List Round) (r : Round) (turn : TurnTaken) (party : Party) (id number : ℕ) (claim : Claim) → rounds n s e.event ≡ before ++ r ∷ [] → IsIn turn r.turns
        → IsIn (Effect.Served party id (Answer.Granted claim)) turn.told → claim.owner ≡ Owner.Open number → open_of number t.front.smb.state ≡ None → IsServed n s e t → ⊥ }
    ensures shareless { (n : ℕ) (s t : Whole) (e : Entry) (number : ℕ) (row : Open) → open_of number t.front.smb.state ≡ Some row → t.core.claims ≡ [] → IsServed n s e t → ⊥ }
    ensures widened { (n stores number : ℕ) (bytes : List ℕ) (outs : List Out) (s t : Whole) (share : Claim) (access deny : Rwd) → deeds n s (Message number bytes) ≡ Weakens share access deny ∷ []
        → share_has share.what access deny ≡ false → IsFitting n s (record { event = Message number bytes; stores = stores; outs = outs }) t → ⊥ }
    ensures more_left { (n stores number : ℕ) (bytes : List ℕ) (outs : List Out) (s t : Whole) (cache : Claim) (to : Option CacheKind) → deeds n s (Message number bytes) ≡ Acks cache to ∷ []
        → may_be_left cache.what to ≡ false → IsFitting n s (record { event = Message number bytes; stores = stores; outs = outs }) t → ⊥ }
    ensures numbers { (n stores number : ℕ) (bytes : List ℕ) (outs : List Out) (s t : Whole) → deeds n s (Message number bytes) ≡ Draws ∷ [] → t.core.counter ≡ s.core.counter → IsSteady n s (record { event = Message number bytes; stores = stores; outs = outs }) t → ⊥ }
    ensures unchosen { (s t : CoreState) (c : Claim) → held_at s (CacheOf c.file c.party) ≡ [] → held_at t (CacheOf c.file c.party) ≡ What.Cache CacheKind.RWH None ∷ [] → IsWished (CacheKind.R ∷ []) c s t → ⊥ }
    ensures beside { (s t : CoreState) (c : Claim) → s.grace ≡ None → waits_on c.file s.waiters ≡ true → held_at s (CacheOf c.file c.party) ≡ [] → held_at t (CacheOf c.file c.party) ≡ What.Cache CacheKind.R None ∷ [] → IsWished (CacheKind.R ∷ []) c s t → ⊥ }
    ensures gone_at_once { (s t : CoreState) (asked cache : Claim) (to : Option CacheKind) → cache.what ≡ What.Cache CacheKind.RWH None → held_at t (CacheOf cache.file cache.party) ≡ [] → IsBroken s t asked cache to → ⊥ }
    ensures raised { (s t : CoreState) (asked cache : Claim) → cache.what ≡ What.Cache CacheKind.R None → IsBroken s t asked cache (Some CacheKind.RWH) → ⊥ }
    ensures uncaused { (s t : CoreState) (asked cache : Claim) (to : Option CacheKind) → s.claims ≡ cache ∷ [] → blocks asked cache ≡ false → IsBroken s t asked cache to → ⊥ }
    ensures unbroken { (left : Rooms) (s : CoreState) (a : Ask) (first c cache : Claim) → IsFirstOf (asked_claims a (asked_whats a.act) s.names) first → s.grace ≡ None → a.reclaim ≡ false → a.awaits ≡ false → is_stopped s.waiters s first ≡ false
        → IsIn c (asked_claims a (asked_whats a.act) s.names) → IsIn cache (way left s a).1.claims → is_obstacle c (way left s a).1.claims cache ≡ true → is_running cache.what ≡ false → HasBegun left s a → ⊥ }
    ensures cache_dropped { (n stores number : ℕ) (bytes : List ℕ) (outs : List Out) (s t : Whole) (left : Rooms) (a : Ask) (file : ℕ) (party : Party) → deeds n s (Message number bytes) ≡ Asks left a ∷ [] → (ask n left (found s) a).1 ≡ []
        → held_at s.core (CacheOf file party) ≡ What.Cache CacheKind.RWH None ∷ [] → t.core.claims ≡ [] → IsKeeping n s (record { event = Message number bytes; stores = stores; outs = outs }) t → ⊥ }
    ensures refusal_dropped { (n stores number : ℕ) (reply : Option (List ℕ)) (outs : List Out) (s t : Whole) (call : GrantedCall) (g : Grant) → find (λ c. c.number == number) s.front.nlm.calls ≡ Some call → refuses reply ≡ true → grant_of (found s).names call.claim ≡ Some g
        → own_deeds n s (Called number reply) ≡ [] → IsOwed n s (record { event = Called number reply; stores = stores; outs = outs }) t → ⊥ }
    ensures left_behind { (names : List Name) (conn number : ℕ) (l : Lists) (left : CoreState) (c : Claim) → is_held_under (Scope.Connection conn) (open_of number l) ≡ true → IsIn c left.claims → c.owner ≡ Owner.Open number → is_cache c.what ≡ false → AreGone names conn l left → ⊥ }
    ensures reply_astray { (conn other xid : ℕ) (bytes : List ℕ) → (Conn other ≡ Conn conn → ⊥) → IsOneReply conn xid (sent_to other bytes) → ⊥ }
    ensures for_nobody { (n : ℕ) (s : CoreState) (c : Claim) → s.claims ≡ [] → IsHeldFor n s Draws c → ⊥ }
    ensures unserved { (n : ℕ) (left : Rooms) (s : CoreState) (c : Claim) → s.claims ≡ [] → (given n s (Serves left)).1 ≡ [] → IsHeldFor n s (Serves left) c → ⊥ }
    ensures recorded { (n stores number : ℕ) (bytes : List ℕ) (outs : List Out) (s t : Whole) (name : Recorded) → deeds n s (Message number bytes) ≡ Draws ∷ []
        → is_recorded name s.core.stable.names ≡ false → is_recorded name t.core.stable.names ≡ true → IsRecording n s (record { event = Message number bytes; stores = stores; outs = outs }) t → ⊥ }
    ensures let_in { (n stores number : ℕ) (bytes : List ℕ) (outs : List Out) (s t : Whole) (left : Rooms) (a : Ask) (g : Running) (c : Claim) → deeds n s (Message number bytes) ≡ Asks left a ∷ [] → s.core.grace ≡ Some g → asks_claims a.act ≡ true
        → a.reclaim ≡ false → (ask n left (found s) a).0 ≡ Answer.Granted c → IsAdmitting n s (record { event = Message number bytes; stores = stores; outs = outs }) t → ⊥ }
    ensures always_reclaims { (count hosts : ℕ) (call : CallItem) (left : Rooms) (a : Ask) → reclaims call ≡ false → a.reclaim ≡ true → IsAskFor count hosts call (Asks left a) → ⊥ }
    ensures nfs_always_reclaims { (files : List (List ℕ)) (current : Option ℕ) (op : OpItem) (left : Rooms) (a : Ask) → says_reclaim op ≡ false → a.reclaim ≡ true → IsItsAsk files current op left a → ⊥ }
{}

/// A machine that forgets the stateids while a client of NFSv4 has a cache has no entry after which rows and claims are tied; nor has
/// one that forgets the leases while a client's record is confirmed, or the records while a client has a lease; and one that forgets
/// the stateids as it tells one tells none of NFSv4 rightly, nor that of a LOCK under an open. Nor is what is told done by one that
/// keeps the share of an open that a CLOSE closes, each delegation at a DELEGRETURN, or the lock owner of a RELEASE_LOCKOWNER, that
/// loses all leases at a RENEW, or that answers each LOCKT OK while a range that is held stands against the lock.
#[tactic(auto, using(crate::proofs::NfsTiedLaws::delegation_lost_in, crate::proofs::NfsTiedLaws::lease_lost_in, crate::proofs::NfsTiedLaws::client_lost_in, crate::proofs::MeantLaws::answered_lost_is))]
pub fn machines_that_lose_rows_are_refused()
    ensures delegation_lost { (n : ℕ) (s t : Whole) (e : Entry) (id : List ℕ) (file : ℕ) (write : Bool) → delegation_held t.core id file ≡ Some write → t.front.nfs.state.stateids ≡ [] → IsTied n s e t → ⊥ }
    ensures lease_lost { (n : ℕ) (s t : Whole) (e : Entry) (id : List ℕ) → is_confirmed t.front.nfs.state.clients id ≡ true → t.core.leases ≡ [] → IsTied n s e t → ⊥ }
    ensures client_lost { (n : ℕ) (s t : Whole) (e : Entry) (id : List ℕ) → has_lease t.core.leases id ≡ true → t.front.nfs.state.clients ≡ [] → IsTied n s e t → ⊥ }
    ensures answered_lost { (s : CoreState) (l : NfsLists) (asked told : Stateid) (closed : Bool) (done : Outcome) → done.3.stateids ≡ [] → IsAnswered s l asked told closed done → ⊥ }
    ensures first_lost { (s : CoreState) (l : NfsLists) (x : NewLockerItem) (told : Stateid) (done : Outcome) → done.3.stateids ≡ [] → IsFirstTold s l x told done → ⊥ }
    ensures share_kept { (s : CoreState) (l : NfsLists) (stateid : Stateid) (r : StateidRow) (owner number : ℕ) (o : NfsOpener) (share : Rwd × Rwd) (done : Outcome) → IsNamed s l stateid r → r.holder ≡ OfOpen owner → opener_by l r.client owner ≡ Some o → number_of (NfsShare o.id o.owner) done.4.names ≡ Some number
        → shares_of r.file (ByName Nfs number) done.4.claims ≡ share ∷ [] → IsClosed s l stateid done → ⊥ }
    ensures delegation_kept { (s : CoreState) (l : NfsLists) (stateid : Stateid) (done : Outcome) → ((client file : ℕ) → is_some (find (delegated_on client file) done.3.stateids) ≡ true) → IsGivenBack s l stateid done → ⊥ }
    ensures renewal_lost { (s : CoreState) (l : NfsLists) (clientid : ℕ) (done : Outcome) → done.4.leases ≡ [] → IsRenewed s l clientid done → ⊥ }
    ensures owner_kept { (s : CoreState) (l : NfsLists) (a : OwnerItem) (o : OwnerRow) (done : Outcome) → ((client : ℕ) → find (is_owner_named client OfLocks a.owner) l.owners ≡ Some o) → is_some (find (is_owner o.number) done.3.owners) ≡ true → IsReleased s l a done → ⊥ }
    ensures always_free { (l : NfsLists) (a : LockTestArgsItem) (c : ClientRow) (file last : ℕ) (done : Outcome) → ((o : NfsOpener) → list_any (stands_against (test_claim done.4 o file a.kind a.offset last)) done.4.claims ≡ true) → done.0 ≡ Free → IsLockTestTold l a c file last done → ⊥ }
{}

/// An entry tells nobody rightly by a machine that begins the break of an open's oplock and sends no notice to the connection that
/// the open is held on, that sends the call of a grant twice, or that sends a final reply by another connection than the request's;
/// nor by one that has a break begin and tells of none.
#[tactic(auto, using(crate::proofs::NoticesLaws::unnoticed_is, crate::proofs::NoticesLaws::granted_twice_is, crate::proofs::NoticesLaws::final_astray_is, crate::proofs::AnnouncedLaws::untold_is))]
pub fn machines_that_tell_wrongly_are_refused()
    ensures unnoticed { (l : Lists) (s : CoreState) (cache : Claim) (to : Option CacheKind) (call : Option ℕ) (number : ℕ) (row : Open) (place : Place) → cache.party ≡ Party.Open number → open_of number l ≡ Some row → row.holder ≡ Holder.Tree place → IsSmbNews l s (Effect.Begun cache to call) [] → ⊥ }
    ensures granted_twice { (exports : Exports) (s : CoreState) (party : Party) (id : ℕ) (claim : Claim) (call : Out) → IsNlmNews exports s (Effect.Served party id (Answer.Granted claim)) (call ∷ call ∷ []) → ⊥ }
    ensures final_astray { (l : Lists) (s : CoreState) (party : Party) (id : ℕ) (answer : Answer) (row : Waiting) (other : ℕ) (bytes : List ℕ) → waiting_of id l ≡ Some row → (Conn other ≡ Conn row.place.connection → ⊥) → IsSmbNews l s (Effect.Served party id answer) (record { dest = Conn other; to = []; bytes = bytes } ∷ []) → ⊥ }
    ensures untold { (s t : CoreState) (file : ℕ) (party : Party) (kind : CacheKind) (running : Break) → held_at s (CacheOf file party) ≡ What.Cache kind None ∷ [] → held_at t (CacheOf file party) ≡ What.Cache kind (Some running) ∷ [] → AreAnnounced s t [] → ⊥ }
{}

/// A machine that tells that a client has expired, and whose record has it still, doesn't record rightly; nor does one that forgets a
/// recorded name at a restart, that grants a monitored lock and doesn't keep the mark that its client came with, that stores a name or
/// a mark for a reclaim, or that drops a kept mark at an ask without one. One that lets a client in while grace runs whom the record
/// lacks, or whose mark doesn't agree with the kept one, lets nobody in rightly; and one that turns a reclaim away has no entry that
/// lets each in.
#[tactic(auto, using(crate::proofs::RecoveringLaws::expired_stays_in, crate::proofs::RecoveringLaws::unrecorded_let_in, crate::proofs::RecoveringLaws::name_forgotten_in, crate::proofs::RecoveringLaws::reclaim_turned_away_in))]
pub fn machines_that_recover_wrongly_are_refused()
    ensures expired_stays { (n stores : ℕ) (outs : List Out) (s t : Whole) (now : Moment) (client : List ℕ) → IsIn client (who_expired (all_told_of n (found s) (own_of n (as_found s) (Tick now)).deeds)) → is_recorded (client_name client) t.core.stable.names ≡ true
        → IsRecording n s (record { event = Tick now; stores = stores; outs = outs }) t → ⊥ }
    ensures unrecorded { (n stores number : ℕ) (bytes : List ℕ) (outs : List Out) (s t : Whole) (left : Rooms) (a : Ask) (g : Running) (c : Claim) → deeds n s (Message number bytes) ≡ Asks left a ∷ [] → s.core.grace ≡ Some g → asks_claims a.act ≡ true
        → is_known (asker_as a) s.core.stable.names ≡ false → (ask n left (found s) a).0 ≡ Answer.Granted c → IsAdmitting n s (record { event = Message number bytes; stores = stores; outs = outs }) t → ⊥ }
    ensures mark_missed { (n stores number : ℕ) (bytes : List ℕ) (outs : List Out) (s t : Whole) (left : Rooms) (a : Ask) (what : What) (c : Claim) → deeds n s (Message number bytes) ≡ Asks left a ∷ [] → asked_what a.act ≡ Some what → a.monitored ≡ true → a.reclaim ≡ false → is_recordable (asker_as a) ≡ true
        → (ask n left (found s) a).0 ≡ Answer.Granted c → is_kept (asker_as a) t.core.stable.names ≡ false → IsRecording n s (record { event = Message number bytes; stores = stores; outs = outs }) t → ⊥ }
    ensures reclaim_stores { (n stores number : ℕ) (bytes : List ℕ) (outs : List Out) (s t : Whole) (left : Rooms) (a : Ask) (name : Recorded) → deeds n s (Message number bytes) ≡ Asks left a ∷ [] → a.reclaim ≡ true
        → IsIn name t.core.stable.names → (IsIn name s.core.stable.names → ⊥) → IsRecording n s (record { event = Message number bytes; stores = stores; outs = outs }) t → ⊥ }
    ensures mark_dropped { (n stores number : ℕ) (bytes : List ℕ) (outs : List Out) (s t : Whole) (left : Rooms) (a : Ask) (name : Recorded) → deeds n s (Message number bytes) ≡ Asks left a ∷ [] → a.mark ≡ None
        → IsIn name s.core.stable.names → (IsIn name t.core.stable.names → ⊥) → IsRecording n s (record { event = Message number bytes; stores = stores; outs = outs }) t → ⊥ }
    ensures name_forgotten { (n stores : ℕ) (outs : List Out) (s t : Whole) (name : Recorded) → is_recorded name s.core.stable.names ≡ true → is_recorded name t.core.stable.names ≡ false → IsRecording n s (record { event = Restart; stores = stores; outs = outs }) t → ⊥ }
    ensures turned_away { (n number : ℕ) (bytes : List ℕ) (s : Whole) (left : Rooms) (a : Ask) (answer : Answer) → deeds n s (Message number bytes) ≡ Asks left a ∷ [] → Reclaims (found s) a → (ask n left (found s) a).0 ≡ answer → turns_away answer ≡ true → AreLetIn n s (Message number bytes) → ⊥ }
{}

/// The record lasts. Where a monitored ask that is no reclaim is granted, its client is recorded from then on, through whatever
/// entries and restarts, until it expires or a grace ends in which it reclaimed nothing; and the mark that it came with is kept
/// until one of these, or until such an ask of the same name comes with another.
#[tactic(auto, using(crate::proofs::LastingLaws::names_last, crate::proofs::LastingLaws::marks_last))]
pub fn granted_clients_stay_recorded()
    ensures named { (head : Head) (es : List Entry) (name : Recorded) → IsLegal (start_of head) es → IsToStay (λ n u d. IsOver name u d) name (start_of head) es → is_recorded name (replay (start_of head) es).core.stable.names ≡ true }
    ensures kept { (head : Head) (es : List Entry) (name : Recorded) → IsLegal (start_of head) es → IsToStay (λ n u d. IsChanged name n u d) name (start_of head) es → is_kept name (replay (start_of head) es).core.stable.names ≡ true }
{}

/// Truthful reclaims never collide, whatever happens from a start on, restarts and crashes too: while grace runs, if each reclaim since
/// the server started told the truth, none is turned away by what is held, nor for want of its name and mark in the record or of a
/// grace that runs. A reclaim tells the truth if the record has its client, with a mark that agrees, and what it asks for lies
/// within what the client held, by names, just before the server stopped; or if grace ran then, before that began.
#[tactic(auto, using(crate::proofs::TruthfulLaws::never_collide))]
pub fn truthful_reclaims_never_collide()
    ensures { (head : Head) (before : Before) (more : List Happening) → WereHeld before → NeverCollide before (start_of head) more }
{}
