//! Laws of the core. The functions do nothing; what they ensure holds of every state, and so of what each call of
//! `Core` leaves.
ghost use Rattle.std.specs.Prelude.{◌≡◌, ℕ, ◌+◌, ◌<◌, ◌≤◌, Bool, true, false, List, [], ◌∷◌, ◌++◌, length, Option, Some, None, IfSome, ◌⊎◌, ◌↔◌};
ghost use Rattle.std.specs.List.{AllByRecursion};
ghost use Rattle.xl_base.specs.Lists.{IsIn};
ghost use Rattle.xl_base.specs.Stable.{Stable};
ghost use Rattle.xl_base.specs.declared.event.Moment.{Moment};
ghost use Rattle.xl_base.specs.declared.name.Owner.{Owner};
ghost use Rattle.xl_base.specs.declared.name.Party.{Party};
ghost use Rattle.xl_matrix.specs.Equal.{same_parties};
ghost use Rattle.xl_matrix.specs.declared.claim.CacheKind.{CacheKind};
ghost use Rattle.xl_matrix.specs.declared.claim.Claim.{Claim};
ghost use Rattle.xl_matrix.specs.declared.claim.Extent.{Extent};
ghost use Rattle.xl_matrix.specs.declared.claim.Rwd.{Rwd};
ghost use Rattle.xl_matrix.specs.declared.claim.What.{What};
ghost use Rattle.xl_matrix.specs.Matrix.{compat};
ghost use Rattle.xl_matrix.specs.Weaker.{weaker};
ghost use Rattle.xl_core.specs.Blockers.{range_ahead};
ghost use Rattle.xl_table.specs.Flat.{inserted, is_blocked, removed, changed, with_what};
ghost use Rattle.xl_table.specs.Least.{range_before, least};
ghost use Rattle.xl_table.specs.Relock.{most_claims, with_share, shares_of, old_shares, unites, united_by};
ghost use Rattle.xl_names.specs.declared.name.Name.{Name};
ghost use Rattle.xl_spans.specs.Spans.{relocked};
ghost use Rattle.xl_table.specs.Held.{is_cache, mode_of, is_of, spans_of};
ghost use Rattle.xl_wait.specs.Waiting.{is_waiting, cancelled, waits_on};
ghost use Rattle.xl_wait.specs.declared.waiter.Rooms.{Rooms};
ghost use Rattle.xl_wait.specs.declared.waiter.Waiter.{Waiter};
ghost use Rattle.xl_core.specs.State.{CoreState, aside_of, started, step_begun, drawn};
ghost use Rattle.xl_core.specs.Standings.{stands, is_smb, enters};
ghost use Rattle.xl_core.specs.Stores.{may_record};
ghost use Rattle.xl_core.specs.Askers.{asker, asking_party, asked_whats, asked_what, asked_claim, asked_claims, known_claim, is_named, IsFit};
ghost use Rattle.xl_core.specs.Causes.{IsSameAsker, IsConflict, limits_of_grant, IsFree, wanted, noted_by, IsClaimDue, IsTestDue, IsUnlockDue, IsWishDue, IsTurn, IsOwn};
ghost use Rattle.xl_core.specs.Decide.{waiter_of, way, ask};
ghost use Rattle.xl_core.specs.Frames.{calls_in, drawn_by, names_after, come_by, who_left, serves_none, IsFrame, IsRenewed, IsTicked};
ghost use Rattle.xl_core.specs.Good.{IsHeld, IsGood, IsSettled, holding, caches_of};
ghost use Rattle.xl_core.specs.Limits.{IsRoom};
ghost use Rattle.xl_core.specs.Settle.{settle, turns_left, AllRest, waits_for, waits_as, cancel, give_back, share_has, weaken, end_party, close_open};
ghost use Rattle.xl_table.specs.Leaving.{goes};
ghost use Rattle.xl_table.specs.declared.leaver.Leaver.TheVariants as Leaver;
ghost use Rattle.xl_core.specs.declared.ask.Act.{Act};
ghost use Rattle.xl_core.specs.declared.ask.Effect.TheVariants.{Cancelled};
ghost use Rattle.xl_core.specs.declared.ask.Answer.{Answer};
ghost use Rattle.xl_cache.specs.BreakPlans.{is_running, is_obstacle, planned, is_slow};
ghost use Rattle.xl_core.specs.BreaksBegun.{with_break, once_broken, idle_caches};
ghost use Rattle.xl_core.specs.BreakAnswers.{may_be_left, ack};
ghost use Rattle.xl_core.specs.Numbers.{numbers_of};
ghost use Rattle.xl_core.specs.Ticks.{renew, expire, lapse, tick};
ghost use Rattle.xl_core.specs.declared.ask.Ask.{Ask};
ghost use Rattle.xl_core.specs.declared.lease.Times.{Times};

/// The state is good at a start, and stays so: any two claims may be held together, each owner's ranges on a file are
/// sorted maximal runs, an owner has one share on a file and a party one cache, of a kind that its protocol has, and all
/// who hold or wait are known by name, or are SMB opens. So it is whether or not caches are held.
pub fn stays_good()
    ensures started { (stable : Stable) (clock : Moment) (times : Times) → IsGood (started stable clock times) }
    ensures begun { (s : CoreState) → IsGood s → IsGood (step_begun s) }
    ensures asked { (n : ℕ) (left : Rooms) (s : CoreState) (a : Ask) → IsGood s → IsFit a → IsGood (ask n left s a).2 }
    ensures settled { (n : ℕ) (left : Rooms) (s : CoreState) → IsGood s → IfSome (settle n left s) (λ r. IsGood r.1) }
    ensures cancelled { (s : CoreState) (id : ℕ) → IsGood s → IsGood (cancel s id).1 }
    ensures given_back { (s : CoreState) (claim : Claim) → IsGood s → IsGood (give_back s claim).1 }
    ensures weakened { (s : CoreState) (share : Claim) (access deny : Rwd) → IsGood s → IsIn share s.claims → share_has share.what access deny ≡ true → IsGood (weaken s share access deny).1 }
    ensures acked { (s : CoreState) (cache : Claim) (to : Option CacheKind) → IsGood s → IsIn cache s.claims → may_be_left cache.what to ≡ true → IsGood (ack s cache to).1 }
    ensures drawn { (s : CoreState) → IsGood s → IsGood (drawn s) }
    ensures ended { (s : CoreState) (party : Party) → IsGood s → IsGood (end_party s party).1 }
    ensures closed { (s : CoreState) (number : ℕ) (party : Option Party) → IsGood s → IsGood (close_open s number party).1 }
    ensures renewed { (s : CoreState) (client : List ℕ) → IsGood s → IsGood (renew s client).1 }
    ensures ticked { (n : ℕ) (s : CoreState) (now : Moment) → IsGood s → IsGood (tick n s now).1 }
{}

/// The state stays good if a cache that its party may have comes to be held beside claims with which it goes, and there
/// is room; and if a held cache becomes another one that its party may have: one that goes with all others, or one that
/// is less, or that a break of it begins. So it is if a wish gets a cache or raises one, if a break begins, and if its
/// answer leaves less.
pub fn caches_may_be_held()
    ensures entered { (s : CoreState) (c : Claim) → IsGood s → IsHeld s.names c → is_cache c.what ≡ true → AllByRecursion (λ d. compat c d ≡ true) s.claims → length s.claims < most_claims → IsGood (holding s (inserted c s.claims)) }
    ensures raised { (s : CoreState) (c : Claim) (to : What) → IsGood s → IsIn c s.claims → IsHeld s.names (with_what c to) → is_cache to ≡ true → AllByRecursion (λ d. compat (with_what c to) d ≡ true) (removed c s.claims) → IsGood (holding s (changed c to s.claims)) }
    ensures weakened { (s : CoreState) (c : Claim) (to : What) → IsGood s → IsIn c s.claims → IsHeld s.names (with_what c to) → is_cache to ≡ true → weaker (with_what c to) c ≡ true → IsGood (holding s (changed c to s.claims)) }
{}

/// If the breaks of an ask for a share or a range begin, the state stays good: each of these caches is held at its
/// full kind until its break is answered, or is gone if that needs no answer. What is not in the ask's way stays as it
/// is, and so does a cache whose break runs already. Then none is left to begin: each cache in the way is gone, or its
/// break runs; and so many caches fewer are left whose break may begin as breaks began.
#[tactic(auto, using(crate::proofs::AskBreaksLaws::broken_good, crate::proofs::AskBreaksLaws::broken_stand, crate::proofs::AskBreaksLaws::apart_stand, crate::proofs::AskBreaksLaws::running_stand, crate::proofs::AskBreaksLaws::none_begins_again, crate::proofs::AskBreaksLaws::fewer_idle))]
pub fn breaks_may_begin()
    ensures good { (deadline : Moment) (s : CoreState) (ask : Claim) → IsGood s → is_cache ask.what ≡ false → IsGood (holding s (once_broken deadline ask s.claims)) }
    ensures broken { (deadline : Moment) (ask : Claim) (held : List Claim) (b : Claim × Option CacheKind) → IsIn b (planned ask held).breaks → is_slow b ≡ true → IsIn (with_break b.0 b.0.what b.1 deadline) (once_broken deadline ask held) }
    ensures apart { (deadline : Moment) (ask : Claim) (held : List Claim) (c : Claim) → IsIn c held → is_obstacle ask held c ≡ false → IsIn c (once_broken deadline ask held) }
    ensures running { (deadline : Moment) (ask : Claim) (held : List Claim) (c : Claim) → IsIn c held → is_running c.what ≡ true → IsIn c (once_broken deadline ask held) }
    ensures once { (deadline : Moment) (ask : Claim) (held : List Claim) → (planned ask (once_broken deadline ask held)).breaks ≡ [] }
    ensures fewer { (deadline : Moment) (ask : Claim) (held : List Claim) → idle_caches (once_broken deadline ask held) + length (planned ask held).breaks ≡ idle_caches held }
{}

/// Each answer is given exactly if its cause holds, which `IsClaimDue`, `IsTestDue`, `IsUnlockDue` and `IsWishDue` say;
/// of several limits the least is answered. Of the held claims that block an ask the least is answered, and only if there is none the
/// first range that one in front waits for; the break of a cache that is answered runs by then.
pub fn answers_have_causes()
    ensures claims { (n : ℕ) (left : Rooms) (s : CoreState) (a : Ask) (what : What) (answer : Answer) → asked_what a.act ≡ Some what → ((ask n left s a).0 ≡ answer) ↔ IsClaimDue n left (way left s a).1 a (asked_claim a what s.names) answer }
    ensures recalls { (n : ℕ) (left : Rooms) (s : CoreState) (a : Ask) (what : What) (c : Claim) → asked_what a.act ≡ Some what → (ask n left s a).0 ≡ Answer.Recall c → is_running c.what ≡ true }
    ensures tests { (n : ℕ) (left : Rooms) (s : CoreState) (a : Ask) (extent : Extent) (exclusive : Bool) (answer : Answer) → a.act ≡ Act.Test extent exclusive → ((ask n left s a).0 ≡ answer) ↔ IsTestDue s a (known_claim a extent exclusive s.names) answer }
    ensures unlocks { (n : ℕ) (left : Rooms) (s : CoreState) (a : Ask) (first last : ℕ) (answer : Answer) → IsGood s → IsFit a → is_named a.owner ≡ true → a.act ≡ Act.Unlock (Extent.Bytes first last) → ((ask n left s a).0 ≡ answer) ↔ IsUnlockDue s (known_claim a (Extent.Bytes first last) false s.names) first last answer }
    ensures wishes { (n : ℕ) (left : Rooms) (s : CoreState) (a : Ask) (kind : CacheKind) (kinds : List CacheKind) (answer : Answer) → a.act ≡ Act.Wish → a.wish ≡ kind ∷ kinds → ((ask n left s a).0 ≡ answer) ↔ IsWishDue left s a a.wish answer }
    ensures least { (names : List Name) (claims : List Claim) (c : Claim) → least names claims ≡ Some c → IsIn c claims × AllByRecursion (λ d. range_before names d c ≡ false) claims }
{}

/// A share or a lock that grace lets in, that nothing held blocks, nor, unless it is a reclaim, the range of one who waits, and
/// that passes no limit is granted, if its client is recorded or can be. What is granted is
/// held then, whatever the owner had in the range before, or shared, united with the share that an NFSv4 owner had; what is
/// unlocked no more.
pub fn free_asks_are_granted()
    ensures granted { (n : ℕ) (left : Rooms) (s : CoreState) (a : Ask) (what : What) → asked_what a.act ≡ Some what → enters (stands s a) ≡ true → IsFree s a (asked_claim a what s.names) → IsRoom (limits_of_grant left s a (asked_claim a what s.names)) → may_record n s (wanted s a) ≡ true → (ask n left s a).0 ≡ Answer.Granted (asked_claim a what s.names) }
    ensures held { (n : ℕ) (left : Rooms) (s : CoreState) (a : Ask) (first last : ℕ) (exclusive : Bool) (c : Claim) → IsGood s → IsFit a → is_named a.owner ≡ true → a.act ≡ Act.Ranges ((Extent.Bytes first last, exclusive) ∷ []) → (ask n left s a).0 ≡ Answer.Granted c → spans_of a.file (asker a s.names) (ask n left s a).2.claims ≡ relocked (spans_of a.file (asker a s.names) s.claims) first last (Some (mode_of exclusive)) }
    ensures shared { (n : ℕ) (left : Rooms) (s : CoreState) (a : Ask) (access deny : Rwd) (c : Claim) → IsGood s → IsFit a → unites (asker a s.names) ≡ false → a.act ≡ Act.Share access deny → (ask n left s a).0 ≡ Answer.Granted c → shares_of a.file (asker a s.names) (ask n left s a).2.claims ≡ (access, deny) ∷ [] }
    ensures united { (n : ℕ) (left : Rooms) (s : CoreState) (a : Ask) (access deny : Rwd) (c : Claim) → IsGood s → IsFit a → a.act ≡ Act.Share access deny → (ask n left s a).0 ≡ Answer.Granted c → shares_of a.file (asker a s.names) (ask n left s a).2.claims ≡ with_share (united_by (asker a s.names) (What.Share access deny) (old_shares a.file (asker a s.names) s.claims)) [] }
    ensures given_up { (n : ℕ) (left : Rooms) (s : CoreState) (a : Ask) (first last : ℕ) (c : Claim) → IsGood s → IsFit a → is_named a.owner ≡ true → a.act ≡ Act.Unlock (Extent.Bytes first last) → (ask n left s a).0 ≡ Answer.Granted c → spans_of a.file (asker a s.names) (ask n left s a).2.claims ≡ relocked (spans_of a.file (asker a s.names) s.claims) first last None }
{}

/// An ask changes only what its owner has on its file, a share for a share and ranges for a range, and that only if
/// it is granted; except for the breaks that it begins no cache changes, unless it wishes for one: then that of its party on
/// the file. No waiter goes, and each name keeps its number. One that is neither granted nor waits changes nothing, nor does
/// a test.
pub fn nothing_else_changes()
    ensures asks { (n : ℕ) (left : Rooms) (s : CoreState) (a : Ask) → IsGood s → IsFit a → IsOwn (way left s a).1 a (ask n left s a).0 (ask n left s a).2 }
    ensures tests { (n : ℕ) (left : Rooms) (s : CoreState) (a : Ask) (extent : Extent) (exclusive : Bool) → a.act ≡ Act.Test extent exclusive → (ask n left s a).2 ≡ s }
{}

/// An asker that begins to wait is at the end of the queue, under the number that it is answered. There is no turn
/// exactly if each waiter, judged behind those before it, waits on with nothing begun or changed; and that is if each
/// is held up: something held blocks the first claim that it asks for, or the range of one who waits in front, for good if it waits for
/// that, and else a cache. Something held blocks the first who waits on each file, unless grace runs.
/// A turn is that of the first waiter that isn't held up: it has what it asked for, or is answered what blocks it or
/// the least limit that this would pass, and waits no more; all others wait on, and have what they had. So turns end,
/// with nobody left who isn't held up: a turn takes a waiter out, which may be served with a cache, or begins a break.
pub fn nobody_is_forgotten()
    ensures waits { (n : ℕ) (left : Rooms) (s : CoreState) (a : Ask) (number : ℕ) → IsGood s → IsFit a → (ask n left s a).0 ≡ Answer.Queued number → (ask n left s a).2.waiters ≡ s.waiters ++ waiter_of number a (asking_party a s.names) (asked_claims a (asked_whats a.act) s.names) ∷ [] }
    ensures settled { (n : ℕ) (left : Rooms) (s : CoreState) → (settle n left s ≡ None) ↔ AllRest n left s [] s.waiters }
    ensures first { (s : CoreState) (before behind : List Waiter) (w : Waiter) (c : Claim) (cs : List Claim) → IsSettled s → s.grace ≡ None → s.waiters ≡ before ++ w ∷ behind → w.asked ≡ c ∷ cs → waits_on c.file before ≡ false → is_blocked s.claims c ≡ true }
    ensures blocked { (n : ℕ) (left : Rooms) (s : CoreState) → AllRest n left s [] s.waiters ↔ IsSettled s }
    ensures turns { (n : ℕ) (left : Rooms) (s : CoreState) → IsGood s → IfSome (settle n left s) (λ r. IsTurn n left s r.0 r.1) }
    ensures fewer { (n : ℕ) (left : Rooms) (s : CoreState) → IsGood s → IfSome (settle n left s) (λ r. turns_left r.1 + 1 ≤ turns_left s) }
{}

/// Who gives a claim back takes that claim out, and no other. Who cancels takes no claim with it, and of the waiters only the
/// one of this number, whose party and number the one effect names. A party that ends takes its own claims and waiters, and no
/// others. An SMB open that is closed takes its own share, its ranges and its waiters, and the caches of the party that goes with
/// it, and no others.
pub fn only_a_party_leaves()
    ensures cancelled { (s : CoreState) (id : ℕ) → ((cancel s id).1.claims ≡ s.claims) × ((cancel s id).1.waiters ≡ cancelled id s.waiters) }
    ensures named { (s : CoreState) (id : ℕ) (w : Waiter) → IsGood s → IsIn w s.waiters → w.id ≡ id → (cancel s id).0 ≡ Cancelled w.party id ∷ [] }
    ensures given_back { (s : CoreState) (claim : Claim) → ((give_back s claim).1.claims ≡ removed claim s.claims) × ((give_back s claim).1.waiters ≡ s.waiters) }
    ensures claims { (s : CoreState) (party : Party) (c : Claim) → IsIn c (end_party s party).1.claims ↔ (IsIn c s.claims × (same_parties c.party party ≡ false)) }
    ensures waiters { (s : CoreState) (party : Party) (w : Waiter) → IsIn w (end_party s party).1.waiters ↔ (IsIn w s.waiters × (waits_for party w ≡ false)) }
    ensures opened { (s : CoreState) (number : ℕ) (party : Option Party) (c : Claim) → IsIn c (close_open s number party).1.claims ↔ (IsIn c s.claims × (goes (Leaver.Open number party) c ≡ false)) }
    ensures locking { (s : CoreState) (number : ℕ) (party : Option Party) (w : Waiter) → IsIn w (close_open s number party).1.waiters ↔ (IsIn w s.waiters × (waits_as number w ≡ false)) }
{}

/// A share that is made weaker has just this access and deny. Each other share stays, each range, each cache, and who waits.
#[tactic(auto, using(crate::proofs::WeakenLaws::weakened_share, crate::proofs::WeakenLaws::weakened_apart, crate::proofs::WeakenLaws::weakened_spans, crate::proofs::WeakenLaws::weakened_caches, crate::proofs::WeakenLaws::weakened_queue))]
pub fn only_that_share_weakens()
    ensures weakened { (s : CoreState) (share : Claim) (access deny : Rwd) → IsGood s → IsIn share s.claims → share_has share.what access deny ≡ true → shares_of share.file share.owner (weaken s share access deny).1.claims ≡ (access, deny) ∷ [] }
    ensures shares { (s : CoreState) (share : Claim) (access deny : Rwd) (file : ℕ) (owner : Owner) → is_of file owner share ≡ false → shares_of file owner (weaken s share access deny).1.claims ≡ shares_of file owner s.claims }
    ensures spans { (s : CoreState) (share : Claim) (access deny : Rwd) (file : ℕ) (owner : Owner) → share_has share.what access deny ≡ true → spans_of file owner (weaken s share access deny).1.claims ≡ spans_of file owner s.claims }
    ensures caches { (s : CoreState) (share : Claim) (access deny : Rwd) → share_has share.what access deny ≡ true → caches_of (weaken s share access deny).1.claims ≡ caches_of s.claims }
    ensures waiters { (s : CoreState) (share : Claim) (access deny : Rwd) → (weaken s share access deny).1.waiters ≡ s.waiters }
{}

/// What each call leaves alone, what it may raise, and who leaves the queue by it (see `IsFrame`): an ask that has to
/// wait draws one number and comes to wait, one that is granted what it is to hold or waits has its names kept, and nobody
/// leaves; of a turn, a cancel and a party's end those leave who are told of, each once; nothing else comes or goes. A renewal sets
/// its client's lease alone (see `IsRenewed`). A reading of the clock raises the clock, and leaves record, times, numbers and names;
/// those leave who are told of, each once, and of the leases those of the clients that are told of (see `IsTicked`).
pub fn calls_have_frames()
    ensures asks { (n : ℕ) (left : Rooms) (s : CoreState) (a : Ask) → IsGood s → IsFit a → IsFrame s (ask n left s a).1 (ask n left s a).2 (drawn_by (ask n left s a).0 + calls_in (ask n left s a).1) (names_after a (ask n left s a).0 s.names) (come_by a (ask n left s a).0 s.names) }
    ensures tells { (n : ℕ) (left : Rooms) (s : CoreState) (a : Ask) → IsGood s → IsFit a → (ask n left s a).1 ≡ (way left s a).0 }
    ensures turns { (n : ℕ) (left : Rooms) (s : CoreState) → IsGood s → IfSome (settle n left s) (λ r. IsFrame s r.0 r.1 (calls_in r.0) s.names []) }
    ensures cancels { (s : CoreState) (id : ℕ) → is_waiting id s.waiters ≡ true → IsFrame s (cancel s id).0 (cancel s id).1 0 s.names [] }
    ensures gives_back { (s : CoreState) (claim : Claim) → IsFrame s (give_back s claim).0 (give_back s claim).1 0 s.names [] }
    ensures weakens { (s : CoreState) (share : Claim) (access deny : Rwd) → IsFrame s (weaken s share access deny).0 (weaken s share access deny).1 0 s.names [] }
    ensures acks { (s : CoreState) (cache : Claim) (to : Option CacheKind) → IsFrame s (ack s cache to).0 (ack s cache to).1 0 s.names [] }
    ensures ends { (s : CoreState) (party : Party) → IsGood s → IsFrame s (end_party s party).0 (end_party s party).1 0 s.names [] }
    ensures closes { (s : CoreState) (number : ℕ) (party : Option Party) → IsGood s → IsFrame s (close_open s number party).0 (close_open s number party).1 0 s.names [] }
    ensures draws { (s : CoreState) → IsFrame s [] (drawn s) 1 s.names [] }
    ensures renews { (s : CoreState) (client : List ℕ) → IsRenewed s client (renew s client).0 (renew s client).1 }
    ensures ticks { (n : ℕ) (s : CoreState) (now : Moment) → IsGood s → IsTicked s now (tick n s now).0 (tick n s now).1 }
{}

/// No call stores the record but an ask, a turn and a reading of the clock, nor does another change what is stored, or the grace that
/// runs. Of an ask and of a turn see `IsOwn` and `IsTurn`.
pub fn few_calls_store()
    ensures cancels { (s : CoreState) (id : ℕ) → aside_of (cancel s id).1 ≡ aside_of s }
    ensures gives_back { (s : CoreState) (claim : Claim) → aside_of (give_back s claim).1 ≡ aside_of s }
    ensures weakens { (s : CoreState) (share : Claim) (access deny : Rwd) → aside_of (weaken s share access deny).1 ≡ aside_of s }
    ensures acks { (s : CoreState) (cache : Claim) (to : Option CacheKind) → aside_of (ack s cache to).1 ≡ aside_of s }
    ensures ends { (s : CoreState) (party : Party) → aside_of (end_party s party).1 ≡ aside_of s }
    ensures closes { (s : CoreState) (number : ℕ) (party : Option Party) → aside_of (close_open s number party).1 ≡ aside_of s }
    ensures draws { (s : CoreState) → aside_of (drawn s) ≡ aside_of s }
    ensures renews { (s : CoreState) (client : List ℕ) → aside_of (renew s client).1 ≡ aside_of s }
{}

/// Nobody is served except by a turn: not if a waiter cancels, a claim is given back, a share is made weaker, a break is
/// answered, a party ends, an open is closed, or the clock is read. (An ask tells of the breaks that it begins alone, see
/// `calls_have_frames` and `breaks_are_told`.)
pub fn only_turns_serve()
    ensures cancels { (s : CoreState) (id : ℕ) → serves_none (cancel s id).0 ≡ true }
    ensures gives_back { (s : CoreState) (claim : Claim) → serves_none (give_back s claim).0 ≡ true }
    ensures weakens { (s : CoreState) (share : Claim) (access deny : Rwd) → serves_none (weaken s share access deny).0 ≡ true }
    ensures acks { (s : CoreState) (cache : Claim) (to : Option CacheKind) → serves_none (ack s cache to).0 ≡ true }
    ensures ends { (s : CoreState) (party : Party) → serves_none (end_party s party).0 ≡ true }
    ensures closes { (s : CoreState) (number : ℕ) (party : Option Party) → serves_none (close_open s number party).0 ≡ true }
    ensures ticks { (n : ℕ) (s : CoreState) (now : Moment) → serves_none (tick n s now).0 ≡ true }
{}

/// A test foretells the lock as far as what is held goes: if the test is denied, the same lock of the same asker, not blocking and no
/// reclaim, meets a conflict; and so it is the other way round, if no range is asked for in front of the lock. A cache that keeps
/// the lock off is a conflict to neither.
pub fn a_test_foretells()
    ensures { (n : ℕ) (left : Rooms) (s : CoreState) (test lock : Ask) (first last : ℕ) (exclusive : Bool) → IsGood s → IsFit lock → is_named lock.owner ≡ true → IsSameAsker test lock → test.act ≡ Act.Test (Extent.Bytes first last) exclusive → lock.act ≡ Act.Ranges ((Extent.Bytes first last, exclusive) ∷ []) → lock.blocking ≡ false → lock.reclaim ≡ false
        → (range_ahead s.waiters s (asked_claim lock (What.Range (Extent.Bytes first last) exclusive) s.names) ≡ None → IsConflict (ask n left s lock).0 → IsConflict (ask n left s test).0) × (IsConflict (ask n left s test).0 → IsConflict (ask n left s lock).0) }
{}

/// A granted ask leaves the clock, and the last number that was given out but for the calls of its breaks. The record, the stores of
/// the step and the grace are as `noted_by` says: its client is recorded, if it is monitored and the record lacked it.
pub fn a_grant_leaves_the_clock()
    ensures { (n : ℕ) (left : Rooms) (s : CoreState) (a : Ask) (c : Claim) → IsGood s → IsFit a → (ask n left s a).0 ≡ Answer.Granted c → ((ask n left s a).2.clock ≡ s.clock) × (aside_of (ask n left s a).2 ≡ aside_of (noted_by s a (Answer.Granted c))) × ((ask n left s a).2.counter ≡ s.counter + calls_in (ask n left s a).1) }
{}

/// Numbers go no further than `numbers_of` says: that counts the last number that was given out, one more for each who waits,
/// as a call of the server's may tell that it is served, and one more for each delegation that may be recalled. An ask raises it
/// by 2 at most, as one comes to wait under a number, or gets a delegation; one that never waits by 1; a number that is given
/// out by 1. A turn leaves one less for each who is served; no other call raises it.
#[tactic(auto, using(crate::proofs::NumberLaws::counter_numbers, crate::proofs::NumberLaws::ask_numbers, crate::proofs::NumberLaws::ask_numbers_at_once, crate::proofs::NumberLaws::turn_numbers, crate::proofs::NumberLaws::drawn_numbers, crate::proofs::NumberLaws::cancel_numbers, crate::proofs::NumberLaws::give_back_numbers, crate::proofs::NumberLaws::weaken_numbers, crate::proofs::NumberLaws::ack_numbers, crate::proofs::NumberLaws::end_party_numbers, crate::proofs::NumberLaws::close_open_numbers, crate::proofs::NumberLaws::renew_numbers, crate::proofs::NumberLaws::expire_numbers, crate::proofs::NumberLaws::lapse_numbers, crate::proofs::NumberLaws::tick_numbers))]
pub fn numbers_are_few()
    ensures counter { (s : CoreState) → s.counter ≤ numbers_of s }
    ensures asks { (n : ℕ) (left : Rooms) (s : CoreState) (a : Ask) → IsGood s → IsFit a → numbers_of (ask n left s a).2 ≤ numbers_of s + 2 }
    ensures at_once { (n : ℕ) (left : Rooms) (s : CoreState) (a : Ask) → IsGood s → IsFit a → a.blocking ≡ false → a.awaits ≡ false → is_smb a.party ≡ false → numbers_of (ask n left s a).2 ≤ numbers_of s + 1 }
    ensures turns { (n : ℕ) (left : Rooms) (s : CoreState) → IsGood s → IfSome (settle n left s) (λ r. numbers_of r.1 + length (who_left r.0) ≤ numbers_of s) }
    ensures draws { (s : CoreState) → numbers_of (drawn s) ≡ numbers_of s + 1 }
    ensures cancels { (s : CoreState) (id : ℕ) → numbers_of (cancel s id).1 ≤ numbers_of s }
    ensures gives_back { (s : CoreState) (claim : Claim) → numbers_of (give_back s claim).1 ≤ numbers_of s }
    ensures weakens { (s : CoreState) (share : Claim) (access deny : Rwd) → numbers_of (weaken s share access deny).1 ≤ numbers_of s }
    ensures acks { (s : CoreState) (cache : Claim) (to : Option CacheKind) → IsIn cache s.claims → may_be_left cache.what to ≡ true → numbers_of (ack s cache to).1 ≤ numbers_of s }
    ensures ends { (s : CoreState) (party : Party) → numbers_of (end_party s party).1 ≤ numbers_of s }
    ensures closes { (s : CoreState) (number : ℕ) (party : Option Party) → numbers_of (close_open s number party).1 ≤ numbers_of s }
    ensures renews { (s : CoreState) (client : List ℕ) → numbers_of (renew s client).1 ≤ numbers_of s }
    ensures expires { (s : CoreState) (client : List ℕ) → numbers_of (expire s client).1 ≤ numbers_of s }
    ensures lapses { (s : CoreState) (cache : Claim) → numbers_of (lapse s cache).1 ≤ numbers_of s }
    ensures ticks { (n : ℕ) (s : CoreState) (now : Moment) → numbers_of (tick n s now).1 ≤ numbers_of s }
{}
