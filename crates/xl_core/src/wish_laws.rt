//! Laws of wishes for caches. The functions do nothing; what they ensure holds of every state and every wish.
ghost use Rattle.std.specs.Prelude.{◌≡◌, ℕ, ◌+◌, ◌≤◌, ◌==◌, not, true, false, List, None, find, length};
ghost use Rattle.xl_base.specs.Lists.{IsIn};
ghost use Rattle.std.specs.List.{AllByRecursion, filter};
ghost use Rattle.xl_base.specs.declared.name.Owner.{Owner};
ghost use Rattle.xl_base.specs.declared.name.Party.{Party};
ghost use Rattle.xl_cache.specs.Parties.{is_kind_of};
ghost use Rattle.xl_cache.specs.BreakPlans.{is_running};
ghost use Rattle.xl_matrix.specs.declared.claim.Claim.{Claim};
ghost use Rattle.xl_wait.specs.declared.waiter.Rooms.{Rooms};
ghost use Rattle.xl_cache.specs.Wishing.{is_its_cache};
ghost use Rattle.xl_cache.specs.declared.wish.Wish.{Wish};
ghost use Rattle.xl_table.specs.Elements.{elements_of};
ghost use Rattle.xl_table.specs.Held.{spans_of};
ghost use Rattle.xl_table.specs.Relock.{most_claims, shares_of};
ghost use Rattle.xl_core.specs.BreaksBegun.{idle_caches, others_of, idle_delegations};
ghost use Rattle.xl_core.specs.Decide.{before_wish, does_wish, ask};
ghost use Rattle.xl_core.specs.Good.{are_kept, IsGood};
ghost use Rattle.xl_core.specs.declared.ask.Answer.{Answer};
ghost use Rattle.xl_core.specs.declared.ask.Ask.{Ask};
ghost use Rattle.xl_core.specs.Places.{CacheOf, held_in, else_was};
ghost use Rattle.xl_core.specs.State.{CoreState};
ghost use Rattle.xl_core.specs.Wishes.{is_waited_for, wished_kind, wish_granted, wish_of, wished_at};

/// A wish of a party for kinds that it may have keeps the state good. All shares and ranges stay, each claim on another
/// file, and on its file each cache except the party's: of that there is the kind that the wish gets, else what was
/// there. So there is one cache more at most of which a break may begin. Who waits, the numbers, the names, the record
/// and the clock stay; and if the wish gets no kind nothing changes.
#[tactic(auto, unfolding(crate::specs::Wishes::wish_granted), using(crate::proofs::WishLaws::wish_good, crate::proofs::WishLaws::wish_cache, crate::proofs::WishLaws::wish_caches, crate::proofs::WishLaws::wish_others, crate::proofs::WishLaws::wish_spans, crate::proofs::WishLaws::wish_shares, crate::proofs::WishLaws::wish_elements, crate::proofs::WishLaws::wish_elsewhere, crate::proofs::WishLaws::wish_idle, crate::proofs::WishLaws::wish_delegations, crate::proofs::WishLaws::wish_none))]
pub fn wishes_change_one_cache()
    ensures good { (wanted : Wish) (s : CoreState) → IsGood s → AllByRecursion (λ kind. is_kind_of wanted.party kind ≡ true) wanted.kinds → are_kept s.names wanted.owner wanted.party ≡ true → IsGood (wish_granted wanted s) }
    ensures cache { (wanted : Wish) (s : CoreState) (file : ℕ) (party : Party) → IsGood s → held_in (wish_granted wanted s).claims (CacheOf file party) ≡ else_was (wished_at wanted (wished_kind wanted s) file party) (held_in s.claims (CacheOf file party)) }
    ensures caches { (wanted : Wish) (s : CoreState) → filter (λ c. not (is_its_cache wanted c)) (wish_granted wanted s).claims ≡ filter (λ c. not (is_its_cache wanted c)) s.claims }
    ensures others { (wanted : Wish) (s : CoreState) → others_of (wish_granted wanted s).claims ≡ others_of s.claims }
    ensures spans { (wanted : Wish) (s : CoreState) (file : ℕ) (owner : Owner) → spans_of file owner (wish_granted wanted s).claims ≡ spans_of file owner s.claims }
    ensures shares { (wanted : Wish) (s : CoreState) (file : ℕ) (owner : Owner) → shares_of file owner (wish_granted wanted s).claims ≡ shares_of file owner s.claims }
    ensures elements { (wanted : Wish) (s : CoreState) (file : ℕ) (owner : Owner) → elements_of file owner (wish_granted wanted s).claims ≡ elements_of file owner s.claims }
    ensures elsewhere { (wanted : Wish) (s : CoreState) (file : ℕ) → (wanted.file == file) ≡ false → filter (λ c. c.file == file) (wish_granted wanted s).claims ≡ filter (λ c. c.file == file) s.claims }
    ensures idle { (wanted : Wish) (s : CoreState) → idle_caches (wish_granted wanted s).claims ≤ idle_caches s.claims + 1 }
    ensures delegations { (wanted : Wish) (s : CoreState) → idle_delegations (wish_granted wanted s).claims ≤ idle_delegations s.claims + 1 }
    ensures waiters { (wanted : Wish) (s : CoreState) → (wish_granted wanted s).waiters ≡ s.waiters }
    ensures names { (wanted : Wish) (s : CoreState) → (wish_granted wanted s).names ≡ s.names }
    ensures counter { (wanted : Wish) (s : CoreState) → (wish_granted wanted s).counter ≡ s.counter }
    ensures stable { (wanted : Wish) (s : CoreState) → (wish_granted wanted s).stable ≡ s.stable }
    ensures clock { (wanted : Wish) (s : CoreState) → (wish_granted wanted s).clock ≡ s.clock }
    ensures none { (wanted : Wish) (s : CoreState) → wished_kind wanted s ≡ None → wish_granted wanted s ≡ s }
{}

/// A wish breaks nothing, and stands back for who waits: it gets nothing if someone else waits on the file, nor if its
/// party has no cache there and the table is full with 16,384 claims. A cache whose break runs stays as it is.
#[tactic(auto, using(crate::proofs::WishLaws::waits_stand, crate::proofs::WishLaws::full_stands, crate::proofs::WishLaws::running_stays))]
pub fn wishes_stand_back()
    ensures waits { (wanted : Wish) (s : CoreState) → is_waited_for wanted.file s ≡ true → wish_granted wanted s ≡ s }
    ensures full { (wanted : Wish) (s : CoreState) → find (is_its_cache wanted) s.claims ≡ None → most_claims ≤ length s.claims → wish_granted wanted s ≡ s }
    ensures breaks { (wanted : Wish) (s : CoreState) (c : Claim) → IsIn c s.claims → is_running c.what ≡ true → IsIn c (wish_granted wanted s).claims }
{}

/// The wish of an ask for a share, or of a wish by itself, is granted once that is, and only then; of a waiter once it
/// is served, and waits no more. Nothing is said of it: the effects are the breaks that began before, and who was
/// served.
#[tactic(auto, using(crate::proofs::WayAsks::ask_wishes, crate::proofs::WayAsks::ask_unwished))]
pub fn granted_asks_have_their_wish()
    ensures granted { (n : ℕ) (left : Rooms) (s : CoreState) (a : Ask) (c : Claim) → does_wish a.act ≡ true → (ask n left s a).0 ≡ Answer.Granted c → (ask n left s a).2 ≡ wish_granted (wish_of a.wish c) (before_wish n left s a).2 }
    ensures otherwise { (n : ℕ) (left : Rooms) (s : CoreState) (a : Ask) → ((c : Claim) → does_wish a.act ≡ true → (ask n left s a).0 ≡ Answer.Granted c → ⊥) → (ask n left s a).2 ≡ (before_wish n left s a).2 }
{}
