//! Laws of the breaks that an ask begins. The functions do nothing; what they ensure holds of every state and every ask.
ghost use Rattle.std.specs.Prelude.{◌≡◌, ℕ, ◌+◌, ◌≤◌, ◌==◌, ◌&&◌, true, false, List, [], None};
ghost use Rattle.std.specs.List.{filter, list_any};
ghost use Rattle.xl_base.specs.Lists.{sorted};
ghost use Rattle.xl_base.specs.declared.name.Owner.{Owner};
ghost use Rattle.xl_base.specs.declared.name.Party.{Party};
ghost use Rattle.xl_cache.specs.BreakPlans.{is_final, planned};
ghost use Rattle.xl_matrix.specs.declared.claim.Claim.{Claim};
ghost use Rattle.xl_table.specs.Elements.{elements_of};
ghost use Rattle.xl_table.specs.Flat.{blocks};
ghost use Rattle.xl_table.specs.Held.{is_cache, spans_of};
ghost use Rattle.xl_table.specs.Relock.{shares_of, most_claims};
ghost use Rattle.xl_core.specs.BreaksBegun.{others_of, told_before, recalls, idle_delegations, breaks_begun, breaks_told, begun_at};
ghost use Rattle.xl_core.specs.Frames.{who_left, serves_none};
ghost use Rattle.xl_core.specs.Good.{IsGood};
ghost use Rattle.xl_core.specs.Leases.{moment_after};
ghost use Rattle.xl_core.specs.Places.{CacheOf, held_in, else_was};
ghost use Rattle.xl_core.specs.State.{CoreState};

/// If breaks begin the state stays good. All shares and ranges stay, and so does each claim on another file than the
/// ask's. A number is given out for each delegation whose break begins, and it is one less that can be broken; nobody
/// who waits leaves, and the names, the record and the clock stay.
#[tactic(auto, unfolding(crate::specs::BreaksBegun::breaks_begun), using(crate::proofs::BreaksBegunLaws::breaks_good, crate::proofs::BreaksBegunLaws::begun_others, crate::proofs::BreaksBegunLaws::begun_spans, crate::proofs::BreaksBegunLaws::begun_shares, crate::proofs::BreaksBegunLaws::begun_elements, crate::proofs::BreaksBegunLaws::begun_elsewhere, crate::proofs::BreaksBegunLaws::fewer_delegations, crate::proofs::BreaksBegunLaws::recalls_few))]
pub fn breaks_change_caches_alone()
    ensures good { (s : CoreState) (ask : Claim) → IsGood s → is_cache ask.what ≡ false → IsGood (breaks_begun ask s).1 }
    ensures others { (s : CoreState) (ask : Claim) → others_of (breaks_begun ask s).1.claims ≡ others_of s.claims }
    ensures spans { (s : CoreState) (ask : Claim) (file : ℕ) (owner : Owner) → spans_of file owner (breaks_begun ask s).1.claims ≡ spans_of file owner s.claims }
    ensures shares { (s : CoreState) (ask : Claim) (file : ℕ) (owner : Owner) → shares_of file owner (breaks_begun ask s).1.claims ≡ shares_of file owner s.claims }
    ensures elements { (s : CoreState) (ask : Claim) (file : ℕ) (owner : Owner) → elements_of file owner (breaks_begun ask s).1.claims ≡ elements_of file owner s.claims }
    ensures elsewhere { (s : CoreState) (ask : Claim) (file : ℕ) → (ask.file == file) ≡ false → filter (λ c. c.file == file) (breaks_begun ask s).1.claims ≡ filter (λ c. c.file == file) s.claims }
    ensures counter { (s : CoreState) (ask : Claim) → (breaks_begun ask s).1.counter ≡ s.counter + recalls (planned ask s.claims).breaks }
    ensures delegations { (s : CoreState) (ask : Claim) → idle_delegations (breaks_begun ask s).1.claims + recalls (planned ask s.claims).breaks ≡ idle_delegations s.claims }
    ensures few { (s : CoreState) (ask : Claim) → IsGood s → recalls (planned ask s.claims).breaks ≤ most_claims }
    ensures waiters { (s : CoreState) (ask : Claim) → (breaks_begun ask s).1.waiters ≡ s.waiters }
    ensures names { (s : CoreState) (ask : Claim) → (breaks_begun ask s).1.names ≡ s.names }
    ensures stable { (s : CoreState) (ask : Claim) → (breaks_begun ask s).1.stable ≡ s.stable }
    ensures clock { (s : CoreState) (ask : Claim) → (breaks_begun ask s).1.clock ≡ s.clock }
{}

/// The breaks that the ask begins are told of, each once, by the texts of the parties, and nothing else is. Of a party's
/// cache of a file there is afterwards what is told of its break: the cache at its full kind with the break that runs, or
/// nothing if that needs no answer; if none is told of there is what was there.
#[tactic(auto, using(crate::proofs::BreaksBegunLaws::begun_breaks, crate::proofs::BreaksBegunLaws::begun_cache, crate::proofs::BreaksBegunLaws::begun_leave, crate::proofs::BreaksBegunLaws::begun_serve))]
pub fn breaks_are_told()
    ensures told { (s : CoreState) (ask : Claim) → breaks_told (breaks_begun ask s).0 ≡ sorted (told_before s.names) (planned ask s.claims).breaks }
    ensures cache { (s : CoreState) (ask : Claim) (file : ℕ) (party : Party) → IsGood s → held_in (breaks_begun ask s).1.claims (CacheOf file party) ≡ else_was (begun_at (moment_after s.clock s.times.break_time) file party (breaks_begun ask s).0) (held_in s.claims (CacheOf file party)) }
    ensures stay { (s : CoreState) (ask : Claim) → who_left (breaks_begun ask s).0 ≡ [] }
    ensures unserved { (s : CoreState) (ask : Claim) → serves_none (breaks_begun ask s).0 ≡ true }
{}

/// If the plan has no break nothing is told, and nothing changes. So it is if the ask's file has no cache; then no
/// break is awaited, and what blocks the ask blocks it for good.
#[tactic(auto, using(crate::proofs::BreaksBegunLaws::none_begun, crate::proofs::BreaksBegunLaws::none_begun_there, crate::proofs::BreaksInOrderLaws::none_planned, crate::proofs::BreaksInOrderLaws::all_final))]
pub fn without_caches_nothing_begins()
    ensures none { (s : CoreState) (ask : Claim) → (planned ask s.claims).breaks ≡ [] → breaks_begun ask s ≡ ([], s) }
    ensures begun { (s : CoreState) (ask : Claim) → list_any (λ c. (c.file == ask.file) && is_cache c.what) s.claims ≡ false → breaks_begun ask s ≡ ([], s) }
    ensures planned { (ask : Claim) (held : List Claim) → list_any (λ c. (c.file == ask.file) && is_cache c.what) held ≡ false → planned ask held ≡ record { breaks = []; awaited = None; left = None } }
    ensures for_good { (ask : Claim) (held : List Claim) → list_any (λ c. (c.file == ask.file) && is_cache c.what) held ≡ false → filter (is_final ask held) held ≡ filter (blocks ask) held }
{}
