//! Laws of breaks. The functions do nothing; what they ensure holds of every cache.
ghost use Rattle.std.specs.Prelude.{◌≡◌, ℕ, Bool, true, false, ◌&&◌, Option, Some, None, IfSome};
ghost use Rattle.xl_base.specs.declared.name.Party.{Party};
ghost use Rattle.xl_matrix.specs.declared.claim.CacheKind.{CacheKind};
ghost use Rattle.xl_cache.specs.declared.need.Need.{Need};
ghost use Rattle.xl_cache.specs.Targets.{is_delegation, target_of, rest_lies_within, together};
ghost use Rattle.xl_cache.specs.Levels.{state_of, kind_of_state};
ghost use Rattle.xl_cache.specs.Parties.{is_kind_of, is_rest_of};
ghost use Rattle.xl_cache.specs.BreakPlans.{is_oplock};
ghost use Rattle.xl_cache.specs.Wishing.{joined};

/// Several reasons leave what all leave: what may stay of a cache after a break for two reasons is what may stay after
/// a break for each of them.
pub fn leaves_what_all_leave()
    ensures { (kind : CacheKind) (p q : Need) (left : Option CacheKind) → rest_lies_within left (target_of kind (together p q)) ≡ (rest_lies_within left (target_of kind p) && rest_lies_within left (target_of kind q)) }
{}

/// Lease states and kinds are the same thing, delegations aside.
pub fn lease_kinds_have_states()
    ensures read { (kind : CacheKind) → is_delegation kind ≡ false → kind_of_state (state_of (Some kind)) ≡ Some kind }
    ensures shown { (state : ℕ) (kind : CacheKind) → kind_of_state state ≡ Some kind → state_of (Some kind) ≡ state }
{}

/// Breaks and wishes keep to the kinds that the party's protocol has: what a break leaves of a cache is nothing or such
/// a kind, if the need says of an oplock that it is one, and the least kind with two such kinds is one.
pub fn kinds_go_by_party()
    ensures broken { (p : Party) (kind : CacheKind) (need : Need) → is_kind_of p kind ≡ true → need.oplock ≡ is_oplock p → is_rest_of p (target_of kind need) ≡ true }
    ensures joined { (p : Party) (kind other : CacheKind) → is_kind_of p kind ≡ true → is_kind_of p other ≡ true → IfSome (joined kind other) (λ whole. is_kind_of p whole ≡ true) }
{}
