//! What the clock does.
ghost use Rattle.std.specs.Prelude.{◌≡◌, ℕ, ◌++◌, List, [], ◌∷◌, option_map, IfOk, OnOk, if◌then◌else◌};
ghost use Rattle.xl_core.specs.BreakAnswers.{client_of};
ghost use Rattle.xl_names.specs.declared.name.Name.TheVariants.{NfsParty};
ghost use Rattle.xl_core.specs.Askers.{party_named};
ghost use Rattle.xl_core.specs.Good.{IsGood};
ghost use Rattle.xl_core.specs.Ticks.{advanced, renew, end_some, barred, gone_client, forgotten, may_expire, try_expire, behind_told, in_turn, is_still_held, is_lease_over, try_lapse, lapse_all, expire_all, try_end_grace, tick};
ghost use Rattle.xl_core.specs.Unsettled.{AreHeldUp};
ghost use Rattle.xl_core.specs.declared.unsettled.Unsettled.{Unsettled};
ghost use Rattle.xl_core.specs.State.{MayBe, GoesOn};
ghost use Rattle.xl_core.specs.Stores.{client_name, without_name, store_failed, HandsOn};
ghost use Rattle.xl_core.specs.Whole.{state_of};

use crate::ask::Effect;
use crate::calls::leave;
use crate::due::due;
use crate::lease::{drop_lease, ended, is_ended, later, moment_after, put_lease};
use crate::parts::Parts;
use crate::stores::{client_name, store, without_name};
use crate::unsettled::{Unsettled, note};
use std::alloc::{AllocError, Global};
use xl_base::{Keeper, Moment, Party, Protocol, Sequence};
use xl_matrix::Claim;
use xl_names::{Name, Names};
use xl_table::Leaver;

/// The clock reads this moment, if that is later.
#[tactic(auto, unfolding(crate::specs::Ticks::advanced), using(crate::proofs::GoodLaws::advanced_good, crate::proofs::UnsettledLaws::advanced_up))]
fn advance(parts: &mut Parts, now: Moment)
    requires good { IsGood (state_of parts.old) }
    ensures state { state_of parts.new ≡ advanced (state_of parts.old) now }
    ensures good { IsGood (state_of parts.new) }
    ensures held_up { (u : Unsettled) → AreHeldUp u (state_of parts.old) → AreHeldUp u (state_of parts.new) }
{
    parts.clock = later(parts.clock, now);
}

/// The client's lease runs for its whole length from now on.
#[tactic(auto, unfolding(crate::specs::Ticks::renew))]
pub(crate) fn renew(
    alloc: Global,
    parts: &mut Parts,
    client: &[u8],
) -> Result<Sequence<Effect>, AllocError>
    ensures { IfOk result (λ effects. renew (state_of parts.old) client.now ≡ (effects, state_of parts.new)) }
{
    let until = moment_after(parts.clock, parts.times.lease);
    put_lease(
        &mut parts.leases,
        Sequence::from_slice(alloc, client)?,
        until,
    )?;
    Ok(Sequence::new(alloc))
}

/// The party of an NFSv4 client, if its name is kept.
fn party_of(alloc: Global, names: &Names, client: &[u8]) -> Result<Option<Party>, AllocError>
    ensures { IfOk result (λ party. party ≡ party_named names.now (NfsParty client.now)) }
{
    let name = Name::NfsParty(Sequence::from_slice(alloc, client)?);
    Ok(
        names
            .find(&name)
            .map(|number| Party::Name(Protocol::Nfs, number)),
    )
}

/// Takes out all claims and waiters of a party, if there is one.
#[tactic(auto, unfolding(crate::specs::Settle::end_party))]
fn end_some(
    alloc: Global,
    parts: &mut Parts,
    unsettled: &mut Unsettled,
    party: Option<Party>,
) -> Result<Sequence<Effect>, AllocError>
    requires good { IsGood (state_of parts.old) }
    requires held_up { AreHeldUp unsettled.old (state_of parts.old) }
    ensures state { IfOk result (λ effects. end_some (state_of parts.old) party ≡ (effects, state_of parts.new)) }
    ensures held_up { AreHeldUp unsettled.new (state_of parts.new) }
{
    match party {
        Some(party) => leave(alloc, parts, unsettled, Leaver::Party(party)),
        None => Ok(Sequence::new(alloc)),
    }
}

/// The client may reclaim no more in the grace that runs.
#[tactic(auto, unfolding(crate::specs::Ticks::barred), using(crate::proofs::TickCode::barred_good))]
fn bar(alloc: Global, parts: &mut Parts, client: &[u8]) -> Result<(), AllocError>
    requires good { IsGood (state_of parts.old) }
    ensures state { OnOk result (state_of parts.new ≡ barred (state_of parts.old) client.now) }
    ensures good { IsGood (state_of parts.new) }
    ensures held_up { (u : Unsettled) → AreHeldUp u (state_of parts.old) → AreHeldUp u (state_of parts.new) }
{
    parts.grace.expired(&client_name(alloc, client)?);
    Ok(())
}

/// Takes out all that the client has, its lease, and its right to reclaim in the grace that runs.
fn take_out(
    alloc: Global,
    parts: &mut Parts,
    unsettled: &mut Unsettled,
    client: Sequence<u8>,
) -> Result<Sequence<Effect>, AllocError>
    requires good { IsGood (state_of parts.old) }
    requires held_up { AreHeldUp unsettled.old (state_of parts.old) }
    ensures state { IfOk result (λ effects. gone_client (state_of parts.old) client ≡ (effects, state_of parts.new)) }
    ensures held_up { AreHeldUp unsettled.new (state_of parts.new) }
{
    bar(alloc, parts, client.as_slice())?;
    let party = party_of(alloc, &parts.names, client.as_slice())?;
    let mut effects = end_some(alloc, parts, unsettled, party)?;
    drop_lease(&mut parts.leases, &client);
    effects.push(Effect::Expired(client))?;
    Ok(effects)
}

/// Stores the record without the client, if it has it, and whether the client may be taken out then.
#[tactic(auto, using(crate::proofs::StoreLaws::goes_on_self, crate::proofs::StoreLaws::hands_self))]
fn forget<K: Keeper>(
    alloc: Global,
    parts: &mut Parts,
    keeper: &mut K,
    client: &[u8],
) -> Result<bool, AllocError>
    ensures may { (n : ℕ) → IfOk result (λ ok. MayBe n (state_of parts.new) → may_expire n (state_of parts.old) client.now ≡ ok) }
    ensures state { IfOk result (λ ok. state_of parts.new ≡ (if ok then forgotten (state_of parts.old) client.now else store_failed (without_name (client_name client.now) parts.old.stable) (state_of parts.old))) }
    ensures on { OnOk result (GoesOn (state_of parts.old) (state_of parts.new)) }
    ensures keeper { OnOk result (HandsOn (state_of parts.old) (state_of parts.new) (record { held = K.held keeper.old; given = K.given keeper.old; faults = K.faults keeper.old; left = K.left keeper.old }) (record { held = K.held keeper.new; given = K.given keeper.new; faults = K.faults keeper.new; left = K.left keeper.new })) }
    ensures good { OnOk result (IsGood (state_of parts.old) → IsGood (state_of parts.new)) }
    ensures held_up { (u : Unsettled) → AreHeldUp u (state_of parts.old) → AreHeldUp u (state_of parts.new) }
{
    let name = client_name(alloc, client)?;
    if !parts.stable.contains(&name) {
        return Ok(true);
    }
    let shorter = without_name(alloc, &parts.stable, &name)?;
    store(alloc, parts, keeper, shorter)
}

/// Expires the client: stores the record without it, and takes out all that it has. If the store fails all stays.
#[tactic(auto, using(crate::proofs::TickCode::expires_not))]
fn expire<K: Keeper>(
    alloc: Global,
    parts: &mut Parts,
    unsettled: &mut Unsettled,
    keeper: &mut K,
    client: Sequence<u8>,
) -> Result<Sequence<Effect>, AllocError>
    requires good { IsGood (state_of parts.old) }
    requires held_up { AreHeldUp unsettled.old (state_of parts.old) }
    ensures state { (n : ℕ) → IfOk result (λ effects. MayBe n (state_of parts.new) → try_expire n (state_of parts.old) client ≡ (effects, state_of parts.new)) }
    ensures held_up { AreHeldUp unsettled.new (state_of parts.new) }
    ensures on { OnOk result (GoesOn (state_of parts.old) (state_of parts.new)) }
    ensures keeper { OnOk result (HandsOn (state_of parts.old) (state_of parts.new) (record { held = K.held keeper.old; given = K.given keeper.old; faults = K.faults keeper.old; left = K.left keeper.old }) (record { held = K.held keeper.new; given = K.given keeper.new; faults = K.faults keeper.new; left = K.left keeper.new })) }
{
    if !forget(alloc, parts, keeper, client.as_slice())? {
        return Ok(Sequence::new(alloc));
    }
    let effects = take_out(alloc, parts, unsettled, client)?;
    Ok(effects)
}

/// Puts effects behind others.
fn push_all(effects: &mut Sequence<Effect>, more: Sequence<Effect>) -> Result<(), AllocError>
    ensures { OnOk result (effects.new ≡ effects.old ++ more) }
{
    for effect in more.into_vec() {
        effects.push(effect)?;
    }
    Ok(())
}

/// Takes out all that the client has, and its lease, if that has ended, and adds its effects behind those before.
#[tactic(auto, using(crate::proofs::UnsettledLaws::told_more, crate::proofs::UnsettledLaws::told_no_more, crate::proofs::StoreLaws::goes_on_self, crate::proofs::StoreLaws::hands_self))]
fn expire_one<K: Keeper>(
    alloc: Global,
    parts: &mut Parts,
    unsettled: &mut Unsettled,
    keeper: &mut K,
    effects: &mut Sequence<Effect>,
    client: &Sequence<u8>,
) -> Result<(), AllocError>
    requires good { IsGood (state_of parts.old) }
    requires held_up { AreHeldUp unsettled.old (state_of parts.old) }
    ensures turn { (n : ℕ) → OnOk result ((clients : List (List ℕ)) → MayBe n (state_of parts.new) → behind_told effects.old (in_turn is_lease_over (try_expire n) (client.now ∷ clients) (state_of parts.old)) ≡ behind_told effects.new (in_turn is_lease_over (try_expire n) clients (state_of parts.new))) }
    ensures good { OnOk result (IsGood (state_of parts.new)) }
    ensures held_up { AreHeldUp unsettled.new (state_of parts.new) }
    ensures on { OnOk result (GoesOn (state_of parts.old) (state_of parts.new)) }
    ensures keeper { OnOk result (HandsOn (state_of parts.old) (state_of parts.new) (record { held = K.held keeper.old; given = K.given keeper.old; faults = K.faults keeper.old; left = K.left keeper.old }) (record { held = K.held keeper.new; given = K.given keeper.new; faults = K.faults keeper.new; left = K.left keeper.new })) }
{
    if is_ended(&parts.leases, parts.clock, client.as_slice()) {
        let id = Sequence::from_slice(alloc, client.as_slice())?;
        let told = expire(alloc, parts, unsettled, keeper, id)?;
        push_all(effects, told)?;
    }
    Ok(())
}

/// Lets each client expire whose lease has ended, in the order of their id strings, and adds its effects behind those before.
#[tactic(auto, unfolding(crate::specs::Ticks::expire_all), using(crate::proofs::StoreLaws::goes_on_self, crate::proofs::StoreLaws::hands_self))]
fn expire_all<K: Keeper>(
    alloc: Global,
    parts: &mut Parts,
    unsettled: &mut Unsettled,
    keeper: &mut K,
    effects: &mut Sequence<Effect>,
) -> Result<(), AllocError>
    requires good { IsGood (state_of parts.old) }
    requires held_up { AreHeldUp unsettled.old (state_of parts.old) }
    ensures state { (n : ℕ) → OnOk result (MayBe n (state_of parts.new) → behind_told effects.old (expire_all n (state_of parts.old)) ≡ (effects.new, state_of parts.new)) }
    ensures good { OnOk result (IsGood (state_of parts.new)) }
    ensures held_up { AreHeldUp unsettled.new (state_of parts.new) }
    ensures on { OnOk result (GoesOn (state_of parts.old) (state_of parts.new)) }
    ensures keeper { OnOk result (HandsOn (state_of parts.old) (state_of parts.new) (record { held = K.held keeper.old; given = K.given keeper.old; faults = K.faults keeper.old; left = K.left keeper.old }) (record { held = K.held keeper.new; given = K.given keeper.new; faults = K.faults keeper.new; left = K.left keeper.new })) }
{
    let clients = ended(alloc, &parts.leases, parts.clock)?;
    for client in clients.iter() {
        expire_one(alloc, parts, unsettled, keeper, effects, client)?;
    }
    Ok(())
}

/// A copy of the id string of the party, if it is an NFSv4 client.
fn client_of(alloc: Global, names: &Names, party: Party) -> Result<Option<Sequence<u8>>, AllocError>
    ensures { IfOk result (λ client. client ≡ client_of names.now party) }
{
    let Party::Name(Protocol::Nfs, number) = party else {
        return Ok(None);
    };
    match names.as_slice().get(number as usize) {
        Some(Name::NfsParty(id)) => Ok(Some(Sequence::from_slice(alloc, id.as_slice())?)),
        _ => Ok(None),
    }
}

/// Ends the break of a cache that nobody answered.
#[tactic(auto, unfolding(crate::specs::Ticks::try_lapse), using(crate::proofs::TickCode::claims_on, crate::proofs::TickCode::claims_hands))]
fn lapse<K: Keeper>(
    alloc: Global,
    parts: &mut Parts,
    unsettled: &mut Unsettled,
    keeper: &mut K,
    cache: &Claim,
) -> Result<Sequence<Effect>, AllocError>
    requires good { IsGood (state_of parts.old) }
    requires held_up { AreHeldUp unsettled.old (state_of parts.old) }
    ensures state { (n : ℕ) → IfOk result (λ effects. MayBe n (state_of parts.new) → try_lapse n (state_of parts.old) cache.now ≡ (effects, state_of parts.new)) }
    ensures held_up { AreHeldUp unsettled.new (state_of parts.new) }
    ensures on { OnOk result (GoesOn (state_of parts.old) (state_of parts.new)) }
    ensures keeper { OnOk result (HandsOn (state_of parts.old) (state_of parts.new) (record { held = K.held keeper.old; given = K.given keeper.old; faults = K.faults keeper.old; left = K.left keeper.old }) (record { held = K.held keeper.new; given = K.given keeper.new; faults = K.faults keeper.new; left = K.left keeper.new })) }
{
    match client_of(alloc, &parts.names, cache.party)? {
        Some(client) => expire(alloc, parts, unsettled, keeper, client),
        None => {
            note(&parts.queue, unsettled, cache.file);
            parts.table.remove(cache);
            Ok(Sequence::new(alloc))
        }
    }
}

/// Ends the break of a cache, if it is still held, and adds its effects behind those before.
#[tactic(auto, using(crate::proofs::UnsettledLaws::told_more, crate::proofs::UnsettledLaws::told_no_more, crate::proofs::StoreLaws::goes_on_self, crate::proofs::StoreLaws::hands_self))]
fn lapse_one<K: Keeper>(
    alloc: Global,
    parts: &mut Parts,
    unsettled: &mut Unsettled,
    keeper: &mut K,
    effects: &mut Sequence<Effect>,
    cache: &Claim,
) -> Result<(), AllocError>
    requires good { IsGood (state_of parts.old) }
    requires held_up { AreHeldUp unsettled.old (state_of parts.old) }
    ensures turn { (n : ℕ) → OnOk result ((caches : List Claim) → MayBe n (state_of parts.new) → behind_told effects.old (in_turn is_still_held (try_lapse n) (cache.now ∷ caches) (state_of parts.old)) ≡ behind_told effects.new (in_turn is_still_held (try_lapse n) caches (state_of parts.new))) }
    ensures good { OnOk result (IsGood (state_of parts.new)) }
    ensures held_up { AreHeldUp unsettled.new (state_of parts.new) }
    ensures on { OnOk result (GoesOn (state_of parts.old) (state_of parts.new)) }
    ensures keeper { OnOk result (HandsOn (state_of parts.old) (state_of parts.new) (record { held = K.held keeper.old; given = K.given keeper.old; faults = K.faults keeper.old; left = K.left keeper.old }) (record { held = K.held keeper.new; given = K.given keeper.new; faults = K.faults keeper.new; left = K.left keeper.new })) }
{
    if parts.table.contains(cache) {
        let told = lapse(alloc, parts, unsettled, keeper, cache)?;
        push_all(effects, told)?;
    }
    Ok(())
}

/// Ends the breaks whose deadline has come, in the order in which they are due, and adds its effects behind those before.
#[tactic(auto, unfolding(crate::specs::Ticks::lapse_all), using(crate::proofs::StoreLaws::goes_on_self, crate::proofs::StoreLaws::hands_self))]
fn lapse_all<K: Keeper>(
    alloc: Global,
    parts: &mut Parts,
    unsettled: &mut Unsettled,
    keeper: &mut K,
    effects: &mut Sequence<Effect>,
) -> Result<(), AllocError>
    requires good { IsGood (state_of parts.old) }
    requires held_up { AreHeldUp unsettled.old (state_of parts.old) }
    ensures state { (n : ℕ) → OnOk result (MayBe n (state_of parts.new) → behind_told effects.old (lapse_all n (state_of parts.old)) ≡ (effects.new, state_of parts.new)) }
    ensures good { OnOk result (IsGood (state_of parts.new)) }
    ensures held_up { AreHeldUp unsettled.new (state_of parts.new) }
    ensures on { OnOk result (GoesOn (state_of parts.old) (state_of parts.new)) }
    ensures keeper { OnOk result (HandsOn (state_of parts.old) (state_of parts.new) (record { held = K.held keeper.old; given = K.given keeper.old; faults = K.faults keeper.old; left = K.left keeper.old }) (record { held = K.held keeper.new; given = K.given keeper.new; faults = K.faults keeper.new; left = K.left keeper.new })) }
{
    let rows = due(alloc, parts)?;
    for row in rows.iter() {
        lapse_one(alloc, parts, unsettled, keeper, effects, &row.cache)?;
    }
    Ok(())
}

/// Ends the grace that runs, if its end has come and the record without the names that reclaimed nothing is stored. Then
/// whoever waits for its end may have a turn.
#[tactic(auto, using(crate::proofs::TickCode::ends_not, crate::proofs::TickCode::ends_failed, crate::proofs::TickCode::ends_so, crate::proofs::TickCode::graced_on, crate::proofs::TickCode::graced_hands, crate::proofs::HeldUpLaws::any_up, crate::proofs::StoreLaws::goes_on_self, crate::proofs::StoreLaws::hands_self))]
fn end_grace<K: Keeper>(
    alloc: Global,
    parts: &mut Parts,
    unsettled: &mut Unsettled,
    keeper: &mut K,
) -> Result<(), AllocError>
    requires good { IsGood (state_of parts.old) }
    requires held_up { AreHeldUp unsettled.old (state_of parts.old) }
    ensures state { (n : ℕ) → OnOk result (MayBe n (state_of parts.new) → try_end_grace n (state_of parts.old) ≡ state_of parts.new) }
    ensures held_up { AreHeldUp unsettled.new (state_of parts.new) }
    ensures on { OnOk result (GoesOn (state_of parts.old) (state_of parts.new)) }
    ensures keeper { OnOk result (HandsOn (state_of parts.old) (state_of parts.new) (record { held = K.held keeper.old; given = K.given keeper.old; faults = K.faults keeper.old; left = K.left keeper.old }) (record { held = K.held keeper.new; given = K.given keeper.new; faults = K.faults keeper.new; left = K.left keeper.new })) }
{
    if !parts.grace.is_over(parts.clock) {
        return Ok(());
    }
    let shorter = parts.grace.shorter(alloc, &parts.stable)?;
    if store(alloc, parts, keeper, shorter)? {
        parts.grace.end(parts.clock);
        *unsettled = Unsettled::All;
    }
    Ok(())
}

/// Reads the clock: each break is over whose deadline has come, each client expires whose lease has ended, and the grace that runs
/// ends if its end has come. The files of the claims that go are noted.
#[tactic(auto, using(crate::proofs::TickCode::ticked_on_so))]
pub(crate) fn tick<K: Keeper>(
    alloc: Global,
    parts: &mut Parts,
    unsettled: &mut Unsettled,
    keeper: &mut K,
    now: Moment,
) -> Result<Sequence<Effect>, AllocError>
    requires good { IsGood (state_of parts.old) }
    requires held_up { AreHeldUp unsettled.old (state_of parts.old) }
    ensures state { (n : ℕ) → IfOk result (λ effects. MayBe n (state_of parts.new) → tick n (state_of parts.old) now ≡ (effects, state_of parts.new)) }
    ensures good { OnOk result (IsGood (state_of parts.new)) }
    ensures held_up { AreHeldUp unsettled.new (state_of parts.new) }
    ensures on { OnOk result (GoesOn (state_of parts.old) (state_of parts.new)) }
    ensures keeper { OnOk result (HandsOn (state_of parts.old) (state_of parts.new) (record { held = K.held keeper.old; given = K.given keeper.old; faults = K.faults keeper.old; left = K.left keeper.old }) (record { held = K.held keeper.new; given = K.given keeper.new; faults = K.faults keeper.new; left = K.left keeper.new })) }
{
    advance(parts, now);
    let mut effects = Sequence::new(alloc);
    lapse_all(alloc, parts, unsettled, keeper, &mut effects)?;
    expire_all(alloc, parts, unsettled, keeper, &mut effects)?;
    end_grace(alloc, parts, unsettled, keeper)?;
    Ok(effects)
}
