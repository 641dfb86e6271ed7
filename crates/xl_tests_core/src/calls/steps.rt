//! What is done to a core, step by step, and what comes of it.

ghost use Rattle.std.specs.Prelude.{◌≡◌, true, OnOk, IfOk, IfSome};
ghost use Rattle.xl_base.specs.Lists.{IsIn};
ghost use Rattle.xl_core.specs.BreakAnswers.{may_be_left};
ghost use Rattle.xl_core.specs.Good.{IsGood};
ghost use Rattle.xl_wait.specs.Waiting.{is_waiting};

use super::asks::{Asked, ask_of};
use std::alloc::{AllocError, Global};
use xl_base::{Mark, MemoryKeeper, Moment, Owner, Party, Protocol, Record, Recorded, Sequence};
use xl_cache::{Wish, find_own_cache, rest_within};
use xl_core::{Answer, Core, Effect, Times};
use xl_grace::Grace;
use xl_matrix::{CacheKind, Claim, What};
use xl_wait::{Rooms, Waiter};

/// How long leases, grace and breaks last.
const TIMES: Times = Times {
    lease: 100,
    grace: 100,
    break_time: 10,
};

const LEFT: Rooms = Rooms {
    hosts: 256,
    owners: 8_192,
    opens: 4_096,
};

/// No NLM host may come.
const NO_HOSTS: Rooms = Rooms {
    hosts: 0,
    owners: 8_192,
    opens: 4_096,
};

/// No case draws as many numbers.
const MOST_NUMBERS: u32 = 1000;

/// What an ask is answered.
#[derive(Drop)]
pub(crate) enum Told {
    Granted,
    /// A claim stands against it.
    Conflict,
    /// That of this open does.
    Against(u32),
    Queued,
    Recall,
    /// Grace runs until this moment.
    Grace(u64),
    /// No grace runs; the clock reads this moment.
    NoGrace(u64),
    NotRecorded,
    StoreFailed,
    Full,
    NotHeld,
}

#[derive(Drop)]
pub(crate) enum Step {
    /// An ask is answered so, and there are so many effects besides.
    Ask(Asked, Told, usize),
    /// The same if no NLM host may come.
    AskInVain(Asked, Told, usize),
    /// A turn is had by the one who waits under this number, which is granted; by nobody for 0.
    Turn(u32),
    /// The one who waits under this number waits no more.
    Cancels(u32),
    /// A party leaves, and there are so many effects.
    Leaves(Party, usize),
    /// An open's answer to the break of its cache, by which this much is left, is taken or isn't.
    Answers(u32, Option<CacheKind>, bool),
    /// A party gives its cache back.
    GivesBack(Party),
    /// The clock reads this moment, and there are so many effects.
    Reads(u64, usize),
    /// The clock reads this moment, and just these clients expire, in this order.
    Expire(u64, &'static [u8]),
    /// A client's lease begins, or runs anew.
    Renews(u8),
    Begins,
    /// A party's cache of file 1 is this one, none for a dash.
    Has(Party, &'static str),
    /// The one claim that is held is a range, shared or exclusive.
    HasRange(bool),
    /// How many claims and names there are, and how many wait.
    Counts(usize, usize, usize),
    Clock(u64),
    /// The last number that was given out.
    Counter(u32),
    /// The record has these names, and the keeper holds it; so many records were given to be stored so far, of which the step
    /// stored so many.
    Stored(&'static [u8], usize, u64),
    /// The record's names have these marks, each of one byte again and again; a dash for none.
    Marks(&'static [u8]),
}

/// How a core starts.
#[derive(Clone, Copy)]
pub(crate) struct Start<'a> {
    pub(crate) moment: u64,
    /// The clients of NFSv4 that the record has, and behind them the callers of NLM.
    pub(crate) clients: &'a [u8],
    pub(crate) callers: &'a [u8],
    /// Behind them, names with the bytes that their marks are made of.
    pub(crate) marked: &'a [(Protocol, u8, u8)],
    /// These calls of the keeper fail, of which the first is 1.
    pub(crate) failing: &'a [u64],
}

fn is_answer(answer: &Answer, wanted: &Told) -> bool {
    match (answer, wanted) {
        (Answer::Granted(_), Told::Granted) => true,
        (Answer::Conflict(_), Told::Conflict) => true,
        (Answer::Conflict(claim), Told::Against(open)) => {
            matches!(claim.owner, Owner::Open(number) if number == *open)
        }
        (Answer::Queued(_), Told::Queued) => true,
        (Answer::Recall(_), Told::Recall) => true,
        (Answer::Grace(until), Told::Grace(moment)) => until.0 == *moment,
        (Answer::NoGrace(clock), Told::NoGrace(moment)) => clock.0 == *moment,
        (Answer::NotRecorded, Told::NotRecorded) => true,
        (Answer::StoreFailed, Told::StoreFailed) => true,
        (Answer::Full(_), Told::Full) => true,
        (Answer::NotHeld, Told::NotHeld) => true,
        _ => false,
    }
}

/// Whether the ask is answered so, if so many rows are left, and there are so many effects.
fn is_told(
    alloc: Global,
    core: &mut Core,
    keeper: &mut MemoryKeeper,
    asked: &Asked,
    left: &Rooms,
    wanted: &Told,
    effects: usize,
) -> Result<bool, AllocError>
    requires good { IsGood core.old }
    ensures good { OnOk result (IsGood core.new) }
{
    let ask = ask_of(alloc, asked)?;
    if core.counter() > MOST_NUMBERS {
        return Err(AllocError);
    }
    let (answer, told) = core.ask(alloc, keeper, &ask, left)?;
    Ok(is_answer(&answer, wanted) && told.as_slice().len() == effects)
}

fn is_served(told: &[Effect], wanted: u32) -> bool {
    matches!(told, [Effect::Served(_, number, Answer::Granted(_))] if *number == wanted)
}

fn is_turn(
    alloc: Global,
    core: &mut Core,
    keeper: &mut MemoryKeeper,
    number: u32,
) -> Result<bool, AllocError>
    requires good { IsGood core.old }
    ensures good { OnOk result (IsGood core.new) }
{
    if core.counter() > MOST_NUMBERS {
        return Err(AllocError);
    }
    let turn = core.settle(alloc, keeper, &LEFT)?;
    Ok(match turn {
        Some(told) => is_served(told.as_slice(), number),
        None => number == 0,
    })
}

fn is_waiting(waiters: &[Waiter], number: u32) -> bool
    ensures { result ≡ is_waiting number waiters.now }
{
    'waiters: for waiter in waiters {
        if waiter.id == number {
            return true;
        }
    }
    false
}

/// Cancels the wait of this number; false if nobody waits so.
fn cancels(alloc: Global, core: &mut Core, number: u32) -> Result<bool, AllocError>
    requires good { IsGood core.old }
    ensures good { OnOk result (IsGood core.new) }
{
    if !is_waiting(core.queue().waiters(), number) {
        return Ok(false);
    }
    let told = core.cancel(alloc, number)?;
    Ok(told.as_slice().len() == 1)
}

fn leaves(alloc: Global, core: &mut Core, party: Party, effects: usize) -> Result<bool, AllocError>
    requires good { IsGood core.old }
    ensures good { OnOk result (IsGood core.new) }
{
    let told = core.end_party(alloc, party)?;
    Ok(told.as_slice().len() == effects)
}

fn cache_word(what: What) -> &'static str {
    match what {
        What::Cache(CacheKind::RWH, None) => "RWH",
        What::Cache(CacheKind::R, None) => "R",
        What::Cache(CacheKind::WriteDeleg, None) => "write",
        What::Cache(CacheKind::RWH, Some(_)) => "RWH breaks",
        What::Cache(CacheKind::WriteDeleg, Some(_)) => "write breaks",
        _ => "other",
    }
}

/// The wish with which the party's own cache of the file is found.
fn whose(alloc: Global, party: Party) -> Wish {
    Wish {
        file: 1,
        owner: Owner::Open(0),
        party,
        kinds: Sequence::new(alloc),
    }
}

fn has(alloc: Global, core: &Core, party: Party, word: &str) -> Result<bool, AllocError> {
    Ok(match own_cache(alloc, core, party)? {
        Some(cache) => cache_word(cache.what) == word,
        None => word == "-",
    })
}

/// The party's cache of file 1.
fn own_cache(alloc: Global, core: &Core, party: Party) -> Result<Option<Claim>, AllocError>
    ensures { IfOk result (λ r. IfSome r (λ cache. IsIn cache core.now.claims)) }
{
    let held = core.table().of_file(alloc, 1)?;
    Ok(find_own_cache(&whose(alloc, party), &held))
}

/// Answers the break of a cache that is held.
fn ack(alloc: Global, core: &mut Core, cache: &Claim, to: Option<CacheKind>)
    requires held { IsIn cache.now core.old.claims }
    requires runs { may_be_left cache.now.what to ≡ true }
    requires good { IsGood core.old }
    ensures good { IsGood core.new }
{
    let _told = core.ack(alloc, cache, to);
}

/// Answers the break of the open's cache, of which this much is to be left; false if none runs that leaves it.
fn answers(
    alloc: Global,
    core: &mut Core,
    number: u32,
    to: Option<CacheKind>,
) -> Result<bool, AllocError>
    requires good { IsGood core.old }
    ensures good { OnOk result (IsGood core.new) }
{
    let Some(cache) = own_cache(alloc, core, Party::Open(number))? else {
        return Ok(false);
    };
    let What::Cache(_, Some(running)) = cache.what else {
        return Ok(false);
    };
    if !rest_within(to, running.target) {
        return Ok(false);
    }
    ack(alloc, core, &cache, to);
    Ok(true)
}

/// Gives the party's cache back; false if it has none.
fn gives_back(alloc: Global, core: &mut Core, party: Party) -> Result<bool, AllocError>
    requires good { IsGood core.old }
    ensures good { OnOk result (IsGood core.new) }
{
    let Some(cache) = own_cache(alloc, core, party)? else {
        return Ok(false);
    };
    let told = core.give_back(alloc, &cache);
    Ok(told.is_empty())
}

/// Whether the answer to the break is taken, or isn't.
fn is_taken(
    alloc: Global,
    core: &mut Core,
    number: u32,
    to: Option<CacheKind>,
    wanted: bool,
) -> Result<bool, AllocError>
    requires good { IsGood core.old }
    ensures good { OnOk result (IsGood core.new) }
{
    let taken = answers(alloc, core, number, to)?;
    Ok(taken == wanted)
}

fn reads(
    alloc: Global,
    core: &mut Core,
    keeper: &mut MemoryKeeper,
    moment: u64,
    effects: usize,
) -> Result<bool, AllocError>
    requires good { IsGood core.old }
    ensures good { OnOk result (IsGood core.new) }
{
    let told = core.tick(alloc, keeper, Moment(moment))?;
    Ok(told.as_slice().len() == effects)
}

fn is_expiry(effect: &Effect, client: u8) -> bool {
    match effect {
        Effect::Expired(id) => id.as_slice() == [client].as_slice(),
        _ => false,
    }
}

/// Whether just these clients expire, in this order.
fn are_expired(effects: &[Effect], clients: &[u8]) -> bool {
    if effects.len() != clients.len() {
        return false;
    }
    'effects: for (effect, client) in effects.iter().zip(clients) {
        if !is_expiry(effect, *client) {
            return false;
        }
    }
    true
}

fn all_expire(
    alloc: Global,
    core: &mut Core,
    keeper: &mut MemoryKeeper,
    moment: u64,
    clients: &[u8],
) -> Result<bool, AllocError>
    requires good { IsGood core.old }
    ensures good { OnOk result (IsGood core.new) }
{
    let told = core.tick(alloc, keeper, Moment(moment))?;
    Ok(are_expired(told.as_slice(), clients))
}

fn renews(alloc: Global, core: &mut Core, client: u8) -> Result<bool, AllocError>
    requires good { IsGood core.old }
    ensures good { OnOk result (IsGood core.new) }
{
    let told = core.renew(alloc, &[client])?;
    Ok(told.is_empty())
}

fn begins(core: &mut Core) -> Result<bool, AllocError>
    requires good { IsGood core.old }
    ensures good { OnOk result (IsGood core.new) }
{
    core.begin_step();
    Ok(true)
}

fn has_range(alloc: Global, core: &Core, exclusive: bool) -> Result<bool, AllocError> {
    let claims = core.table().claims(alloc)?;
    Ok(match claims.as_slice() {
        [claim] => matches!(claim.what, What::Range(_, mode) if mode == exclusive),
        _ => false,
    })
}

/// Whether these are the names, each of one byte.
fn are_named(names: &[Recorded], bytes: &[u8]) -> bool {
    if names.len() != bytes.len() {
        return false;
    }
    'names: for (recorded, byte) in names.iter().zip(bytes) {
        if recorded.name.as_slice() != [*byte].as_slice() {
            return false;
        }
    }
    true
}

/// Whether these are the names' marks, each of one byte again and again; a dash is none.
fn are_marked(names: &[Recorded], bytes: &[u8]) -> bool {
    if names.len() != bytes.len() {
        return false;
    }
    for (recorded, byte) in names.iter().zip(bytes) {
        let is_its = match &recorded.mark {
            Some(mark) => mark.is(&mark_of(recorded.protocol, *byte)),
            None => *byte == b'-',
        };
        if !is_its {
            return false;
        }
    }
    true
}

fn is_stored(core: &Core, keeper: &MemoryKeeper, names: &[u8], given: usize, made: u64) -> bool {
    are_named(core.stable().names(), names)
        && are_named(keeper.held().names(), names)
        && keeper.given().len() == given
        && core.made() == made
}

/// Whether the core is as the step says, which changes nothing.
fn is_so(
    alloc: Global,
    core: &Core,
    keeper: &MemoryKeeper,
    step: &Step,
) -> Result<bool, AllocError> {
    match step {
        Step::Has(party, word) => has(alloc, core, *party, word),
        Step::HasRange(exclusive) => has_range(alloc, core, *exclusive),
        Step::Counts(claims, names, waiting) => {
            Ok(
                core.table().len() == *claims
                    && core.names().len() == *names
                    && core.queue().len() == *waiting,
            )
        }
        Step::Clock(moment) => Ok(core.clock().0 == *moment),
        Step::Counter(number) => Ok(core.counter() == *number),
        Step::Stored(names, given, made) => Ok(is_stored(core, keeper, names, *given, *made)),
        Step::Marks(bytes) => Ok(
            are_marked(core.stable().names(), bytes) && are_marked(keeper.held().names(), bytes),
        ),
        _ => Ok(false),
    }
}

/// Whether a step comes to what it says.
fn is_done(
    alloc: Global,
    core: &mut Core,
    keeper: &mut MemoryKeeper,
    step: &Step,
) -> Result<bool, AllocError>
    requires good { IsGood core.old }
    ensures good { OnOk result (IsGood core.new) }
{
    match step {
        Step::Ask(asked, told, effects) => {
            is_told(alloc, core, keeper, asked, &LEFT, told, *effects)
        }
        Step::AskInVain(asked, told, effects) => {
            is_told(alloc, core, keeper, asked, &NO_HOSTS, told, *effects)
        }
        Step::Turn(number) => is_turn(alloc, core, keeper, *number),
        Step::Cancels(number) => cancels(alloc, core, *number),
        Step::Leaves(party, effects) => leaves(alloc, core, *party, *effects),
        Step::Answers(number, to, wanted) => is_taken(alloc, core, *number, *to, *wanted),
        Step::GivesBack(party) => gives_back(alloc, core, *party),
        Step::Reads(moment, effects) => reads(alloc, core, keeper, *moment, *effects),
        Step::Expire(moment, clients) => all_expire(alloc, core, keeper, *moment, clients),
        Step::Renews(client) => renews(alloc, core, *client),
        Step::Begins => begins(core),
        looks => is_so(alloc, core, keeper, looks),
    }
}

/// The place of the first step that comes to something else.
fn first_wrong(
    alloc: Global,
    core: &mut Core,
    keeper: &mut MemoryKeeper,
    steps: &[Step],
) -> Result<Option<usize>, AllocError>
    requires good { IsGood core.old }
    ensures good { OnOk result (IsGood core.new) }
{
    'steps: for (place, step) in steps.iter().enumerate() {
        if !is_done(alloc, core, keeper, step)? {
            return Ok(Some(place));
        }
    }
    Ok(None)
}

/// The mark of this protocol that is made of the byte.
fn mark_of(protocol: Protocol, byte: u8) -> Mark {
    match protocol {
        Protocol::Nfs => Mark::Verifier([byte; 8]),
        _ => Mark::State([byte; 4]),
    }
}

fn add_name(
    record: &mut Record,
    alloc: Global,
    protocol: Protocol,
    name: u8,
    mark: Option<Mark>,
) -> Result<(), AllocError> {
    let name = Sequence::from_slice(alloc, &[name])?;
    match record.add(Recorded {
        protocol,
        name,
        mark,
    }) {
        Ok(()) => Ok(()),
        Err(_) => Err(AllocError),
    }
}

fn record_of(alloc: Global, start: &Start) -> Result<Record, AllocError> {
    let mut record = Record::new(alloc);
    for name in start.clients {
        add_name(&mut record, alloc, Protocol::Nfs, *name, None)?;
    }
    for name in start.callers {
        add_name(&mut record, alloc, Protocol::Nlm, *name, None)?;
    }
    for (protocol, name, byte) in start.marked {
        let mark = mark_of(*protocol, *byte);
        add_name(&mut record, alloc, *protocol, *name, Some(mark))?;
    }
    Ok(record)
}

/// A core that starts with this record, and its grace.
fn started(alloc: Global, record: Record, moment: u64) -> Result<Core, AllocError>
    ensures { IfOk result (λ core. IsGood core) }
{
    let grace = Grace::start(alloc, &record, Moment(moment), TIMES.grace)?;
    Ok(Core::new(alloc, record, grace, Moment(moment), TIMES))
}

/// The row of steps, and the place in it, of the first step that comes to something else behind such a start.
pub(crate) fn wrong_from(
    alloc: Global,
    start: &Start,
    rows: &[&[Step]],
) -> Result<Option<(usize, usize)>, AllocError> {
    let record = record_of(alloc, start)?;
    let mut keeper = MemoryKeeper::new(alloc, record.copy(alloc)?, start.failing.to_vec(alloc)?);
    let mut core = started(alloc, record, start.moment)?;
    'rows: for (row, steps) in rows.iter().enumerate() {
        if let Some(place) = first_wrong(alloc, &mut core, &mut keeper, steps)? {
            return Ok(Some((row, place)));
        }
    }
    Ok(None)
}
