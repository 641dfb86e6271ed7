//! The calls that the draws of a number give, stepped one after the other.
ghost use Rattle.std.specs.Prelude.{◌≡◌, ◌+◌, ◌%◌, ◌<◌, ◌≤◌, ◌^◌, [], ◌∷◌, ◌++◌, length, take, true, false, Ok, Err, None, OnOk, OnErr, IfOk, IfErr, IfSome};
ghost use Rattle.xl_base.specs.Handles.{handle};
ghost use Rattle.xl_base.specs.declared.event.Event.TheVariants.{Message};
ghost use Rattle.xl_rpc.specs.Calls.{HeadFits, shown_head};
ghost use Rattle.xl_nlm.specs.Arguments.{CallFits, procedure_of};
ghost use Rattle.xl_nlm.specs.Items.{shown_lock, shown_call};
ghost use Rattle.xl_house.specs.Housed.{is_spoiled};
ghost use Rattle.xl_capture.specs.Capture.{all_stores};
ghost use Rattle.xl_house.specs.Journals.{replay, entry, entries_of, is_restart, most_entries};
ghost use Rattle.xl_house.specs.Machine.{step};
ghost use Rattle.xl_house.specs.State.{start_of};
ghost use Rattle.xl_words.specs.Words.{most_made};
ghost use Rattle.xl_make.specs.Made.{next, draw, fourth, exclusive_by, lock_by, asked_by, call_by, call_from, head_to, record_of, calls_from, made, made_files, made_head, made_entries, surely};

use std::alloc::{AllocError, Global};
use xl_base::{BudgetKeeper, Event, Halt, Kind, Record, Sequence, handle_of};
use xl_capture::ALL_STORES;
use xl_house::House;
use xl_jobs::{exports_with, start};
use xl_nlm::{Lock, LockArgs, NlmCall, TestArgs, UnlockArgs, procedure, write};
use xl_programs::{NLM, NLM_VERSION};
use xl_rpc::{Auth, CallHead, XdrOut, write_call};

/// The draws of a call.
#[derive(Clone, Copy)]
struct Draws {
    first: u32,
    second: u32,
    third: u32,
    fourth: u32,
}

/// The number behind this one, in the generator x -> (1103515245 x + 12345) mod 2^31.
fn next(x: u32) -> u32
    requires { x < 2 ^ 31 }
    ensures next { result ≡ next x }
    ensures fit { result < 2 ^ 31 }
{
    ((u64::from(x) * 1_103_515_245 + 12_345) % (1 << 31)) as u32
}

/// Four draws, each the upper bits of a number, and the last of these numbers.
fn draw(x: u32) -> (Draws, u32)
    requires { x < 2 ^ 31 }
    ensures draws { result.0 ≡ record { first = draw (next x); second = draw (next (next x)); third = draw (next (next (next x))); fourth = draw (fourth x) } }
    ensures last { result.1 ≡ fourth x }
    ensures fit { result.1 < 2 ^ 31 }
{
    let a = next(x);
    let b = next(a);
    let c = next(b);
    let d = next(c);
    let draws = Draws {
        first: a / 65536,
        second: b / 65536,
        third: c / 65536,
        fourth: d / 65536,
    };
    (draws, d)
}

/// The range of a call and its owner. The handle is that of the file that the second draw names.
fn lock<'a>(fh: &'a [u8], draws: Draws) -> Lock<'a>
    requires { fh.now ≡ handle (1 + draws.second % 8) }
    ensures { shown_lock result ≡ lock_by draws.second draws.third draws.fourth }
{
    Lock {
        caller_name: b"m",
        fh,
        oh: b"",
        svid: (draws.third % 4) as i32,
        l_offset: u64::from(10 * (draws.fourth % 16)),
        l_len: 10,
    }
}

/// The call that a first draw asks for, and its procedure: LOCK by halves, UNLOCK and TEST by quarters.
fn call<'a>(first: u32, lock: Lock<'a>) -> (u32, NlmCall<'a>)
    ensures call { shown_call result.1 ≡ asked_by (first % 4) (exclusive_by first) (shown_lock lock.entry) }
    ensures procedure { result.0 ≡ procedure_of (shown_call result.1) }
{
    let cookie = b"";
    let exclusive = first / 4 % 2 == 1;
    match first % 4 {
        2 => (
            procedure::UNLOCK,
            NlmCall::Unlock(UnlockArgs { cookie, lock }),
        ),
        3 => (
            procedure::TEST,
            NlmCall::Test(TestArgs {
                cookie,
                exclusive,
                lock,
            }),
        ),
        _ => (
            procedure::LOCK,
            NlmCall::Lock(LockArgs {
                cookie,
                block: false,
                exclusive,
                lock,
                reclaim: false,
                state: 0,
            }),
        ),
    }
}

/// What stands before the arguments of the call of this number.
#[tactic(auto, unfolding(xl_rpc::specs::Calls::HeadFits))]
fn head<'a>(number: u32, procedure: u32) -> CallHead<'a>
    ensures is { shown_head result ≡ head_to number procedure }
    ensures fits { HeadFits (shown_head result) }
{
    let none = Auth {
        flavor: 0,
        body: b"",
    };
    CallHead {
        xid: number,
        prog: NLM,
        vers: NLM_VERSION,
        proc: procedure,
        cred: none,
        verf: none,
    }
}

/// Writes the record of a call in place of what was written before.
#[tactic(auto, unfolding(crate::specs::Made::record_of))]
fn put_record(
    out: &mut XdrOut,
    number: u32,
    procedure: u32,
    call: &NlmCall,
) -> Result<(), AllocError>
    requires procedure { procedure ≡ procedure_of (shown_call call.now) }
    requires fits { CallFits (shown_call call.now) }
    ensures { OnOk result (out.new ≡ record_of number (shown_call call.now)) }
{
    out.truncate(0);
    write_call(out, &head(number, procedure))?;
    write(out, call)?;
    Ok(())
}

/// The event of the call of this number and these draws.
#[tactic(auto, unfolding(crate::specs::Made::call_from))]
fn event(alloc: Global, out: &mut XdrOut, number: u32, draws: Draws) -> Result<Event, AllocError>
    ensures { IfOk result (λ e. e ≡ Message 0 (record_of number (call_by draws.first draws.second draws.third draws.fourth))) }
{
    let fh = handle_of(1 + draws.second % 8);
    let (procedure, call) = call(draws.first, lock(&fh, draws));
    put_record(out, number, procedure, &call)?;
    Ok(Event::Message(0, Sequence::from_slice(alloc, out.as_slice())?))
}

/// The names of the files, f0 to f7.
fn files(alloc: Global) -> Result<Sequence<Sequence<u8>>, AllocError>
    ensures { IfOk result (λ f. f ≡ made_files) }
{
    let mut files = Sequence::new(alloc);
    for digit in b"01234567" {
        files.push(Sequence::from_slice(alloc, &[b'f', *digit])?)?;
    }
    Ok(files)
}

/// Steps one event, no store of which fails. An error leaves the journal as it was.
fn step_surely(alloc: Global, house: &mut House<BudgetKeeper>, event: Event) -> Result<(), Halt>
    requires steps { is_restart event ≡ false }
    requires goes { house.old.halt ≡ None }
    requires room { length house.old.entries < most_entries }
    ensures head { house.new.head ≡ house.old.head }
    ensures ok { OnOk result ((house.new.entries ≡ house.old.entries ++ entry all_stores (replay (start_of house.old.head) house.old.entries) event ∷ []) × (replay (start_of house.old.head) house.new.entries ≡ (step all_stores (replay (start_of house.old.head) house.old.entries) event).next)) }
    ensures goes { OnOk result (house.new.halt ≡ None) }
    ensures err { OnErr result (house.new.entries ≡ house.old.entries) }
    ensures memory { IfErr result (λ halt. halt ≡ Halt.NoMemory) }
{
    house.allow(ALL_STORES);
    match house.step(alloc, event) {
        Ok(_) => Ok(()),
        Err(halt) => Err(halt),
    }
}

/// Steps so many calls by the draws behind x, each made once the one before is stepped (MAKE-2). An error leaves a
/// beginning of their entries.
#[tactic(auto, using(crate::proofs::MadeLaws::front_so))]
fn step_calls(
    alloc: Global,
    house: &mut House<BudgetKeeper>,
    x: u32,
    count: u32,
) -> Result<(), Halt>
    requires goes { house.old.halt ≡ None }
    requires begun { length house.old.entries ≡ 1 }
    requires seed { x < 2 ^ 31 }
    requires few { count ≤ most_made }
    ensures head { house.new.head ≡ house.old.head }
    ensures ok { OnOk result (house.new.entries ≡ house.old.entries ++ entries_of (replay (start_of house.old.head) house.old.entries) (surely (calls_from x 1 count))) }
    ensures err { OnErr result (take (length house.new.entries) (house.old.entries ++ entries_of (replay (start_of house.old.head) house.old.entries) (surely (calls_from x 1 count))) ≡ house.new.entries) }
    ensures unspoiled { OnOk result (is_spoiled house.new.halt ≡ false) }
    ensures memory { IfErr result (λ halt. halt ≡ Halt.NoMemory) }
{
    let mut out = XdrOut::new(alloc);
    let mut x = x;
    let mut number = 1;
    let mut left = count;
    'calls: while left > 0 {
        let (draws, last) = draw(x);
        let Ok(event) = event(alloc, &mut out, number, draws) else {
            return Err(Halt::NoMemory);
        };
        if let Err(halt) = step_surely(alloc, house, event) {
            return Err(halt);
        }
        x = last;
        number += 1;
        left -= 1;
    }
    Ok(())
}

/// Opens the connection of the calls, and steps them. An error leaves a beginning of their entries.
fn step_made(
    alloc: Global,
    house: &mut House<BudgetKeeper>,
    seed: u32,
    count: u32,
) -> Result<(), Halt>
    requires goes { house.old.halt ≡ None }
    requires begun { house.old.entries ≡ [] }
    requires seed { seed < 2 ^ 31 }
    requires few { count ≤ most_made }
    ensures head { house.new.head ≡ house.old.head }
    ensures ok { OnOk result (house.new.entries ≡ entries_of (start_of house.old.head) (surely (made seed count))) }
    ensures err { OnErr result (take (length house.new.entries) (entries_of (start_of house.old.head) (surely (made seed count))) ≡ house.new.entries) }
    ensures unspoiled { OnOk result (is_spoiled house.new.halt ≡ false) }
    ensures memory { IfErr result (λ halt. halt ≡ Halt.NoMemory) }
{
    step_surely(alloc, house, Event::Open(Kind::Rpc))?;
    step_calls(alloc, house, seed, count)
}

/// A house that stepped the calls of a seed, and whether it stepped them all; if not, memory ran out. None comes for want
/// of memory at the start.
#[tactic(auto, unfolding(crate::specs::Made::made_entries))]
pub(crate) fn made_house(
    alloc: Global,
    seed: u32,
    count: u32,
) -> Option<(House<BudgetKeeper>, bool)>
    requires seed { seed < 2 ^ 31 }
    requires few { count ≤ most_made }
    ensures head { IfSome result (λ r. r.0.head ≡ made_head) }
    ensures all { IfSome result (λ r. r.1 ≡ true → (r.0.entries ≡ made_entries seed count) × (is_spoiled r.0.halt ≡ false)) }
    ensures begun { IfSome result (λ r. take (length r.0.entries) (made_entries seed count) ≡ r.0.entries) }
{
    let Ok(files) = files(alloc) else {
        return None;
    };
    let exports = exports_with(files, Sequence::new(alloc));
    let mut house = start(alloc, exports, Record::new(alloc))?;
    match step_made(alloc, &mut house, seed, count) {
        Ok(()) => Some((house, true)),
        Err(_) => Some((house, false)),
    }
}
