//! The callback addresses that a capture names.
ghost use Rattle.std.specs.Prelude.{◌≡◌, [], ◌∷◌, ◌++◌, false, bytes_eq, OnOk, OnErr};
ghost use Rattle.std.specs.List.{list_any};
ghost use Rattle.xl_capture.specs.Addresses.{has_address, callers_of};

use indexmap::IndexSet;
use std::alloc::{AllocError, Global};
use std::marker::Model;
use xl_base::Sequence;

/// The callback addresses of NLM callers, in order: a caller's name, which no other has, and its address. A contract
/// sees the list of both; a name is looked up without a walk over it.
#[derive(Drop)]
pub struct Addresses {
    list: Sequence<(Sequence<u8>, Sequence<u8>)>,
    callers: IndexSet<Sequence<u8>>,
}

impl Model for Addresses {
    ghost use Rattle.std.specs.Prelude.{◌≡◌, ℕ, List};
    ghost use Rattle.xl_capture.specs.Addresses.{callers_of};

    ghost Value = { List (List ℕ × List ℕ) };

    ghost view = { λ a. a.list };

    ghost invariant = { λ a. a.callers.keys ≡ callers_of a.list };
}

impl Addresses {
    /// No address. It takes no memory.
    pub fn new(alloc: Global) -> Addresses
        ensures { result ≡ [] }
    {
        Addresses {
            list: Sequence::new(alloc),
            callers: IndexSet::new(alloc),
        }
    }

    /// Whether the caller of this name has an address.
    pub(crate) fn has(&self, caller: &Sequence<u8>) -> bool
        ensures { result ≡ has_address caller.now self.now }
    {
        self.callers.contains(caller)
    }

    /// Adds the address of a caller, which has none yet. After an error the addresses are as they were.
    pub(crate) fn push(
        &mut self,
        alloc: Global,
        caller: Sequence<u8>,
        address: Sequence<u8>,
    ) -> Result<(), AllocError>
        requires { has_address caller self.old ≡ false }
        ensures ok { OnOk result (self.new ≡ self.old ++ (caller, address) ∷ []) }
        ensures err { OnErr result (self.new ≡ self.old) }
    {
        add(alloc, &mut self.list, &mut self.callers, caller, address)
    }

    /// The callers with their addresses, in order.
    pub fn as_slice(&self) -> &[(Sequence<u8>, Sequence<u8>)]
        ensures { result.now ≡ self.now }
    {
        self.list.as_slice()
    }

    /// The list of both.
    pub fn into_sequence(self) -> Sequence<(Sequence<u8>, Sequence<u8>)>
        ensures { result ≡ self }
    {
        self.list
    }
}

/// Enters a name behind those before it, if it is new.
fn enter(callers: &mut IndexSet<Sequence<u8>>, name: Sequence<u8>) -> Result<(), AllocError>
    requires new { list_any (bytes_eq name) callers.old.keys ≡ false }
    ensures ok { OnOk result (callers.new.keys ≡ callers.old.keys ++ name ∷ []) }
    ensures err { OnErr result (callers.new.keys ≡ callers.old.keys) }
{
    callers.insert(name)?;
    Ok(())
}

/// Adds a caller's address to the list, and its name to those that are looked up.
#[tactic(auto, using(crate::proofs::AddressLaws::callers_pushed, crate::proofs::AddressLaws::callers_kept))]
fn add(
    alloc: Global,
    list: &mut Sequence<(Sequence<u8>, Sequence<u8>)>,
    callers: &mut IndexSet<Sequence<u8>>,
    caller: Sequence<u8>,
    address: Sequence<u8>,
) -> Result<(), AllocError>
    requires known { callers.old.keys ≡ callers_of list.old }
    requires new { has_address caller list.old ≡ false }
    ensures ok { OnOk result (list.new ≡ list.old ++ (caller, address) ∷ []) }
    ensures err { OnErr result (list.new ≡ list.old) }
    ensures known { callers.new.keys ≡ callers_of list.new }
{
    let name = Sequence::from_slice(alloc, caller.as_slice())?;
    let count = list.len();
    enter(callers, name)?;
    if list.push((caller, address)).is_err() {
        callers.truncate(count);
        return Err(AllocError);
    }
    Ok(())
}
