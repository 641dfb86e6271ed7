//! The owners of opens and of locks.
ghost use Rattle.std.specs.Prelude.{◌≡◌, refl, IfOk};
ghost use Rattle.std.proofs.Common.{ap, ◌∙◌};
ghost use Rattle.xl_nfs_state.specs.Alike.{owner_names_are, owner_names_same};
ghost use Rattle.xl_nfs_state.specs.Keys.{owner_key, owner_name, same_owner_name};
ghost use Rattle.xl_nfs_state.specs.Rows.{with_seqids};

use crate::filed::{Change, Row};
use indexmap::Equivalent;
use std::alloc::{AllocError, Global};
use std::hash::Hash;
use xl_base::Sequence;

/// What an owner owns.
#[derive(Clone, Copy, PartialEq, Eq, Hash)]
pub enum OwnerKind {
    /// Opens (RFC 7530 9.1.5, `open_owner4`).
    Open,
    /// Byte-range locks (RFC 7530 9.1.5, `lock_owner4`).
    Lock,
}

/// An owner as its client names it.
#[derive(Drop, PartialEq, Eq, Hash)]
pub struct OwnerName {
    /// The number of its client.
    pub client: u32,
    /// What it owns.
    pub kind: OwnerKind,
    /// The owner's bytes.
    pub owner: Sequence<u8>,
}

/// The same, by borrowed bytes.
#[derive(Clone, Copy, PartialEq, Eq, Hash)]
pub struct OwnerNamed<'a> {
    /// The number of its client.
    pub client: u32,
    /// What it owns.
    pub kind: OwnerKind,
    /// The owner's bytes.
    pub owner: &'a [u8],
}

/// How far an owner's requests have come (RFC 7530 9.1.7).
#[derive(Clone, Copy)]
pub struct SeqidState {
    /// The seqid of its last request that counted.
    pub seqid: u32,
    /// The number of that request's operation.
    pub op: u32,
    /// Whether an open owner was confirmed (RFC 7530 9.1.11, 16.18).
    pub confirmed: bool,
    /// The stateid that its last request closed, as long as that is known.
    pub closed: Option<u64>,
}

/// An owner of opens or of locks.
#[derive(Drop)]
pub struct OwnerRow {
    /// Its number, which the server gives.
    pub number: u64,
    /// What its client calls it.
    pub name: OwnerName,
    /// How far its requests have come.
    pub seqids: SeqidState,
}

impl<'a> Equivalent<OwnerName> for OwnerNamed<'a> {
    ghost equivalent = { λ q k. same_owner_name (record { client = q.client; kind = q.kind; owner = q.owner.now }) k };

    fn equivalent(&self, key: &OwnerName) -> bool {
        self.client == key.client && self.kind == key.kind && self.owner == key.owner.as_slice()
    }

    ghost respects_hash = { λ q k h. ap ⟦<OwnerName as Hash>⟧.hash_input (owner_names_are _ k h) };

    ghost respects_eq = { λ q x y h. ap (λ n. same_owner_name n y) (owner_names_are _ x h) ∙ owner_names_same x y };
}

impl Row for OwnerRow {
    type Number = u64;

    type Name = OwnerName;

    ghost number = { owner_key };

    ghost name = { owner_name };

    fn number(&self) -> u64 {
        self.number
    }

    fn name(&self, alloc: Global) -> Result<OwnerName, AllocError> {
        Ok(OwnerName {
            client: self.name.client,
            kind: self.name.kind,
            owner: Sequence::from_slice(alloc, self.name.owner.as_slice())?,
        })
    }
}

impl Change<OwnerRow> for SeqidState {
    ghost after = { with_seqids };

    fn change(self, row: &mut OwnerRow) {
        row.seqids = self;
    }

    ghost keeps_number = { λ c r. refl };

    ghost keeps_name = { λ c r. refl };
}
