//! Grace, and what is asked of it.
ghost use Rattle.std.specs.Prelude.{◌≡◌, true, false, IfOk, OnOk, is_some};
ghost use Rattle.xl_base.specs.Stable.{is_recordable, is_recorded};
ghost use Rattle.xl_base.specs.RecordFile.{added};

use crate::reclaimant::{Reclaimant, has_reclaimed, may_reclaim, newly, note, remove};
use std::alloc::{AllocError, Global};
use std::marker::Model;
use xl_base::{Moment, Record, RecordNameError, Recorded};

/// What becomes of an ask, as far as grace is concerned.
#[derive(Clone, Copy)]
pub enum Admission {
    /// It is let in: in grace the reclaim of a name that may reclaim, with a mark that agrees, else what is no reclaim.
    Enters,
    /// It is no reclaim, and grace runs; a reading of the clock from this moment on may end it (RFC 7530 9.6.2).
    Grace(Moment),
    /// It is a reclaim, and no grace runs.
    NoGrace,
    /// It is a reclaim in grace by a client that isn't recorded, has expired in this grace, or comes with another mark than the
    /// kept one.
    NotRecorded,
}

/// The grace after a start, in which the clients of the record may reclaim what they held before (RFC 7530 9.6.2). It
/// runs from a start whose record has names until it is ended. A contract sees its end, and the names that may reclaim,
/// each with whether it has reclaimed something; or None if none runs.
#[derive(Drop)]
pub struct Grace {
    period: Option<Period>,
}

#[derive(Drop)]
struct Period {
    end: Moment,
    reclaimants: Vec<Reclaimant>,
}

impl Model for Grace {
    ghost use Rattle.std.specs.Prelude.{Option, option_map};
    ghost use Rattle.xl_grace.specs.Grace.{Running};

    ghost Value = { Option Running };

    ghost view = { λ g. option_map (λ p. record { end = p.end; reclaimants = p.reclaimants.items }) g.period };
}

impl Grace {
    ghost use Rattle.xl_grace.specs.Grace.{begun, admission, reclaimed, expired, is_over, ended, is_back, shortened};

    /// The grace after a start at this moment with this record, of so many milliseconds. None runs if the record has no
    /// names. A sum of moments stops at the last one, 2^64 - 1.
    pub fn start(
        alloc: Global,
        stable: &Record,
        now: Moment,
        grace: u64,
    ) -> Result<Grace, AllocError>
        ensures { IfOk result (λ g. g ≡ begun stable.now now grace) }
    {
        if stable.names().is_empty() {
            return Ok(Grace { period: None });
        }
        Ok(Grace {
            period: Some(Period {
                end: Moment(now.0.saturating_add(grace)),
                reclaimants: newly(alloc, stable.names())?,
            }),
        })
    }

    /// Whether grace runs.
    pub fn runs(&self) -> bool
        ensures { result ≡ is_some self.now }
    {
        self.period.is_some()
    }

    /// What becomes of an ask of the client of this name with this mark, a reclaim or not. It takes no memory.
    pub fn may_enter(&self, name: &Recorded, reclaim: bool) -> Admission
        ensures { result ≡ admission self.now name.now reclaim }
    {
        match &self.period {
            None if reclaim => Admission::NoGrace,
            None => Admission::Enters,
            Some(period) if !reclaim => Admission::Grace(period.end),
            Some(period) if may_reclaim(&period.reclaimants, name) => Admission::Enters,
            Some(_) => Admission::NotRecorded,
        }
    }

    /// The client of this name reclaimed something. A name that isn't among those who may changes nothing.
    pub fn reclaimed(&mut self, name: &Recorded)
        ensures { self.new ≡ reclaimed name.now self.old }
    {
        if let Some(period) = &mut self.period {
            note(&mut period.reclaimants, name);
        }
    }

    /// The client of this name expired: in this grace the record lacks its name from now on.
    pub fn expired(&mut self, name: &Recorded)
        ensures { self.new ≡ expired name.now self.old }
    {
        if let Some(period) = &mut self.period {
            remove(&mut period.reclaimants, name);
        }
    }

    /// Whether the client of this name has reclaimed something in the grace that runs.
    pub fn is_back(&self, name: &Recorded) -> bool
        ensures { result ≡ is_back name.now self.now }
    {
        match &self.period {
            Some(period) => has_reclaimed(&period.reclaimants, name),
            None => false,
        }
    }

    /// Whether grace runs and its end has come at this moment. Then the record without the names that reclaimed nothing is
    /// to be stored, and grace ends if it is.
    pub fn is_over(&self, now: Moment) -> bool
        ensures { result ≡ is_over self.now now }
    {
        match &self.period {
            Some(period) => period.end.0 <= now.0,
            None => false,
        }
    }

    /// The record that is to be stored at the end of the grace that runs: without the names that reclaimed nothing.
    pub fn shorter(&self, alloc: Global, stable: &Record) -> Result<Record, AllocError>
        ensures { IfOk result (λ r. r ≡ shortened self.now stable.now) }
    {
        let mut shorter = Record::new(alloc);
        shorter.set_epoch(stable.epoch());
        let names = stable.names();
        'names: for name in names {
            if self.is_back(name) {
                add(&mut shorter, name.copy(alloc)?)?;
            }
        }
        Ok(shorter)
    }

    /// Ends grace if its end has come at this moment; whether it ended. It is called once the record without the names that
    /// reclaimed nothing is stored.
    pub fn end(&mut self, now: Moment) -> bool
        ensures over { result ≡ is_over self.old now }
        ensures ended { self.new ≡ ended now self.old }
    {
        let over = self.is_over(now);
        if over {
            self.period = None;
        }
        over
    }
}

/// Adds a name that a client of NFSv4 or NLM has and that isn't among the others.
fn add(stable: &mut Record, name: Recorded) -> Result<(), AllocError>
    requires { (is_recordable name ≡ true) × (is_recorded name stable.old.names ≡ false) }
    ensures { OnOk result (stable.new ≡ added name stable.old) }
{
    match stable.add(name) {
        Ok(()) => Ok(()),
        Err(RecordNameError::NoMemory) => Err(AllocError),
        Err(RecordNameError::Unfit | RecordNameError::Twice) => unreachable!(),
    }
}
