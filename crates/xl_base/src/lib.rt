//! What every layer of the lock state server shares: the events and outs of a run as plain data, the journal that
//! keeps them, names and record, file handles, and the outside as traits.
#![tactic(auto)]

mod budget;
mod caller;
mod clock;
mod comparison;
mod event;
mod gate;
mod halt;
mod handle;
mod journal;
mod keeper;
mod lane;
mod lane_end;
mod limits;
mod memory_lane;
mod name;
mod record_file;
mod sequence;
mod serial;
mod sink;
mod source;
mod stable;
mod telling;

pub use budget::{BudgetKeeper, Budgeted};
pub use caller::{Asked, CallOutcome, Caller, MemoryCaller};
pub use clock::{Clock, MemoryClock};
pub use event::{Dest, Event, Kind, Moment, Out};
pub use gate::{Gate, Held, MemoryGate, OpenGate};
pub use halt::Halt;
pub use handle::{file_of, handle_of};
pub use journal::{Entry, Exports, Head, Journal};
pub use keeper::{Keeper, LoadOutcome, MemoryKeeper, StoreOutcome};
pub use lane::{Lane, Link, NextOutcome, ReceiveOutcome};
pub use lane_end::LaneEnd;
pub use limits::{MOST_CONNECTIONS, MOST_MESSAGE_BYTES, MOST_OPENS, MOST_OWNERS, MOST_WAITERS};
pub use memory_lane::{MemoryLane, Part, Peer};
pub use name::{Owner, Party, Protocol};
pub use record_file::{
    MOST_RECORD_BYTES, RecordBad, RecordForm, has_file, length_with, read_record, record_bytes,
    record_length,
};
pub use sequence::Sequence;
pub use serial::Serial;
pub use sink::{MemorySink, Sink, WriteOutcome};
pub use source::{MemorySource, ReadOutcome, Source};
pub use stable::{Mark, Record, RecordNameError, Recorded, agree};
