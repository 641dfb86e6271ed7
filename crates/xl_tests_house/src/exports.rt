//! What a house exports, and what it sends.

use std::alloc::{AllocError, Global};
use xl_base::{Event, Exports, MemoryKeeper, Sequence};
use xl_capture::{Capture, CaptureError, read_capture, transcript};
use xl_house::House;
use xl_names::Names;

/// What the header lines of a capture say.
pub(crate) fn exports(alloc: Global, header: &[u8]) -> Result<Exports, CaptureError> {
    let Capture {
        files,
        addresses,
        lease,
        grace,
        break_time,
        stable: _,
        steps: _,
    } = read_capture(alloc, header)?;
    Ok(Exports {
        files,
        addresses: addresses.into_sequence(),
        lease,
        grace,
        break_time,
    })
}

/// What is sent for bytes that come by connection 0; nothing if the house halts.
pub(crate) fn told(
    alloc: Global,
    house: &mut House<MemoryKeeper>,
    bytes: Sequence<u8>,
) -> Result<Vec<u8>, AllocError> {
    match house.step(alloc, Event::Message(0, bytes)) {
        Ok(place) => transcript(alloc, house.outs_from(place), &[], &Names::new(alloc)),
        Err(_) => Ok(Vec::new(alloc)),
    }
}
