//! A head, written.
use std::alloc::{AllocError, Global};
use std::marker::{Send, Sync};
use std::test::Fail;
use xg_cert::{Cert, Head, Outcome, write_head};
use xg_frac::{Frac, read_literal};
use xg_io::WriteFault;
use xg_memory::MemSink;

/// A head with this sum.
fn head(sum: Frac) -> Head {
    Head {
        nodes: 21,
        leaves: 10,
        sets: (4, 3),
        sequences: (9, 8),
        unit: 6,
        sum,
        mass: 14,
        rounds: 1000,
        every: 64,
        scale: 1_048_576,
    }
}

const ZERO_SUM: &[u8] = b"nodes 21 leaves 10\nsets 4 3\nsequences 9 8\nunit 6\nmass 14\n";

const BELOW_ZERO: &[u8] =
    b"nodes 21 leaves 10\nsets 4 3\nsequences 9 8\nunit 6 sum -2/3\nmass 14\n";

/// The first 30 bytes of it.
const FRONT: &[u8] = b"nodes 21 leaves 10\nsets 4 3\nse";

/// Whether writing the head with a sum answers this, and leaves these bytes in a sink with so much room.
fn writes(
    alloc: Global,
    sum: &[u8],
    room: usize,
    answer: Result<(), WriteFault>,
    bytes: &[u8],
) -> Result<bool, AllocError> {
    let Ok(sum) = read_literal(sum) else {
        return Ok(false);
    };
    let mut sink = MemSink::new(alloc, room, &[])?;
    Ok(write_head(&head(sum), &mut sink) == answer && sink.bytes() == bytes)
}

#[test]
fn heads(rt: HostRuntime) -> Result<(), Fail> {
    assert!(rt; writes(rt.alloc(), b"0", 100, Ok(()), ZERO_SUM)?);
    assert!(rt; writes(rt.alloc(), b"-2/3", 100, Ok(()), BELOW_ZERO)?);
    assert!(rt; writes(rt.alloc(), b"-2/3", 30, Err(WriteFault), FRONT)?);
    Ok(())
}

fn crosses_threads<T: Send + Sync>() {}

#[test]
fn plain_data_crosses_threads() {
    crosses_threads::<Head>();
    crosses_threads::<Outcome>();
    crosses_threads::<Cert>();
}
