//! Calls on clients while the host is out of memory. Each reports that.

use lezgauri::{Fault, Schedule, Through, assemble, parse, print, run_bytes};
use linked_list_allocator::LocalHeap;
use std::alloc::Global;
use std::test::Fail;
use support_data::{INCREMENT, INCREMENT_FILE, Limited, counter};

/// A region of the counter's length.
const SCHEDULE: Schedule<'static> = Schedule {
    room: 784,
    base: 0,
    moves: &[],
};

/// A call that allocates host memory.
#[derive(Clone, Copy)]
enum Call {
    Run,
    Assemble,
    Print,
}

/// Tests that a call returned all of its result.
fn whole(found: &[u8], wanted: &[u8]) -> Result<Option<Fault>, Fail> {
    if found == wanted {
        Ok(None)
    } else {
        Err(Fail::new("a part of the result"))
    }
}

/// Runs the increment client.
fn runs(alloc: Global, heap: &LocalHeap) -> Result<Option<Fault>, Fail> {
    let image = counter(alloc)?;
    let image = image.as_slice();
    let clients = [INCREMENT_FILE.as_slice()];
    let mut out = Through::new(Limited::unlimited(alloc));
    if let Err(refused) = run_bytes(heap, image, clients.as_slice(), b"", &SCHEDULE, &mut out) {
        return Ok(Some(refused.fault));
    }
    whole(out.into_inner().bytes.as_slice(), b"42\n")
}

fn assembles(heap: &LocalHeap) -> Result<Option<Fault>, Fail> {
    match assemble(heap, INCREMENT.as_bytes()) {
        Ok(file) => whole(file.as_slice(), INCREMENT_FILE.as_slice()),
        Err(fault) => Ok(Some(fault)),
    }
}

fn prints(heap: &LocalHeap) -> Result<Option<Fault>, Fail> {
    match print(heap, &parse(&INCREMENT_FILE)?) {
        Ok(text) => whole(text.as_slice(), INCREMENT.as_bytes()),
        Err(fault) => Ok(Some(fault)),
    }
}

/// The fault of a call with this many bytes of host memory. `None` if it succeeds, with its whole result.
fn fault_of(alloc: Global, call: Call, size: usize) -> Result<Option<Fault>, Fail> {
    let heap = LocalHeap::new(alloc, size)?;
    match call {
        Call::Run => runs(alloc, &heap),
        Call::Assemble => assembles(&heap),
        Call::Print => prints(&heap),
    }
}

/// How often a call is out of memory as the memory increases, from too little for the first request to enough for all, so that each
/// request is refused once.
fn refusals_of(alloc: Global, call: Call) -> Result<usize, Fail> {
    for size in 1..512usize {
        match fault_of(alloc, call, size * 16)? {
            None => return Ok(size - 1),
            Some(Fault::Memory) => {}
            Some(fault) => return Err(Fail::from(fault)),
        }
    }
    Err(Fail::from("never enough"))
}

// Calls, and how many units of 16 bytes each needs at least. The image takes 49.
static CALLS: [(Call, usize); 3] = [(Call::Run, 50), (Call::Assemble, 1), (Call::Print, 1)];

#[test]
fn calls_answer_memory_until_there_is_enough(rt: HostRuntime) -> Result<(), Fail> {
    for (call, least) in &CALLS {
        assert!(rt; refusals_of(rt.alloc(), *call)? >= *least, "{least}");
    }
    Ok(())
}
