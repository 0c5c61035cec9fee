use locals::{NextStep, Request};
use robustexit::ExitPhase;
use words::Cause;

// What spreads numbers.
const SPREAD: u64 = 0x9E37_79B9_7F4A_7C15;

/// A number of which each bit depends on those of this one.
pub(crate) fn mixed(number: u64) -> u64 {
    let half = number.wrapping_mul(SPREAD);
    (half ^ (half >> 32)).wrapping_mul(0xC2B2_AE3D_27D4_EB4F)
}

/// A digest with a number more.
pub(crate) fn fed(digest: u64, number: u32) -> u64 {
    (digest ^ u64::from(number))
        .wrapping_mul(SPREAD)
        .rotate_left(31)
}

/// What a word at an address adds to the digest of a memory.
pub(crate) fn word_digest(address: u32, word: u32) -> u64 {
    mixed((u64::from(address) << 32) | u64::from(word))
}

fn request_digest(request: Request) -> (u32, u32, u32) {
    match request {
        Request::Load(a) => (1, a.0, 0),
        Request::Store(a, v) => (2, a.0, v),
        Request::Swap(a, v) => (3, a.0, v),
        Request::CompareSwap {
            address,
            expected,
            new,
        } => (4, address.0, expected.wrapping_mul(31).wrapping_add(new)),
        Request::FetchOr(a, v) => (5, a.0, v),
        Request::FetchAdd(a, v) => (6, a.0, v),
        Request::Print(number) => (7, number, 0),
        Request::Wait { address, expected } => (8, address.0, expected),
        Request::Wake { address, count } => (9, address.0, count),
        Request::Requeue {
            from,
            to,
            wake,
            moves,
            expected: _,
        } => (
            10,
            from.0.wrapping_mul(31).wrapping_add(to.0),
            wake.wrapping_mul(31).wrapping_add(moves),
        ),
        Request::Return => (11, 0, 0),
        Request::ReturnValue(v) => (12, v, 0),
        Request::Fault(Cause::Killed) => (13, 0, 0),
        Request::Fault(Cause::Faulted(_)) => (14, 0, 0),
    }
}

fn phase_digest(phase: ExitPhase) -> (u32, u32, u32) {
    match phase {
        ExitPhase::Entry { entry, seen } => (15, entry.0, seen),
        ExitPhase::Pending => (16, 0, 0),
        ExitPhase::ClearId => (17, 0, 0),
        ExitPhase::LastWake => (18, 0, 0),
        ExitPhase::Ended => (19, 0, 0),
    }
}

fn step_digest(step: NextStep) -> (u32, u32, u32) {
    match step {
        NextStep::Local => (20, 0, 0),
        NextStep::Shared(request) => request_digest(request),
        NextStep::Fork {
            entry,
            count,
            has_room: _,
        } => (21, entry, count),
        NextStep::Exit(phase) => phase_digest(phase),
        NextStep::Broken => (22, 0, 0),
        NextStep::Ended => (19, 0, 0),
    }
}

/// The digest of a local state, of its place and its next step.
pub(crate) fn local_digest(place: Option<u32>, step: NextStep) -> u64 {
    let (kind, first, second) = step_digest(step);
    let at = match place {
        Some(place) => place.wrapping_add(1),
        None => 0,
    };
    mixed(fed(fed(fed(u64::from(at), kind), first), second))
}
