ghost use Rattle.std.specs.Prelude.{◌≡◌};
ghost use Rattle.machine.specs.PieceStates.{call_of};
ghost use Rattle.machine.specs.RequestMeanings.{asked_of};

use futexcalls::FutexCall;
use locals::Request;

/// The futex call that a request is, if it is one.
pub fn call_in(request: Request) -> Option<FutexCall>
    ensures { result ≡ call_of (asked_of request) }
{
    match request {
        Request::Wait { address, expected } => Some(FutexCall::Wait { address, expected }),
        Request::Wake { address, count } => Some(FutexCall::Wake {
            address,
            wakes: count,
        }),
        Request::Requeue {
            from,
            to,
            wake,
            moves,
            expected,
        } => Some(FutexCall::Requeue {
            address: from,
            target: to,
            wakes: wake,
            moves,
            expected,
        }),
        Request::Load(_)
        | Request::Store(..)
        | Request::Swap(..)
        | Request::CompareSwap { .. }
        | Request::FetchOr(..)
        | Request::FetchAdd(..)
        | Request::Print(_)
        | Request::Return
        | Request::ReturnValue(_)
        | Request::Fault(_) => None,
    }
}
