//! The kinds of steps by numbers of five bits.
ghost use Rattle.std.specs.Prelude.{◌≡◌, ◌<◌, Some};
ghost use Rattle.packed_log.specs.Packing.{name_of};

use machine::EventName;

/// The number of a kind of step, which isn't 0.
#[inline(always)]
pub fn number_of(name: EventName) -> u64
    ensures name { name_of result ≡ Some name }
    ensures small { result < 32 }
{
    match name {
        EventName::Local => 1,
        EventName::Load => 2,
        EventName::Store => 3,
        EventName::Swap => 4,
        EventName::CompareSwap => 5,
        EventName::FetchOr => 6,
        EventName::FetchAdd => 7,
        EventName::Fork => 8,
        EventName::Print => 9,
        EventName::Wait => 10,
        EventName::Wake => 11,
        EventName::Requeue => 12,
        EventName::Ret => 13,
        EventName::RetValue => 14,
        EventName::Die => 15,
        EventName::Entry => 16,
        EventName::Pending => 17,
        EventName::Clear => 18,
        EventName::Last => 19,
        EventName::Stray => 20,
        EventName::Kill => 21,
        EventName::FutexLock => 22,
        EventName::FutexCompare => 23,
    }
}

/// The kind of step of a number, where one has it.
pub fn name_at(number: u64) -> Option<EventName>
    ensures { result ≡ name_of number }
{
    match number {
        1 => Some(EventName::Local),
        2 => Some(EventName::Load),
        3 => Some(EventName::Store),
        4 => Some(EventName::Swap),
        5 => Some(EventName::CompareSwap),
        6 => Some(EventName::FetchOr),
        7 => Some(EventName::FetchAdd),
        8 => Some(EventName::Fork),
        9 => Some(EventName::Print),
        10 => Some(EventName::Wait),
        11 => Some(EventName::Wake),
        12 => Some(EventName::Requeue),
        13 => Some(EventName::Ret),
        14 => Some(EventName::RetValue),
        15 => Some(EventName::Die),
        16 => Some(EventName::Entry),
        17 => Some(EventName::Pending),
        18 => Some(EventName::Clear),
        19 => Some(EventName::Last),
        20 => Some(EventName::Stray),
        21 => Some(EventName::Kill),
        22 => Some(EventName::FutexLock),
        23 => Some(EventName::FutexCompare),
        _ => None,
    }
}
