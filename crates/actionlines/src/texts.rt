ghost use Rattle.std.specs.Prelude.{◌≡◌, ◌++◌, OnOk, slice_get};
ghost use Rattle.std.specs.Fmt.{decimal, signed_decimal};
ghost use Rattle.std.specs.List.{flat_map};
ghost use Rattle.program.specs.Names.{naming_of};
ghost use Rattle.actionlines.specs.Lines.{condition_name, member_in, monitor_name, spaced_number};

use itoa::Buffer;
use program::{Member, Names};
use std::alloc::AllocError;

/// Appends a text.
pub(crate) fn append_text(bytes: &mut Vec<u8>, text: &str) -> Result<(), AllocError>
    ensures { OnOk result (bytes.new.items ≡ bytes.old.items ++ text.now) }
{
    bytes.extend_from_slice(text.as_bytes())
}

/// Appends a number in decimal digits.
pub(crate) fn append_number(bytes: &mut Vec<u8>, number: u64) -> Result<(), AllocError>
    ensures { OnOk result (bytes.new.items ≡ bytes.old.items ++ decimal number) }
{
    bytes.extend_from_slice(Buffer::new().format(number).as_bytes())
}

/// Appends a signed number in decimal digits.
pub(crate) fn append_signed(bytes: &mut Vec<u8>, number: i64) -> Result<(), AllocError>
    ensures { OnOk result (bytes.new.items ≡ bytes.old.items ++ signed_decimal number) }
{
    bytes.extend_from_slice(Buffer::new().format(number).as_bytes())
}

/// Appends a space and a number.
pub(crate) fn append_spaced(bytes: &mut Vec<u8>, number: u64) -> Result<(), AllocError>
    ensures { OnOk result (bytes.new.items ≡ bytes.old.items ++ spaced_number number) }
{
    append_text(bytes, " ")?;
    append_number(bytes, number)
}

/// Appends numbers, a space before each.
pub(crate) fn append_all(bytes: &mut Vec<u8>, numbers: &[u64]) -> Result<(), AllocError>
    ensures { OnOk result (bytes.new.items
        ≡ bytes.old.items ++ flat_map spaced_number numbers.now) }
{
    for number in numbers {
        append_spaced(bytes, *number)?;
    }
    Ok(())
}

/// Appends the name of a monitor.
pub(crate) fn append_monitor(
    bytes: &mut Vec<u8>,
    names: &Names,
    monitor: u32,
) -> Result<(), AllocError>
    ensures { OnOk result (bytes.new.items
        ≡ bytes.old.items ++ monitor_name (naming_of names.now) monitor) }
{
    match names.monitors.get(monitor as usize) {
        None => Ok(()),
        Some(naming) => bytes.extend_from_slice(naming.name),
    }
}

// Appends the name of a member.
fn append_member(bytes: &mut Vec<u8>, names: &Names, member: Member) -> Result<(), AllocError>
    ensures { OnOk result (bytes.new.items ≡ bytes.old.items
        ++ member_in (slice_get (naming_of names.now).monitors member.monitor) member.number) }
{
    let Some(naming) = names.monitors.get(member.monitor as usize) else {
        return Ok(());
    };
    match naming.members.get(member.number as usize) {
        None => Ok(()),
        Some(name) => bytes.extend_from_slice(name),
    }
}

/// Appends the name of a condition, with its monitor's before it.
pub(crate) fn append_condition(
    bytes: &mut Vec<u8>,
    names: &Names,
    condition: Member,
) -> Result<(), AllocError>
    ensures { OnOk result (bytes.new.items
        ≡ bytes.old.items ++ condition_name (naming_of names.now) condition) }
{
    append_monitor(bytes, names, condition.monitor)?;
    append_text(bytes, ".")?;
    append_member(bytes, names, condition)
}
