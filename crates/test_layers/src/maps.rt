use crate::failure::Failure;
use crate::layers::numbers;
use sorted_map::SortedMap;

/// Makes the calls of a row on a map, and prints the answers, the entries, and whether copies of it are equal.
pub fn show_map(rt: &HostRuntime, row: &str) -> Result<(), Failure> {
    let mut map = SortedMap::new(rt.alloc());
    take_calls(rt, &mut map, row)
}

fn take_calls(rt: &HostRuntime, map: &mut SortedMap<u32, u64>, row: &str) -> Result<(), Failure> {
    for part in row.split(',') {
        let (name, rest) = part.trim().split_once(' ').ok_or(Failure::Row)?;
        let numbers = numbers(rt.alloc(), rest)?;
        take_call(rt, map, name, numbers.as_slice())?;
    }
    println!(rt; "  {:?}", map.entries())?;
    show_copy(rt, map)?;
    show_again(rt, map)
}

fn show_copy(rt: &HostRuntime, map: &SortedMap<u32, u64>) -> Result<(), Failure> {
    let copy = map.copy()?;
    println!(rt; "  copy: {}", *map == copy)?;
    Ok(())
}

// The same of a map that is made of its entries.
fn show_again(rt: &HostRuntime, map: &SortedMap<u32, u64>) -> Result<(), Failure> {
    let again = SortedMap::of_entries(Vec::from_slice(rt.alloc(), map.entries())?);
    println!(rt; "  of entries: {}", *map == again)?;
    Ok(())
}

// Makes the call of this name.
fn take_call(
    rt: &HostRuntime,
    map: &mut SortedMap<u32, u64>,
    name: &str,
    numbers: &[u32],
) -> Result<(), Failure> {
    match (name, numbers) {
        ("insert", [key, value]) => map.insert(*key, u64::from(*value))?,
        ("remove", [key]) => map.remove(*key),
        ("get", [key]) => println!(rt; "  {:?}, {:?}", map.get(*key), map.get_ref(*key))?,
        ("set", [key, value]) => {
            if let Some(place) = map.get_mut(*key) {
                *place = u64::from(*value);
            }
        }
        _ => return Err(Failure::Row),
    }
    Ok(())
}
