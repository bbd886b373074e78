//! Maps of few and of many names.
ghost use Rattle.std.specs.Prelude.{◌≡◌, IfOk, OnErr, OnOk, is_some, string_bytes, unwrap_or};
ghost use Rattle.std.specs.Bool.{OnTrue, OnFalse};
ghost use Rattle.openapi_map.specs.Entries.{get, insert_entry};

use openapi_map::{Entry, OrderedMap};
use std::alloc::{AllocError, Global};
use std::test::Fail;

/// Returns a map of each number below `count` by its digits.
fn numbered(alloc: Global, count: usize) -> Result<OrderedMap<usize>, AllocError> {
    let mut numbers = OrderedMap::new(alloc);
    for number in 0..count {
        numbers.insert(format!(in alloc; "{number}")?, number)?;
    }
    Ok(numbers)
}

/// Returns a map of the names to the values, in this order.
fn map_of(alloc: Global, entries: &[(&str, u8)]) -> Result<OrderedMap<u8>, AllocError> {
    let mut map = OrderedMap::with_capacity(alloc, entries.len())?;
    for (name, value) in entries {
        map.insert(String::from_str(alloc, *name)?, *value)?;
    }
    Ok(map)
}

/// Returns owned names with the values, in this order.
fn pairs_of(alloc: Global, entries: &[(&str, u8)]) -> Result<Vec<(String, u8)>, AllocError> {
    let mut pairs = Vec::with_capacity(alloc, entries.len())?;
    for (name, value) in entries {
        pairs.push((String::from_str(alloc, *name)?, *value))?;
    }
    Ok(pairs)
}

/// Returns the same entries in a new map. It shows how a caller proves a loop over a map.
fn copied(alloc: Global, map: &OrderedMap<u8>) -> Result<OrderedMap<u8>, AllocError>
    ensures { IfOk result (λ copy. copy ≡ map.now) }
{
    let mut copy = OrderedMap::with_capacity(alloc, map.len())?;
    for (name, value) in map {
        copy.push_new(String::from_str(alloc, name)?, *value)?;
    }
    Ok(copy)
}

/// Writes a value at a name, where the map has it. It shows what a caller proves of a write through `get_mut`.
fn overwritten(map: &mut OrderedMap<u8>, name: &str, value: u8) -> bool
    ensures found { result ≡ is_some (get name.now map.old) }
    ensures there { OnTrue result (map.new ≡ insert_entry map.old name.now value) }
    ensures absent { OnFalse result (map.new ≡ map.old) }
{
    match map.get_mut(name) {
        Some(there) => {
            *there = value;
            true
        }
        None => false,
    }
}

/// Puts a value at a name that the map lacks, and gives the one that is there then. It shows what a caller proves of an
/// entry.
fn put_once(map: &mut OrderedMap<u8>, name: String, value: u8) -> Result<u8, AllocError>
    ensures value { IfOk result (λ v. v ≡ unwrap_or (get (string_bytes name) map.old) value) }
    ensures entries { IfOk result (λ v. map.new ≡ insert_entry map.old (string_bytes name) v) }
    ensures err { OnErr result (map.new ≡ map.old) }
{
    let there = map.entry(name).or_insert(value)?;
    Ok(*there)
}

/// Raises the value at a name by one, from 0 where the map lacks it, and gives the old one.
fn raised(map: &mut OrderedMap<u8>, name: String) -> Result<Option<u8>, AllocError> {
    match map.entry(name) {
        Entry::Occupied(mut entry) => {
            let next = entry.get().wrapping_add(1);
            Ok(Some(entry.insert(next)))
        }
        Entry::Vacant(entry) => {
            entry.insert(1)?;
            Ok(None)
        }
    }
}

/// Returns the value at a name, or 0 if the map lacks it.
fn value_or_zero(map: &OrderedMap<u8>, name: &str) -> u8
    ensures { result ≡ unwrap_or (get name.now map.now) 0 }
{
    if map.contains_key(name) { map[name] } else { 0 }
}

/// Returns the entries of a map in their order, as `name=value` with a blank behind each.
fn told(alloc: Global, map: &OrderedMap<u8>) -> Result<String, Fail> {
    let mut text = String::new(alloc);
    for (name, value) in map {
        write!(text, "{name}={value} ")?;
    }
    Ok(text)
}

/// Returns a map of three names, the second of which was inserted twice.
fn sample(alloc: Global) -> Result<OrderedMap<u8>, AllocError> {
    map_of(alloc, &[("b", 1), ("a", 2), ("c", 3), ("a", 4)])
}

#[test]
fn gives_its_entries(rt: HostRuntime) -> Result<(), Fail> {
    let alloc = rt.alloc();
    let map = sample(alloc)?;
    assert!(rt; map.len() == 3);
    assert_eq!(rt;
        (map.first(), map.last()),
        (Some(("b", &1)), Some(("c", &3)))
    );
    assert_eq!(rt;
        (map.get_index(1), map.entry_at(2)),
        (Some(("a", &4)), ("c", &3))
    );
    assert_eq!(rt;
        (value_or_zero(&map, "a"), value_or_zero(&map, "d")),
        (4, 0)
    );
    let names = map.keys().collect::<Vec<&str>>(*map.allocator())?;
    assert_eq!(rt; names.as_slice(), ["b", "a", "c"].as_slice());
    drop(names);
    let values = map.values().copied().collect::<Vec<u8>>(alloc)?;
    assert_eq!(rt; values.as_slice(), [1, 4, 3].as_slice());
    assert!(rt; map == copied(alloc, &map)? && map == map.clone()?);
    let mut text = String::new(alloc);
    for (name, value) in map {
        write!(text, "{name}={value} ")?;
    }
    assert_eq!(rt; text.as_str(), "b=1 a=4 c=3 ");
    Ok(())
}

#[test]
fn changes_one_after_another(rt: HostRuntime) -> Result<(), Fail> {
    let alloc = rt.alloc();
    let mut map = sample(alloc)?;
    assert!(rt; overwritten(&mut map, "a", 9) && !overwritten(&mut map, "", 9));
    assert_eq!(rt; put_once(&mut map, String::from_str(alloc, "a")?, 5)?, 9);
    assert_eq!(rt; put_once(&mut map, String::from_str(alloc, "d")?, 5)?, 5);
    assert_eq!(rt; raised(&mut map, String::from_str(alloc, "b")?)?, Some(1));
    assert_eq!(rt; raised(&mut map, String::from_str(alloc, "e")?)?, None);
    assert_eq!(rt; told(alloc, &map)?.as_str(), "b=2 a=9 c=3 d=5 e=1 ");
    assert_eq!(rt;
        (map.shift_remove("a"), map.shift_remove("a")),
        (Some(9), None)
    );
    if let Some(value) = map.get_index_mut(1) {
        *value = 7;
    }
    map.retain(|name, value| {
        *value = value.wrapping_add(10);
        name != "e"
    });
    assert_eq!(rt; told(alloc, &map)?.as_str(), "b=12 c=17 d=15 ");
    map.extend(pairs_of(alloc, &[("f", 6), ("b", 1), ("f", 8)])?)?;
    assert_eq!(rt; told(alloc, &map)?.as_str(), "b=1 c=17 d=15 f=8 ");
    Ok(())
}

#[test]
fn changes_all_values(rt: HostRuntime) -> Result<(), Fail> {
    let alloc = rt.alloc();
    let mut map = sample(alloc)?;
    for value in map.values_mut() {
        *value = value.wrapping_mul(2);
    }
    assert_eq!(rt; told(alloc, &map)?.as_str(), "b=2 a=8 c=6 ");
    for (name, value) in map.iter_mut() {
        if name != "a" {
            *value = 0;
        }
    }
    assert_eq!(rt; told(alloc, &map)?.as_str(), "b=0 a=8 c=0 ");
    for (name, value) in &mut map {
        if name == "c" {
            *value = 5;
        }
    }
    assert_eq!(rt; told(alloc, &map)?.as_str(), "b=0 a=8 c=5 ");
    Ok(())
}

#[test]
fn changes_all_of_many_and_of_none(rt: HostRuntime) -> Result<(), Fail> {
    let mut many = numbered(rt.alloc(), 17)?;
    for value in many.values_mut() {
        *value = value.wrapping_add(100);
    }
    assert_eq!(rt; (many.get("0"), many.get("16")), (Some(&100), Some(&116)));
    let mut none = OrderedMap::<u8>::new(rt.alloc());
    assert!(rt; none.values_mut().next().is_none() && none.iter_mut().next().is_none());
    Ok(())
}

#[test]
fn writes_through_entries(rt: HostRuntime) -> Result<(), Fail> {
    let alloc = rt.alloc();
    let mut map = pairs_of(alloc, &[("to", 1), ("be", 1)])?
        .into_iter()
        .collect::<OrderedMap<u8>>(alloc)?;
    for word in ["or", "be"] {
        let entry = map.entry(String::from_str(alloc, word)?);
        assert_eq!(rt; entry.key(), word);
        let raised = entry.and_modify(|count| *count = count.wrapping_add(1));
        *raised.or_insert_with(|| 4)? = 5;
    }
    assert_eq!(rt; told(alloc, &map)?.as_str(), "to=1 be=5 or=5 ");
    match map.entry(String::from_str(alloc, "be")?) {
        Entry::Occupied(mut entry) => {
            assert_eq!(rt; (entry.key(), *entry.get()), ("be", 5));
            *entry.get_mut() = 8;
            assert_eq!(rt; *entry.into_mut(), 8);
        }
        Entry::Vacant(entry) => assert_eq!(rt; entry.key(), ""),
    }
    assert_eq!(rt; told(alloc, &map)?.as_str(), "to=1 be=8 or=5 ");
    Ok(())
}

#[test]
fn keeps_few_and_many(rt: HostRuntime) -> Result<(), Fail> {
    // an index appears at the 17th entry
    for count in [1, 15, 16, 17, 18, 160] {
        let mut numbers = numbered(rt.alloc(), count)?;
        assert!(rt; numbers.len() == count && !numbers.is_empty());
        for number in 0..count {
            let name = format!(in rt.alloc(); "{number}")?;
            assert_eq!(rt; numbers.get(name.as_str()), Some(&number), "of {count}");
            assert_eq!(rt; numbers.get_index(number), Some((name.as_str(), &number)));
        }
        assert!(rt; numbers.get("1000").is_none() && !numbers.contains_key(""));
        let cloned = numbers.clone()?;
        // the even numbers stay, so a map that had an index falls below 17 entries, or keeps more
        numbers.retain(|_name, number| *number % 2 == 0);
        assert!(rt; numbers.len() == count.div_ceil(2) && (numbers == cloned) == (count == 1));
        for number in 0..count {
            let name = format!(in rt.alloc(); "{number}")?;
            assert_eq!(rt;
                numbers.contains_key(name.as_str()),
                number % 2 == 0,
                "of {count}"
            );
        }
    }
    Ok(())
}

#[test]
fn compares_in_any_order(rt: HostRuntime) -> Result<(), Fail> {
    let map = map_of(rt.alloc(), &[("a", 1), ("b", 2)])?;
    for (entries, equal) in [
        ([("b", 2), ("a", 1)].as_slice(), true),
        ([("a", 2), ("b", 1)].as_slice(), false),
        ([("a", 1)].as_slice(), false),
    ] {
        let other = map_of(rt.alloc(), entries)?;
        assert!(rt;
            (map == other) == equal && (other == map) == equal,
            "{other:?}"
        );
    }
    Ok(())
}

#[test]
fn prints_names_with_their_values(rt: HostRuntime) -> Result<(), Fail> {
    let map = map_of(rt.alloc(), &[("b", 1), ("say \"a\"", 2)])?;
    let empty = OrderedMap::<u8>::new(rt.alloc());
    let text = format!(in rt.alloc(); "{map:?} {empty:?} {map:#?}")?;
    assert_eq!(rt;
        text.as_str(),
        "{\"b\": 1, \"say \\\"a\\\"\": 2} {} {\n    \"b\": 1,\n    \"say \\\"a\\\"\": 2,\n}"
    );
    Ok(())
}
