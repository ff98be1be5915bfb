use serde_json::Value;
use std::alloc::Global;
use std::test::Fail;
use vx_json::*;

// The value of a text. It has no clause, so that no proof computes a reading.
fn value_of(alloc: Global, text: &str) -> Result<Value, Fail> {
    Ok(Value::from_str(alloc, text)?)
}

/// An object with a member of each kind.
const OBJECT: &str = "{\"name\":\"\\u00e9x\",\"list\":[50],\"flag\":true}";

/// The path of the list's element.
fn place_of(alloc: Global) -> Result<Path, Fail> {
    let list = Path::root(alloc).copy(alloc)?.member(alloc, "list")?;
    Ok(list.element(alloc, 0)?)
}

/// The object's name, of two characters, as the text of a place.
fn name_at(alloc: Global, at: &Path) -> Result<Text, Fail> {
    let value = value_of(alloc, OBJECT)?;
    let root = Path::root(alloc);
    Ok(text_of(alloc, need(alloc, &value, &root, "name")?, at, 2, 2)?)
}

// Each call with ample memory.
#[test]
fn texts_have_paths(rt: HostRuntime) -> Result<(), Fail> {
    let at = place_of(rt.alloc())?;
    assert_eq!(rt; at.member(rt.alloc(), "name")?.as_str(), "list[0].name");
    let text = name_at(rt.alloc(), &at)?;
    assert_eq!(rt; text.copy(rt.alloc())?.as_str(), "\u{e9}x");
    Ok(())
}

#[test]
fn lists_have_numbers(rt: HostRuntime) -> Result<(), Fail> {
    let alloc = rt.alloc();
    let value = value_of(alloc, OBJECT)?;
    let path = Path::root(alloc);
    let list = list_of(alloc, need(alloc, &value, &path, "list")?, &path)?;
    let number = list.first().ok_or("an element")?;
    assert_eq!(rt; whole_of(alloc, number, &path, 1, 50)?, 50);
    assert!(rt; string_of(alloc, number, &path).is_err());
    Ok(())
}

#[test]
fn flags_are_members(rt: HostRuntime) -> Result<(), Fail> {
    let alloc = rt.alloc();
    let value = value_of(alloc, OBJECT)?;
    let path = Path::root(alloc);
    assert!(rt; flag_of(alloc, need(alloc, &value, &path, "flag")?, &path)?);
    assert!(rt; need(alloc, &value, &path, "none").is_err());
    Ok(())
}

#[test]
fn texts_are_kept(rt: HostRuntime) -> Result<(), Fail> {
    let alloc = rt.alloc();
    let mut text = Text::from_str(alloc, "a")?;
    text.push_str("b")?;
    let mut texts = Texts::new(alloc);
    texts.push(Text::from_string(text.into_string()))?;
    assert_eq!(rt; texts.len(), 1);
    Ok(())
}
