use crate::made::text;
use std::test::Fail;
use texts::id::Id;
use texts::text::Text;

#[test]
fn lengths(rt: HostRuntime) {
    assert!(rt; Text::new(b"").is_some());
    assert!(rt; Id::new(b"").is_none());
    assert!(rt; Id::new(b"A").is_some());
    assert!(rt; Id::new(b"0123456789ABCDEF").is_some());
    assert!(rt; Id::new(b"0123456789ABCDEFG").is_none());
    assert!(rt; Text::new(b"0123456789ABCDEFG").is_none());
}

#[test]
fn bytes(rt: HostRuntime) {
    assert!(rt; Text::new(&[0x21, 0x7E]).is_some());
    assert!(rt; Text::new(&[0x41, 0x20]).is_none());
    assert!(rt; Text::new(&[0x7F]).is_none());
    assert!(rt; Text::new(&[0x41, 0x00]).is_none());
}

#[test]
fn same_texts(rt: HostRuntime) -> Result<(), Fail> {
    let a = text(b"A1")?;
    let b = text(b"A1")?;
    let c = text(b"A12")?;
    assert!(rt; a == b);
    assert!(rt; a != c);
    assert!(rt; a != Text::empty());
    assert_eq!(rt; c.len(), 3);
    assert!(rt; format!(in rt.alloc(); "<{c}>")?.as_str() == "<A12>");
    Ok(())
}
