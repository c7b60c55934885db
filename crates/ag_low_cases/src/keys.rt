//! What no contract can say: that memory suffices for a key.
use ag_base::Text;
use ag_verdict::{Key, KeyKind};
use std::test::Fail;

#[test]
fn a_key_is_shared(rt: HostRuntime) -> Result<(), Fail> {
    let alloc = rt.alloc();
    let key = Key {
        layer: Text::make(alloc, "P::S.i")?,
        member: Some(Text::make(alloc, "a")?),
        kind: KeyKind::Assume,
        number: 2,
    };
    let copy = key.share()?;
    assert_eq!(rt; copy.layer.as_str(), "P::S.i");
    assert!(rt; copy.member.as_ref().is_some_and(|m| m.as_str() == "a"));
    assert!(rt; copy.kind == KeyKind::Assume);
    assert_eq!(rt; copy.number, 2);
    Ok(())
}
