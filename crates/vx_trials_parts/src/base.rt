use std::test::Fail;
use vx_base::*;

fn crosses_threads<T: Send + Sync>(_value: &T) {}

#[test]
fn bytes(rt: HostRuntime) -> Result<(), Fail> {
    let mut bytes = Bytes::with_capacity(rt.alloc(), 2)?;
    bytes.push(1)?;
    bytes.extend_from_slice(&[2, 3])?;
    assert_eq!(rt;
        bytes.as_slice(),
        Bytes::from_slice(rt.alloc(), &[1, 2, 3])?.as_slice()
    );
    crosses_threads(&bytes);
    Ok(())
}

#[test]
fn lists_of_lists(rt: HostRuntime) -> Result<(), Fail> {
    let mut lists = ListOf::<Bytes>::new(rt.alloc());
    lists.push(Bytes::from_slice(rt.alloc(), &[1])?)?;
    lists.push(Bytes::new(rt.alloc()))?;
    lists.truncate(1);
    let mut lists = ListOf::from_vec(lists.into_vec());
    assert!(rt; !lists.is_empty() && lists.len() == 1 && lists.as_slice()[0].len() == 1);
    lists.clear();
    assert!(rt; lists.is_empty());
    Ok(())
}
