use jm_base::{Bytes, Numbers, Rows};
use jm_edge::EdgeFault;
use keep_port::{Keeper, Kept, MemoryKeeper};
use std::test::Fail;

#[test]
fn refused_rows_and_wholes_are_not_kept(rt: HostRuntime) -> Result<(), Fail> {
    let alloc = rt.alloc();
    let mut appends = Numbers::new(alloc);
    appends.push(2)?;
    let mut replaces = Numbers::new(alloc);
    replaces.push(1)?;
    let mut keeper = MemoryKeeper::build_failing(
        alloc,
        Kept::new(alloc),
        Numbers::new(alloc),
        appends,
        replaces,
    );
    assert!(rt; keeper.append(alloc, b"a").is_ok());
    assert!(rt; keeper.append(alloc, b"b") == Err(EdgeFault::Failed));
    assert!(rt; keeper.append(alloc, b"c").is_ok());
    let whole = Kept {
        base: Some(Bytes::from_slice(alloc, b"x")?),
        rows: Rows::new(alloc),
    };
    assert!(rt; keeper.replace(alloc, &whole) == Err(EdgeFault::Failed));
    assert_eq!(rt; keeper.kept().rows.len(), 2);
    assert!(rt; keeper.kept().base.is_none());
    assert!(rt; keeper.replace(alloc, &whole).is_ok());
    assert!(rt; keeper.kept().base.is_some());
    assert_eq!(rt; keeper.kept().rows.len(), 0);
    Ok(())
}

#[test]
fn loads_what_is_kept_but_at_the_listed_calls(rt: HostRuntime) -> Result<(), Fail> {
    let alloc = rt.alloc();
    let mut loads = Numbers::new(alloc);
    loads.push(1)?;
    let none = Numbers::new(alloc);
    let mut keeper = MemoryKeeper::build_failing(
        alloc,
        Kept::new(alloc),
        loads,
        none,
        Numbers::new(alloc),
    );
    assert!(rt; keeper.append(alloc, b"a").is_ok());
    assert!(rt; matches!(keeper.load(alloc), Err(EdgeFault::Failed)));
    let mut loaded = Kept::new(alloc);
    if let Ok(kept) = keeper.load(alloc) {
        loaded = kept;
    }
    assert_eq!(rt; loaded.rows.len(), 1);
    let mut sound = MemoryKeeper::new(alloc, loaded);
    assert!(rt; sound.load(alloc).is_ok());
    assert_eq!(rt; sound.kept().rows.as_slice()[0].as_slice(), b"a".as_slice());
    Ok(())
}
