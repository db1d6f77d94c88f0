use crate::tests::support::verdict;
use client_code::{Fault, TypeTable, parse};
use client_verify::verify;
use std::process::Abort;
use std::test::Fail;
use support_data::{INCREMENT, INCREMENT_FILE, chain};

fn check(rt: &(impl Abort + AllocGlobal), text: &str, wanted: Result<u64, Fault>) {
    assert!(rt; verdict(rt.alloc(), text.as_bytes()) == wanted, "{text}");
}

#[test]
fn bounds(rt: HostRuntime) -> Result<(), Fail> {
    check(&rt, "", Ok(0));
    check(&rt, INCREMENT, Ok(6));
    let chain = chain(rt.alloc(), 20_000)?;
    check(&rt, chain.as_str(), Ok(160005));
    check(
        &rt,
        "CONST r0 1\nCONST r1 7\nWHILE r0 3\nOUTI r1\nEND",
        Ok(9),
    );
    check(&rt, "CONST r0 0\nWHILE r0 5\nOUTI r0\nEND", Ok(12));
    check(
        &rt,
        "CONST r0 1\nIF r0\nOUTI r0\nELSE\nOUTI r0\nOUTI r0\nEND",
        Ok(4),
    );
    Ok(())
}

#[test]
fn the_largest_bound(rt: HostRuntime) {
    check(
        &rt,
        "CONST r0 1\nWHILE r0 999999998\nEND",
        Ok(1_000_000_000),
    );
    check(
        &rt,
        "CONST r0 1\nWHILE r0 999999999\nEND",
        Err(Fault::TooLong),
    );
    let nested =
        "CONST r0 1\nWHILE r0 1000\nWHILE r0 1000\nWHILE r0 1000\nWHILE r0 1000\nWHILE r0 1000\nWHILE r0 1000\nWHILE r0 1000\nOUTI r0\nEND\nEND\nEND\nEND\nEND\nEND\nEND";
    check(&rt, nested, Err(Fault::TooLong));
    let rejected = Err(Fault::Rejected {
        instruction: 3,
        reason: 1,
    });
    check(
        &rt,
        "CONST r0 1\nWHILE r0 1000000000\nEND\nOUTI r1",
        rejected,
    );
}

#[test]
fn an_object_put_into_itself(rt: HostRuntime) {
    let front =
        "type i64\ntype own t2\ntype struct t0 t1\nNEW r0 t2\nREF r1 r0\nFIELD r2 r1 1\nPUT r2 r0\nELSE\nEND";
    check(
        &rt,
        front,
        Err(Fault::Rejected {
            instruction: 3,
            reason: 3,
        }),
    );
}

#[test]
fn a_family_dies_together(rt: HostRuntime) {
    let text =
        "type i64\nfamily p\nCONST r0 1\nCONST r1 2\nMAKE r2 r0 - t0 k0\nKILL r3 r1 t0 k0\nLOAD r4 r2\nELSE\nEND";
    check(
        &rt,
        text,
        Err(Fault::Rejected {
            instruction: 4,
            reason: 1,
        }),
    );
}

/// A table with one type of this kind.
fn table_of(kind: u8) -> TypeTable {
    let mut entry = [0; 16];
    entry[0] = kind;
    TypeTable::read(&entry).unwrap_or_else(|_| TypeTable::new())
}

#[test]
fn types_agree_with_a_table(rt: HostRuntime) -> Result<(), Fail> {
    let client = parse(&INCREMENT_FILE)?;
    let numbers = table_of(1);
    let texts = table_of(2);
    assert!(rt;
        verify(client, &texts).map(|verified| verified.bound()) == Err(Fault::TypeMismatch(0))
    );
    let verified = verify(client, &numbers)?;
    assert!(rt; verified.bound() == 6);
    assert!(rt; verified.types().len() == 1);
    assert!(rt; verified.client().instruction_count() == 8);
    assert!(rt; numbers.agrees(verified.types()).is_ok());
    assert!(rt; texts.agrees(verified.types()).is_err());
    Ok(())
}
