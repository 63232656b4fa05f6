use flat_model::{Cond, Op};
use score_boards::{Column, ParkedColumn, sum};
use std::test::Fail;

#[test]
fn entries_add_store_and_compare(rt: HostRuntime) -> Result<(), Fail> {
    let mut column = Column::new(rt.alloc(), 2)?;
    assert_eq!(rt; column.len(), 2);
    column.apply(Op::Store, 1, u64::MAX);
    column.apply(Op::Add, 1, 3);
    assert_eq!(rt; (column.get(0), column.get(1)), (0, 2));
    let conds = [
        (Cond::Never, [false, false, false]),
        (Cond::Always, [true, true, true]),
        (Cond::Eq, [false, true, false]),
        (Cond::Ne, [true, false, true]),
        (Cond::Lt, [false, false, true]),
        (Cond::Le, [false, true, true]),
        (Cond::Gt, [true, false, false]),
        (Cond::Ge, [true, true, false]),
    ];
    for (cond, wanted) in conds {
        let got = [
            column.holds(cond, 1, 1),
            column.holds(cond, 1, 2),
            column.holds(cond, 1, u64::MAX),
        ];
        assert_eq!(rt; got, wanted, "{cond:?}");
    }
    Ok(())
}

#[test]
fn sums_go_over_the_harts_and_wrap(rt: HostRuntime) -> Result<(), Fail> {
    let mut first = Column::new(rt.alloc(), 1)?;
    let mut second = Column::new(rt.alloc(), 1)?;
    first.apply(Op::Store, 0, u64::MAX);
    second.apply(Op::Store, 0, 5);
    let parked = [
        ParkedColumn {
            hart: 0,
            column: first,
        },
        ParkedColumn {
            hart: 1,
            column: second,
        },
    ];
    assert_eq!(rt; sum(&parked, 0), 4);
    Ok(())
}
