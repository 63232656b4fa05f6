use flat_model::Entry;
use run_journal::Journal;
use std::test::*;

#[test]
fn turns_of_one_hart_are_joined(rt: HostRuntime) -> Result<(), Fail> {
    let mut journal = Journal::new(rt.alloc()).ok().ok_or("memory")?;
    assert!(rt; journal.is_empty());
    journal.reserve(4).ok().ok_or("memory")?;
    journal.push(Entry::Turn { hart: 0, n: 3 });
    journal.push(Entry::Turn { hart: 0, n: 4 });
    journal.push(Entry::Turn { hart: 1, n: 5 });
    journal.push(Entry::Leave { hart: 1 });
    assert_eq!(rt; journal.len(), 3);
    assert_eq!(rt; journal.total(), 12u128);
    assert_eq!(rt; journal.entries()[0], Entry::Turn { hart: 0, n: 7 });
    assert_eq!(rt; journal.entries()[1], Entry::Turn { hart: 1, n: 5 });
    assert_eq!(rt; journal.entries()[2], Entry::Leave { hart: 1 });
    Ok(())
}
