use deque_list::List;
use open_periods::PeriodTable;
use play_rules::{first_mover, first_ready, some_ready};
use std::test::Fail;

#[test]
fn words_pick_once_round(rt: HostRuntime) -> Result<(), Fail> {
    let Ok(list) = List::new(rt.alloc(), 7u32, 4_096) else {
        return Ok(());
    };
    let table = PeriodTable::new(rt.alloc(), 64)?;
    assert!(rt; some_ready(&list, 64));
    // the word, the place that is robbed, and the worker that moves where some deque is ready
    let rows = [
        (0, 0),
        (1, 1),
        (63, 63),
        (64, 0),
        (18_446_744_073_709_551_615, 63),
    ];
    for (word, worker) in rows {
        assert!(rt; first_ready(&list, 64, word) == Some(0));
        assert!(rt; first_mover(&table, true, 64, word) == Some(worker));
        assert!(rt; first_mover(&table, false, 64, word).is_none());
    }
    Ok(())
}
