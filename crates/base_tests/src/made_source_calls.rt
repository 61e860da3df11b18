use language_limits::{LONGEST_TEXT, MOST_GROUPS};
use made_source::made_source;
use std::test::Fail;

#[test]
fn the_source_of_one_group(rt: HostRuntime) -> Result<(), Fail> {
    let text = made_source(rt.alloc(), 1)?;
    let due: &[u8] = b"fn g0() {\n\
          par { alloc a = 1; a[0] = 0; print a[0]; free a; } and { alloc b = 1; b[0] = 0; print b[0]; free b; }\n\
          }\n\
          fn main() {\n\
          call g0();\n\
          }\n"
        .as_slice();
    assert!(rt; text.as_slice() == due);
    assert!(rt; text.len() == 139);
    Ok(())
}

#[test]
fn lengths_of_sources(rt: HostRuntime) -> Result<(), Fail> {
    let rows: [(u32, usize); 6] = [
        (1, 139),
        (2, 243),
        (64, 6_893),
        (65, 7_024),
        (1_000, 109_631),
        (MOST_GROUPS, 892_629),
    ];
    for (groups, due) in &rows {
        let text = made_source(rt.alloc(), *groups)?;
        assert!(rt; text.len() == *due);
        assert!(rt; text.len() <= LONGEST_TEXT as usize);
    }
    Ok(())
}
