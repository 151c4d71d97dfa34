//! The examples of docstrings: the results of the calls that a user tries first.
use std::alloc::Global;
use std::process::Abort;
use vortex_buffer::{
    BitBuffer, BitBufferMut, Buffer, BufferMut, Comparison, Filter, Ranked, Result, Take, compared,
};

fn sets_are_asked(rt: &impl Abort, alloc: Global) -> Result<()> {
    let set = BitBuffer::from_indices(alloc, 6, [1, 4])?;
    assert_eq!(rt; set.value(4), true);
    assert_eq!(rt; set.true_count(), 2);
    drop(set);

    let set = BitBuffer::from_bools(alloc, &[false, true, false, false, true, false])?;
    assert_eq!(rt; set.count_range(2, 6), 1);

    assert_eq!(rt; (set.select(1), set.select(2)), (Some(4), None));

    assert_eq!(rt; (set.next_set(2), set.next_set(5)), (Some(4), None));

    let part = set.slice(1..5)?;
    assert_eq!(rt; (part.len(), part.select(1)), (4, Some(3)));
    drop(part);

    drop(set);
    Ok(())
}

fn sets_are_combined(rt: &impl Abort, alloc: Global) -> Result<()> {
    let left = BitBuffer::from_indices(alloc, 6, [1, 4])?;
    let right = BitBuffer::from_indices(alloc, 6, [4, 5])?;

    let first = left.bitand_not(&right)?;
    assert_eq!(rt; first.select(0), Some(1));

    drop((left, right, first));
    Ok(())
}

fn sets_are_edited(rt: &impl Abort, alloc: Global) -> Result<()> {
    let mut rows = BitBufferMut::new_unset(alloc, 2)?;
    rows.append(true)?;
    rows.append_n(false, 3)?;
    assert_eq!(rt; (rows.len(), rows.value(2)), (6, true));

    rows.fill_range(0, 2, true);
    assert_eq!(rt; rows.value(1), true);
    drop(rows);

    let mut rows = BitBufferMut::new_set(alloc, 2)?;
    let mut appender = rows.appender();
    for i in 0..100 {
        appender.append(i % 3 == 0)?;
    }
    drop(appender);
    assert_eq!(rt; (rows.len(), rows.as_view().true_count()), (102, 36));
    drop(rows);

    let rows = BitBufferMut::new_set(alloc, 4)?;
    let shared = rows.freeze()?;
    assert_eq!(rt; shared.true_count(), 4);
    drop(shared);
    Ok(())
}

fn values_are_selected(rt: &impl Abort, alloc: Global) -> Result<()> {
    let values = Buffer::copy_from(alloc, &[7u32, 0, 9, 4])?;
    let mask = compared(alloc, values.as_slice(), Comparison::Greater, 4, None)?;
    let kept = values.filtered(mask.as_view())?;
    assert_eq!(rt; kept.as_slice(), [7, 9].as_slice());

    let taken = values.taken(&[3u32, 0], None)?;
    assert_eq!(rt; taken.as_slice(), [4, 7].as_slice());

    let rest = values.slice(2..4)?;
    assert_eq!(rt; rest.as_slice(), [9, 4].as_slice());

    drop((values, mask, kept, taken, rest));
    Ok(())
}

fn values_are_pushed(rt: &impl Abort, alloc: Global) -> Result<()> {
    let mut values = BufferMut::<u32>::with_capacity(alloc, 2)?;
    values.push(7)?;
    values.push(9)?;
    assert_eq!(rt; values.as_slice(), [7, 9].as_slice());
    drop(values);
    Ok(())
}

fn ranks_are_asked(rt: &impl Abort, alloc: Global) -> Result<()> {
    let set = BitBufferMut::from_indices(alloc, 1000, [7, 700])?;
    let mut ranked = Ranked::new(alloc, set)?;
    assert_eq!(rt; (ranked.rank(700), ranked.select(1)), (1, Some(700)));

    ranked.set_to(8, true);
    assert_eq!(rt; ranked.select(1), Some(8));

    drop(ranked);
    Ok(())
}

#[test]
fn examples_of_docstrings_hold(rt: HostRuntime) {
    let alloc = rt.alloc();
    sets_are_asked(&rt, alloc).expect(&rt, "memory");
    sets_are_combined(&rt, alloc).expect(&rt, "memory");
    sets_are_edited(&rt, alloc).expect(&rt, "memory");
    values_are_selected(&rt, alloc).expect(&rt, "memory");
    values_are_pushed(&rt, alloc).expect(&rt, "memory");
    ranks_are_asked(&rt, alloc).expect(&rt, "memory");
}
