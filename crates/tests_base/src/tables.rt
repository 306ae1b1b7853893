// A table of three rows and two columns, cut and put together again, and the two holders of a
// shared one. The cells are 1 to 6, row by row.

use slices::{Held, HeldFault, cells_join_again, rows_join_again};
use std::process::Abort;
use std::test::Fail;

/// Each place of the table, row by row, beside the number that is wanted there.
fn holds(rt: &impl Abort, held: &Held, wanted: &[Option<i64>; 6]) {
    for i in 0..6 {
        assert_eq!(rt; held.fetch(i as i64 / 2, i as i64 % 2), wanted[i], "at {i}");
    }
}

const ALL: [Option<i64>; 6] = [Some(1), Some(2), Some(3), Some(4), Some(5), Some(6)];

#[test]
fn rows_are_cut_and_appended(rt: HostRuntime) -> Result<(), Fail> {
    let cells = [1, 2, 3, 4, 5, 6].to_vec(rt.alloc())?;
    assert_eq!(rt; cells.len(), 6);
    let mut held = Held::whole(3, 2, cells);
    rows_join_again(&held, 1);
    let upper = held.give_rows(1)?;
    holds(&rt, &held, &[Some(1), Some(2), None, None, None, None]);
    holds(
        &rt,
        &upper,
        &[None, None, Some(3), Some(4), Some(5), Some(6)],
    );
    assert!(rt; !held.is_whole());
    assert!(rt; held.append(upper).is_ok());
    holds(&rt, &held, &ALL);
    assert!(rt; held.is_whole());
    let all = held.give_rows(-1)?;
    holds(&rt, &held, &[None; 6]);
    holds(&rt, &all, &ALL);
    Ok(())
}

#[test]
fn cells_are_cut_and_appended(rt: HostRuntime) -> Result<(), Fail> {
    let cells = [1, 2, 3, 4, 5, 6].to_vec(rt.alloc())?;
    assert_eq!(rt; cells.len(), 6);
    let mut held = Held::whole(3, 2, cells);
    cells_join_again(&held, 1, 1);
    let (lower, upper) = held.give_cells(1, 1)?;
    holds(
        &rt,
        &held,
        &[Some(1), Some(2), None, None, Some(5), Some(6)],
    );
    holds(&rt, &lower, &[None, None, Some(3), None, None, None]);
    holds(&rt, &upper, &[None, None, None, Some(4), None, None]);
    assert!(rt; held.append(upper).is_ok());
    assert!(rt; held.append(lower).is_ok());
    holds(&rt, &held, &ALL);
    Ok(())
}

#[test]
fn a_table_in_boxes_is_read_and_cut_again(rt: HostRuntime) -> Result<(), Fail> {
    let cells = Vec::from_elem(rt.alloc(), 7, 1600)?;
    assert_eq!(rt; cells.len(), 1600);
    let mut held = Held::whole(40, 40, cells);
    let upper = held.give_rows(20)?;
    assert!(rt; held.append(upper).is_ok());
    assert!(rt; held.is_whole());
    assert!(rt; held.put(20, 3, 9)?);
    assert!(rt; !held.put(40, 3, 9)?);
    assert_eq!(rt; held.fetch(20, 3), Some(9));
    assert_eq!(rt; held.fetch(39, 39), Some(7));
    let (lower, upper) = held.give_cells(20, 20)?;
    assert_eq!(rt; held.fetch(20, 3), None);
    assert_eq!(rt; lower.fetch(20, 3), Some(9));
    assert_eq!(rt; upper.fetch(20, 20), Some(7));
    assert!(rt; held.append(lower).is_ok());
    assert!(rt; held.append(upper).is_ok());
    let other = held.share()?;
    assert!(rt; held.put(0, 0, 8)?);
    assert_eq!(rt; other.fetch(0, 0), Some(7));
    assert_eq!(rt; held.fetch(20, 3), Some(9));
    Ok(())
}

#[test]
fn a_put_changes_one_holder(rt: HostRuntime) -> Result<(), Fail> {
    let cells = [1, 2, 3, 4, 5, 6].to_vec(rt.alloc())?;
    assert_eq!(rt; cells.len(), 6);
    let mut held = Held::whole(3, 2, cells);
    let mut other = held.share()?;
    let mut third = held.share()?;
    assert!(rt; held.put(0, 0, 9)?);
    assert!(rt; !other.put(3, 0, 9)?);
    other.own()?;
    third.own()?;
    holds(
        &rt,
        &held,
        &[Some(9), Some(2), Some(3), Some(4), Some(5), Some(6)],
    );
    holds(&rt, &other, &ALL);
    holds(&rt, &third, &ALL);
    Ok(())
}

#[test]
fn a_shared_table_is_read_and_cut(rt: HostRuntime) -> Result<(), Fail> {
    let cells = [1, 2, 3, 4, 5, 6].to_vec(rt.alloc())?;
    assert_eq!(rt; cells.len(), 6);
    let mut held = Held::whole(3, 2, cells);
    let mut other = held.share()?;
    let mut third = other.share()?;
    assert!(rt; held.is_whole() && other.is_whole() && third.is_whole());
    holds(&rt, &other, &ALL);
    assert_eq!(rt; other.fetch(3, 0), None);
    assert_eq!(rt; other.fetch(0, 2), None);
    third.own()?;
    assert!(rt; third.put(2, 1, 9)?);
    assert_eq!(rt; third.fetch(2, 1), Some(9));
    let mut upper = other.give_rows(1)?;
    let mut lower = other.share()?;
    assert!(rt; !lower.is_whole());
    holds(&rt, &lower, &[Some(1), Some(2), None, None, None, None]);
    let second = upper.share()?;
    assert!(rt; lower.append(second).is_ok());
    assert!(rt; lower.is_whole());
    assert!(rt; lower.put(1, 0, 8)?);
    assert_eq!(rt; lower.fetch(1, 0), Some(8));
    assert_eq!(rt; upper.fetch(1, 0), Some(3));
    holds(&rt, &held, &ALL);
    Ok(())
}

#[test]
fn appends_are_refused(rt: HostRuntime) -> Result<(), Fail> {
    let cells = [1, 2, 3, 4, 5, 6].to_vec(rt.alloc())?;
    assert_eq!(rt; cells.len(), 6);
    let mut held = Held::whole(3, 2, cells);
    match held.append(Held::none(rt.alloc(), 2, 3)) {
        Ok(()) => assert!(rt; false),
        Err((_, fault)) => assert_eq!(rt; fault, HeldFault::Sizes),
    }
    let second = held.share()?;
    match held.append(second) {
        Ok(()) => assert!(rt; false),
        Err((_, fault)) => assert_eq!(rt; fault, HeldFault::Overlap),
    }
    Ok(())
}

/// The cells at both ends of three rows of a thousand, and on both sides of the second box's end.
fn marks(rt: &impl Abort, held: &Held, wanted: &[Option<i64>; 5]) {
    assert_eq!(rt; held.fetch(0, 999), wanted[0]);
    assert_eq!(rt; held.fetch(1, 0), wanted[1]);
    assert_eq!(rt; held.fetch(1, 23), wanted[2]);
    assert_eq!(rt; held.fetch(1, 24), wanted[3]);
    assert_eq!(rt; held.fetch(2, 999), wanted[4]);
}

const MARKS: [Option<i64>; 5] = [Some(1), Some(2), Some(3), Some(4), Some(5)];

fn marked(rt: &impl Abort, cells: Vec<i64>) -> Result<Held, Fail> {
    assert_eq!(rt; cells.len(), 3000);
    let mut held = Held::whole(3, 1000, cells);
    held.put(0, 999, 1)?;
    held.put(1, 0, 2)?;
    held.put(1, 23, 3)?;
    held.put(1, 24, 4)?;
    held.put(2, 999, 5)?;
    Ok(held)
}

#[test]
fn rows_in_boxes_are_cut_and_appended(rt: HostRuntime) -> Result<(), Fail> {
    let mut held = marked(&rt, Vec::from_elem(rt.alloc(), 7, 3000)?)?;
    let mut upper = held.give_rows(1)?;
    marks(&rt, &held, &[Some(1), None, None, None, None]);
    marks(&rt, &upper, &[None, Some(2), Some(3), Some(4), Some(5)]);
    let last = upper.give_rows(2)?;
    marks(&rt, &upper, &[None, Some(2), Some(3), Some(4), None]);
    assert!(rt; upper.put(1, 24, 6)?);
    assert!(rt; held.append(last).is_ok());
    assert!(rt; !held.is_whole());
    assert!(rt; held.append(upper).is_ok());
    marks(&rt, &held, &[Some(1), Some(2), Some(3), Some(6), Some(5)]);
    assert!(rt; held.is_whole());
    Ok(())
}

#[test]
fn cells_in_boxes_are_cut_and_appended(rt: HostRuntime) -> Result<(), Fail> {
    let mut held = marked(&rt, Vec::from_elem(rt.alloc(), 7, 3000)?)?;
    let (lower, upper) = held.give_cells(1, 24)?;
    marks(&rt, &held, &[Some(1), None, None, None, Some(5)]);
    marks(&rt, &lower, &[None, Some(2), Some(3), None, None]);
    marks(&rt, &upper, &[None, None, None, Some(4), None]);
    assert!(rt; held.append(lower).is_ok());
    assert!(rt; held.append(upper).is_ok());
    marks(&rt, &held, &MARKS);
    let mut other = held.share()?;
    assert!(rt; other.put(1, 23, 6)?);
    let given = other.give_rows(2)?;
    marks(&rt, &other, &[Some(1), Some(2), Some(6), Some(4), None]);
    marks(&rt, &given, &[None, None, None, None, Some(5)]);
    marks(&rt, &held, &MARKS);
    Ok(())
}

#[test]
fn a_shared_table_in_boxes_is_read_and_cut(rt: HostRuntime) -> Result<(), Fail> {
    let mut held = marked(&rt, Vec::from_elem(rt.alloc(), 7, 3000)?)?;
    let upper = held.give_rows(1)?;
    assert!(rt; held.append(upper).is_ok());
    let mut other = held.share()?;
    let mut third = other.share()?;
    assert!(rt; held.is_whole() && other.is_whole() && third.is_whole());
    marks(&rt, &held, &MARKS);
    assert_eq!(rt; other.fetch(0, 0), Some(7));
    assert_eq!(rt; other.fetch(3, 0), None);
    third.own()?;
    assert!(rt; third.put(1, 23, 6)?);
    marks(&rt, &third, &[Some(1), Some(2), Some(6), Some(4), Some(5)]);
    let (mut lower, upper) = other.give_cells(1, 24)?;
    marks(&rt, &other, &[Some(1), None, None, None, Some(5)]);
    let second = lower.share()?;
    assert!(rt; !second.is_whole());
    marks(&rt, &second, &[None, Some(2), Some(3), None, None]);
    assert!(rt; other.append(upper).is_ok());
    assert!(rt; other.append(second).is_ok());
    assert!(rt; other.is_whole());
    marks(&rt, &other, &MARKS);
    marks(&rt, &held, &MARKS);
    Ok(())
}
