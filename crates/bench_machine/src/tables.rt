// Reads and writes cells of a table along rows, along columns and at random, cuts and appends it,
// or copies its cells: the loads of `bench/tables.sh`. A name that begins with `cut_` reads and
// writes a table that was cut and put together again.

use slices::Held;
use std::alloc::Global;
use std::io;
use std::process::ExitCode;
use tp_value::NoMemory;

const SIDE: u32 = 2000;

const CELLS: usize = 4_000_000;

const ROUND: u32 = 1_000_000;

/// Counts a cell up, and gives what it was.
#[inline(always)]
fn count_up(held: &mut Held, row: i64, col: i64) -> Result<i64, NoMemory> {
    let Some(value) = held.fetch(row, col) else {
        return Ok(0);
    };
    held.put(row, col, value.wrapping_add(1))?;
    Ok(value)
}

/// A sum over cells in a scattered order, each counted up once it was read.
fn access(held: &mut Held, times: u32) -> Result<i64, NoMemory> {
    let mut sum: i64 = 0;
    let mut state: u64 = 1;
    for _ in 0..times {
        for _ in 0..ROUND {
            state = state
                .wrapping_mul(6_364_136_223_846_793_005)
                .wrapping_add(1);
            let row = i64::from((state >> 33) as u32 % SIDE);
            let col = i64::from((state >> 40) as u32 % SIDE);
            sum = sum.wrapping_add(count_up(held, row, col)?);
        }
    }
    Ok(sum)
}

/// The same over all cells of 500 rows.
fn rows(held: &mut Held, times: u32) -> Result<i64, NoMemory> {
    let mut sum: i64 = 0;
    for _ in 0..times {
        for row in 0..500 {
            for col in 0..SIDE {
                sum = sum.wrapping_add(count_up(held, row, i64::from(col))?);
            }
        }
    }
    Ok(sum)
}

/// The same over all cells of 500 columns.
fn columns(held: &mut Held, times: u32) -> Result<i64, NoMemory> {
    let mut sum: i64 = 0;
    for _ in 0..times {
        for col in 0..500 {
            for row in 0..SIDE {
                sum = sum.wrapping_add(count_up(held, i64::from(row), col)?);
            }
        }
    }
    Ok(sum)
}

fn put_back(held: &mut Held, upper: Held) -> Result<(), NoMemory> {
    match held.append(upper) {
        Ok(()) => Ok(()),
        Err(_) => Err(NoMemory),
    }
}

/// The table cut at its middle and appended again.
fn cuts(held: &mut Held, times: u32) -> Result<i64, NoMemory> {
    for _ in 0..times {
        let upper = held.give_rows(1000)?;
        put_back(held, upper)?;
    }
    Ok(held.fetch(1999, 1999).unwrap_or(0))
}

/// A row's cells cut out in two parts and appended again.
fn row_cuts(held: &mut Held, times: u32) -> Result<i64, NoMemory> {
    for _ in 0..times {
        let (lower, upper) = held.give_cells(1000, 1000)?;
        put_back(held, lower)?;
        put_back(held, upper)?;
    }
    Ok(held.fetch(1000, 1999).unwrap_or(0))
}

/// All but two rows cut off in parts of two rows, the uppermost first.
fn cut_leaves(alloc: Global, held: &mut Held) -> Result<Vec<Held>, NoMemory> {
    let mut parts = Vec::new(alloc);
    for k in 1..1000u32 {
        let part = held.give_rows(2000 - 2 * i64::from(k))?;
        if parts.push(part).is_err() {
            return Err(NoMemory);
        }
    }
    Ok(parts)
}

/// The table cut into a thousand parts and put together again.
fn leaves(alloc: Global, held: &mut Held, times: u32) -> Result<i64, NoMemory> {
    for _ in 0..times {
        let mut parts = cut_leaves(alloc, held)?;
        for _ in 1..1000 {
            if let Some(part) = parts.pop() {
                put_back(held, part)?;
            }
        }
    }
    Ok(held.fetch(1999, 1999).unwrap_or(0))
}

/// Copies of the cells, each cut at its middle and appended again, for the first time.
fn first_cuts(alloc: Global, cells: &[i64], times: u32) -> Result<i64, NoMemory> {
    let mut sum: i64 = 0;
    for _ in 0..times {
        let copy = Vec::from_slice(alloc, cells)?;
        if copy.len() == CELLS {
            let mut held = Held::whole(SIDE, SIDE, copy);
            sum = sum.wrapping_add(cuts(&mut held, 1)?);
        }
    }
    Ok(sum)
}

/// A table of ten rows and columns cut at its middle and appended again.
fn small_cuts(alloc: Global, times: u32) -> Result<i64, NoMemory> {
    let cells = Vec::from_elem(alloc, 7, 100)?;
    let mut held = Held::whole(10, 10, cells);
    for _ in 0..times {
        for _ in 0..ROUND {
            let upper = held.give_rows(5)?;
            put_back(&mut held, upper)?;
        }
    }
    Ok(held.fetch(9, 9).unwrap_or(0))
}

/// The cells copied.
fn copies(alloc: Global, cells: &[i64], times: u32) -> Result<i64, NoMemory> {
    let mut sum: i64 = 0;
    for _ in 0..times {
        let copy = Vec::from_slice(alloc, cells)?;
        sum = sum.wrapping_add(copy.last().copied().unwrap_or(0));
    }
    Ok(sum)
}

fn walks(held: &mut Held, name: &str, times: u32) -> Result<i64, NoMemory> {
    if name == "rows" {
        return rows(held, times);
    }
    if name == "columns" {
        return columns(held, times);
    }
    access(held, times)
}

fn load(alloc: Global, name: &str, times: u32) -> Result<i64, NoMemory> {
    if name == "small_cuts" {
        return small_cuts(alloc, times);
    }
    let cells = Vec::from_elem(alloc, 7, CELLS)?;
    if name == "copies" {
        return copies(alloc, &cells, times);
    }
    if name == "first_cuts" {
        return first_cuts(alloc, &cells, times);
    }
    let mut held = Held::whole(SIDE, SIDE, cells);
    if name == "cuts" {
        return cuts(&mut held, times);
    }
    if name == "row_cuts" {
        return row_cuts(&mut held, times);
    }
    if name == "leaves" {
        return leaves(alloc, &mut held, times);
    }
    if let Some(walk) = name.strip_prefix("cut_") {
        cuts(&mut held, 1)?;
        return walks(&mut held, walk, times);
    }
    walks(&mut held, name, times)
}

/// Writes what so many rounds of the load come to.
pub fn run(rt: &HostRuntime, name: &str, times: u32) -> io::Result<ExitCode> {
    match load(rt.alloc(), name, times) {
        Ok(sum) => {
            println!(rt; "{sum}")?;
            Ok(ExitCode::SUCCESS)
        }
        Err(NoMemory) => Ok(ExitCode::FAILURE),
    }
}
