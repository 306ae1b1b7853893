// Reads a tables text that it makes itself, some times over.

use std::alloc::Global;
use std::io;
use table_text::{TableFault, push_row_text, read_tables};
use tp_value::{Items, MAX_TABLES_BYTES, NoMemory};

// The text of a table of numbers below 1,000, as they come from a generator.
fn text_of(alloc: Global, side: u32) -> Result<Vec<u8>, NoMemory> {
    let first = format!(in alloc; "table a {side} {side}\n")?;
    let mut text = Vec::from_slice(alloc, first.as_bytes())?;
    let mut x = 1u32;
    for _ in 0..side {
        let mut row = Vec::new(alloc);
        for _ in 0..side {
            x = x.wrapping_mul(1664525).wrapping_add(1013904223);
            row.push(i64::from(x / 65536 % 1000))?;
        }
        push_row_text(&mut text, &row)?;
    }
    Ok(text)
}

fn sum_of(cells: &Items<i64>) -> i64 {
    let mut sum = 0;
    for cell in cells.items() {
        sum = tp_value::add(sum, *cell);
    }
    sum
}

// The sum of all cells, read that many times.
fn read_times(alloc: Global, text: &[u8], times: u32) -> Result<i64, TableFault> {
    let mut sum = 0;
    if text.len() <= MAX_TABLES_BYTES as usize {
        for _ in 0..times {
            for table in &read_tables(alloc, text)? {
                sum = tp_value::add(sum, sum_of(&table.cells));
            }
        }
    }
    Ok(sum)
}

/// Prints the sum of what was read so many times, of one table with so many rows and columns.
/// bench/read_tables.sh times it against a plain Rust twin.
pub fn run(rt: &HostRuntime, side: u32, times: u32) -> io::Result<()> {
    match text_of(rt.alloc(), side) {
        Err(NoMemory) => println!(rt; "no memory"),
        Ok(text) => match read_times(rt.alloc(), &text, times) {
            Err(_) => println!(rt; "no tables"),
            Ok(sum) => println!(rt; "{sum}"),
        },
    }
}
