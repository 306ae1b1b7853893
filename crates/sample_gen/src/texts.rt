// The source and the tables text of a sample.

ghost use Rattle.std.specs.Prelude.{◌≡◌, IfOk};
ghost use Rattle.sample_gen.specs.Texts.{head_line, sample_source, sample_tables};

use crate::generator::next_row;
use itoa::Buffer;
use std::alloc::{AllocError, Global};
use table_text::push_row_text;
use tp_value::NoMemory;

/// A source, and the tables text that it is run on.
#[derive(Drop)]
pub struct Sample {
    pub source: Vec<u8>,
    pub tables: Vec<u8>,
}

// Sums each row of the table `a`, folds the sums as maps, adds the squares of all cells, and takes
// the greatest sum.
const SOURCE: &[u8] = b"\
input a;
table s[rows(a)][1];
main {
  par i in 0..rows(a) carry s[i] {
    let x = 0;
    loop j in 0..cols(a) { x = x + a[i][j]; }
    s[i][0] = x;
  }
  let h = 4294967296;
  par i in 0..rows(a) reduce h by affine { fold h with 31 * 4294967296 + s[i][0]; }
  let m = 0;
  par i in 0..rows(a) reduce m by add {
    par j in 0..cols(a) reduce m by add { fold m with a[i][j] * a[i][j]; }
  }
  let g = 0;
  par i in 0..rows(a) reduce g by max { fold g with s[i][0]; }
  print h;
  print m;
  print g;
}
";

// The source of every sample.
pub fn source(alloc: Global) -> Result<Vec<u8>, AllocError>
    ensures { IfOk result (λ source. source.items ≡ sample_source) }
{
    Vec::from_slice(alloc, SOURCE)
}

// The tables text of a seed, made row by row with one row of cells in memory.
pub fn tables_text(alloc: Global, seed: u32, rows: u32, cols: u32) -> Result<Vec<u8>, NoMemory>
    ensures { IfOk result (λ text. text.items ≡ sample_tables seed rows cols) }
{
    let mut text = head_line(alloc, rows, cols)?;
    let mut cells = Vec::new(alloc);
    let mut state = seed;
    for _row in 0..rows {
        state = next_row(&mut cells, state, cols)?;
        push_row_text(&mut text, &cells)?;
    }
    Ok(text)
}

// The table's name, its rows and its columns.
fn head_line(alloc: Global, rows: u32, cols: u32) -> Result<Vec<u8>, AllocError>
    ensures { IfOk result (λ line. line.items ≡ head_line rows cols) }
{
    let mut digits = Buffer::new();
    let mut line = Vec::from_slice(alloc, b"table a ")?;
    line.extend_from_slice(digits.format(rows).as_bytes())?;
    line.push(b' ')?;
    line.extend_from_slice(digits.format(cols).as_bytes())?;
    line.push(b'\n')?;
    Ok(line)
}
