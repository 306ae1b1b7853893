// The generator's states and the cells that they give.

ghost use Rattle.std.specs.Prelude.{◌≡◌, ◌+◌, OnOk, IfOk, map};
ghost use Rattle.std.specs.List.{range_with_len};
ghost use Rattle.sample_gen.specs.Cells.{next_state, cell_of, state_after};

use tp_value::NoMemory;

fn next_state(state: u32) -> u32
    ensures { result ≡ next_state state }
{
    state.wrapping_mul(1_664_525).wrapping_add(1_013_904_223)
}

fn cell_of(state: u32) -> i64
    ensures { result ≡ cell_of state }
{
    i64::from(state / 65_536 % 1_000)
}

// Puts the cells of the next row, which begins at that state, in place of those of the last one;
// the state behind them.
pub fn next_row(cells: &mut Vec<i64>, start: u32, cols: u32) -> Result<u32, NoMemory>
    ensures cells { OnOk result (cells.new.items
        ≡ map (λ col. cell_of (state_after start (col + 1))) (range_with_len 0 cols)) }
    ensures state { IfOk result (λ behind. behind ≡ state_after start cols) }
{
    cells.clear();
    let mut state = start;
    for _col in 0..cols {
        state = next_state(state);
        cells.push(cell_of(state))?;
    }
    Ok(state)
}
