// A row, with zeros behind it.
ghost use Rattle.std.specs.Prelude.{◌≡◌, ◌+◌, ◌≤◌, length};
ghost use Rattle.board.specs.Board.{row_size, padded};
ghost use Rattle.columns.specs.Blocks.{splice};

use board::places::ROW_SIZE;

fn fill(w: &mut [u8], row: &[u8])
    requires { (length w.old ≡ row_size) × (length row.now ≤ row_size) }
    ensures { w.new ≡ padded row.now }
{
    let (front, rest) = w.split_at_mut(row.len());
    front.copy_from_slice(row);
    rest.fill(0);
}

pub fn put_row(b: &mut [u8], at: usize, row: &[u8])
    requires { (at + row_size ≤ length b.old) × (length row.now ≤ row_size) }
    ensures { b.new ≡ splice b.old at row_size (padded row.now) }
{
    let end = at + ROW_SIZE;
    fill(&mut b[at..end], row);
}
