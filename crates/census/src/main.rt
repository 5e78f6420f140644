// Writes the census of the run of the trace on standard input. The bytes are made by the library;
// here they are only read and written.
#![tactic(auto)]

use counting::counting::count;
use parts::reading::read_all;
use run::listing::MOST_READ;
use std::io;
use std::io::{Read, Write};

fn main(rt: HostRuntime) -> io::Result<()> {
    let heap = rt.alloc();
    let input = read_all(heap, rt.stdin().take(MOST_READ))?;
    rt.stdout().write_all(&count(heap, &input)?)
}

#[cfg(test)]
mod tests {
    use protocol::geometry::Geometry;
    use run::board::Board;
    use std::test::Fail;

    #[test]
    fn a_new_board(rt: HostRuntime) -> Result<(), Fail> {
        let board = Board::new(rt.alloc(), Geometry::standard())?;
        assert_eq!(rt; board.lines.len(), 8192);
        assert_eq!(rt; board.locks.len(), 16);
        assert!(rt;
            board
                .cluster
                .check_tables(&board.lines, &board.locks)
                .is_ok()
        );
        Ok(())
    }
}
