// Memories stacked upon one another, tried on values worked out by hand.
#![tactic(auto)]

use memory::memory::Memory;

/// The four words of a block, or none where the memory denies them.
pub fn seen<M: Memory>(memory: &M, block: u32) -> Option<[u32; 4]> {
    memory.read(block).ok()
}

#[cfg(test)]
mod tests {
    use super::*;
    use memory::copying::{copy_block, copy_in_table};
    use memory::dead::DeadList;
    use memory::interleave::Interleave;
    use memory::screen::Screen;
    use memory::word_table::{WordTable, check_table};
    use std::test::Fail;

    // Three blocks and five: six blocks, of which 1, 4 and 9 are listed dead.
    #[test]
    fn screen_over_unequal_halves(rt: HostRuntime) {
        let mut first = [100, 101, 102, 103, 104, 105, 106, 107, 108, 109, 110, 111];
        let mut second = [
            200, 201, 202, 203, 204, 205, 206, 207, 208, 209, 210, 211, 212, 213, 214, 215, 216,
            217, 218, 219,
        ];
        let mut dead = DeadList::new();
        assert!(rt; dead.fill(&[1, 4, 9]).is_ok());
        let mut memory = Screen::new(
            Interleave::new(WordTable::new(&mut first), WordTable::new(&mut second)),
            dead,
        );
        let blocks = [
            Some([100, 101, 102, 103]),
            None,
            Some([104, 105, 106, 107]),
            Some([204, 205, 206, 207]),
            None,
            Some([208, 209, 210, 211]),
            None,
            None,
            None,
            None,
        ];
        assert_eq!(rt; memory.blocks(), 6);
        for (k, block) in (0..).zip(blocks) {
            assert_eq!(rt; seen(&memory, k), block);
        }
        assert!(rt; memory.write(3, [1, 2, 3, 4]).is_ok());
        assert!(rt; memory.write(4, [5, 6, 7, 8]).is_err());
        assert!(rt; memory.write(6, [5, 6, 7, 8]).is_err());
        assert!(rt; copy_block(&mut memory, 0, 5).is_ok());
        assert!(rt; copy_block(&mut memory, 1, 5).is_err());
        assert!(rt; copy_block(&mut memory, 2, 1).is_err());
        assert_eq!(rt;
            first,
            [100, 101, 102, 103, 104, 105, 106, 107, 108, 109, 110, 111]
        );
        assert_eq!(rt;
            second,
            [
                200, 201, 202, 203, 1, 2, 3, 4, 100, 101, 102, 103, 212, 213, 214, 215, 216, 217,
                218, 219,
            ]
        );
    }

    // Two tables of 524,289 blocks: the last pair lies beyond the limit.
    #[test]
    fn interleave_stops_at_the_limit(rt: HostRuntime) -> Result<(), Fail> {
        let mut first = vec![in rt.alloc(); 7u32; 2_097_156]?;
        let mut second = vec![in rt.alloc(); 9u32; 2_097_156]?;
        let memory = Interleave::new(WordTable::new(&mut first), WordTable::new(&mut second));
        assert_eq!(rt; memory.blocks(), 1_048_576);
        assert_eq!(rt; seen(&memory, 1_048_574), Some([7, 7, 7, 7]));
        assert_eq!(rt; seen(&memory, 1_048_575), Some([9, 9, 9, 9]));
        assert_eq!(rt; seen(&memory, 1_048_576), None);
        assert_eq!(rt; seen(&memory, 1_048_577), None);
        Ok(())
    }

    #[test]
    fn tables_of_unfit_length(rt: HostRuntime) -> Result<(), Fail> {
        let mut most = vec![in rt.alloc(); 0u32; 4_194_304]?;
        let mut over = vec![in rt.alloc(); 0u32; 4_194_308]?;
        let mut odd = [1, 2, 3, 4, 5, 6];
        assert!(rt; check_table(&[]).is_ok());
        assert!(rt; check_table(&odd).is_err());
        assert!(rt; check_table(&most).is_ok());
        assert!(rt; check_table(&over).is_err());
        assert_eq!(rt; WordTable::new(&mut most).blocks(), 1_048_576);
        assert_eq!(rt; WordTable::new(&mut over).blocks(), 0);
        let table = WordTable::new(&mut odd);
        assert_eq!(rt; table.blocks(), 0);
        assert_eq!(rt; seen(&table, 0), None);
        Ok(())
    }

    #[test]
    fn dead_lists_of_sixteen_and_seventeen(rt: HostRuntime) {
        let mut dead = DeadList::new();
        assert!(rt;
            dead.fill(&[0, 1, 2, 3, 4, 5, 6, 7, 8, 9, 10, 11, 12, 13, 14, 15])
                .is_ok()
        );
        assert!(rt; dead.contains(0) && dead.contains(15) && !dead.contains(16));
        assert!(rt; dead.fill(&[16; 17]).is_err());
        assert!(rt; dead.contains(0) && dead.contains(15) && !dead.contains(16));
        assert!(rt; dead.fill(&[16]).is_ok());
        assert!(rt; dead.contains(16) && !dead.contains(0) && !dead.contains(15));
    }

    #[test]
    fn a_block_copied_in_a_table(rt: HostRuntime) {
        let mut words = [1, 2, 3, 4, 5, 6, 7, 8, 9, 10, 11, 12];
        assert!(rt; copy_in_table(&mut words, 2, 0).is_ok());
        assert!(rt; copy_in_table(&mut words, 3, 0).is_err());
        assert!(rt; copy_in_table(&mut words, 0, 3).is_err());
        assert_eq!(rt; words, [9, 10, 11, 12, 5, 6, 7, 8, 9, 10, 11, 12]);
    }
}
