//! Blocks of an image as types: a run is the same with and without them.

use crate::images::image;
use a64_blocks::{Again, Blocks, Cat, Code, Image, ImageBlocks, Last, Nothing, Seq};
use a64_forms::accesses::{Load, Store};
use a64_forms::branches::JumpNe;
use a64_forms::sums::{Add, SubsImm};
use a64_run::{CompiledBlocks, Edges, NoBlocks, NoEdges};
use std::test::Fail;
use tombolopan::{
    Admission, Attrs, Flat, Lone, OpCache, Outcome, Paged, Regs, TagMode, Tagged, Terms,
};

const CODE: u64 = 0x10000;

/// Adds a word of memory x3 times, stores the sum and calls the supervisor.
static SUM: [u32; 6] = [
    0xF9400022, 0x8B000040, 0xF1000463, 0x54FFFFA1, 0xF9000020, 0xD4000001,
];

/// The same with a difference.
static DIFFERENCE: [u32; 6] = [
    0xF9400022, 0xCB020000, 0xF1000463, 0x54FFFFA1, 0xF9000020, 0xD4000001,
];

type Test = Seq<SubsImm<1, 3, 3>, 0x10008, 0xF1000463, Last<JumpNe<-3>, 0x1000C, 0x54FFFFA1>>;

type Turn = Seq<Load<0, 1, 2>, 0x10000, 0xF9400022, Seq<Add<0, 2, 0>, 0x10004, 0x8B000040, Test>>;

type Gap = Seq<Load<0, 1, 2>, 0x10000, 0xF9400022, Test>;

type Whole = Cat<Again<Turn>, Last<Store<0, 1, 0>, 0x10010, 0xF9000020>>;

type Sum = Blocks<Whole, Blocks<Turn, Nothing>>;

/// What a run tells of its instructions, as one number of each kind.
#[derive(Clone, Copy, PartialEq, Eq)]
struct Told {
    attempted: u64,
    completed: u64,
    passed: u64,
    taken: u64,
}

fn joined(told: u64, next: u64) -> u64 {
    told.wrapping_mul(31).wrapping_add(next)
}

impl Edges for Told {
    fn taken(&mut self, from: u64, word: u32, to: u64) {
        self.taken = joined(joined(joined(self.taken, from), u64::from(word)), to);
    }

    fn passed(&mut self, pc: u64) {
        self.passed = joined(self.passed, pc);
    }

    fn attempting(&mut self, pc: u64, word: u32, regs: &Regs) {
        self.attempted = joined(
            joined(joined(self.attempted, pc), u64::from(word)),
            regs.x[0],
        );
    }

    fn completed(&mut self, pc: u64, word: u32, regs: &Regs) {
        self.completed = joined(
            joined(joined(self.completed, pc), u64::from(word)),
            regs.x[0],
        );
    }
}

/// The memory of a tenant of some words.
fn memory_of(rt: &HostRuntime, words: &[u32]) -> Result<Flat, Fail> {
    let file = image(rt.alloc(), words)?;
    let admission = Admission {
        id: 1,
        image: file.as_slice(),
        input: &[],
        terms: Terms {
            seed: 1,
            pages: 5,
            room: 16,
            mode: TagMode::Sync,
        },
    };
    let Lone {
        parts: _,
        memory,
        words: _,
    } = Lone::new(rt.alloc(), &admission)?;
    Ok(memory)
}

/// Registers before the sum of five words at the top of the stack.
fn before_sum() -> Regs {
    let mut regs = Regs::new(CODE, 0x4000_0000);
    regs.x[1] = 0x3FFF_F000;
    regs.x[3] = 5;
    regs
}

/// What a run of some words leaves and tells.
fn ran<T: CompiledBlocks>(rt: &HostRuntime, words: &[u32]) -> Result<(Regs, u64, Told), Fail> {
    let mut memory = memory_of(rt, words)?;
    let mut kept = OpCache::new(rt.alloc())?;
    let _ = memory.write(0x3FFF_F000, &7u64.to_le_bytes(), false);
    let mut regs = before_sum();
    let mut told = Told {
        attempted: 0,
        completed: 0,
        passed: 0,
        taken: 0,
    };
    let mut outcome = Outcome::Next;
    kept.begin_run();
    let left = T::begin().run(
        &mut kept,
        &mut regs,
        &mut memory,
        &mut told,
        &mut outcome,
        100,
    );
    if outcome != Outcome::Svc {
        return Err(Fail::from("no call of the supervisor"));
    }
    Ok((regs, left, told))
}

/// The block is taken where its words are in memory, and not where others are.
#[test]
fn blocks_change_nothing(rt: HostRuntime) -> Result<(), Fail> {
    let (regs, left, told) = ran::<ImageBlocks<Sum>>(&rt, &SUM)?;
    assert!(rt; regs.x[0] == 35 && left == 100 - 22);
    assert!(rt; ran::<NoBlocks>(&rt, &SUM)? == (regs, left, told));
    let (regs, left, told) = ran::<ImageBlocks<Sum>>(&rt, &DIFFERENCE)?;
    assert!(rt; regs.x[0] == 0u64.wrapping_sub(35) && left == 100 - 22);
    assert!(rt; ran::<NoBlocks>(&rt, &DIFFERENCE)? == (regs, left, told));
    Ok(())
}

/// Each block of a number is run by it.
#[test]
fn numbers_have_blocks(rt: HostRuntime) -> Result<(), Fail> {
    let mut memory = memory_of(&rt, &SUM)?;
    for (number, steps) in [(1u16, 21u64), (2, 4)] {
        let mut regs = before_sum();
        let mut told = NoEdges;
        let mut outcome = Outcome::Next;
        if !Sum::is_there(number, &mut memory) {
            return Err(Fail::from("a block is not there"));
        }
        let left = Sum::run_number(number, &mut regs, &mut memory, &mut told, &mut outcome, 100);
        assert!(rt; left == 100 - steps);
    }
    assert!(rt; !Sum::is_there(0, &mut memory) && !Sum::is_there(3, &mut memory));
    assert!(rt; Sum::number_at(CODE) == 1 && Sum::number_at(CODE + 4) == 0);
    assert!(rt; Turn::START == CODE && Turn::COUNT == 4 && Whole::COUNT == 4);
    Ok(())
}

/// A block with another field, another address or a word of another form is not there.
#[test]
fn other_blocks_are_not_there(rt: HostRuntime) -> Result<(), Fail> {
    let mut memory = memory_of(&rt, &SUM)?;
    let field = Last::<Load<0, 1, 3>, 0x10000, 0xF9400022>::is_there(&mut memory);
    let address = Last::<Load<0, 1, 2>, 0x10004, 0xF9400022>::is_there(&mut memory);
    let form = Last::<Load<0, 1, 2>, 0x10004, 0x8B000040>::is_there(&mut memory);
    assert!(rt; !field && !address && !form && Turn::is_there(&mut memory));
    Ok(())
}

/// A block ends where what follows does not begin behind an instruction.
#[test]
fn blocks_end_at_gaps(rt: HostRuntime) -> Result<(), Fail> {
    let mut memory = memory_of(&rt, &SUM)?;
    let _ = memory.write(0x3FFF_F000, &7u64.to_le_bytes(), false);
    let mut regs = before_sum();
    let mut told = NoEdges;
    let mut outcome = Outcome::Next;
    assert!(rt; Gap::is_there(&mut memory));
    let left = Gap::run(&mut regs, &mut memory, &mut told, &mut outcome, 100);
    assert!(rt; left == 99 && regs.pc == CODE + 4 && regs.x[2] == 7);
    Ok(())
}

/// Nor is one on a page with WRITE.
#[test]
fn no_block_is_on_a_page_with_write(rt: HostRuntime) -> Result<(), Fail> {
    let mut memory = Flat::new(rt.alloc(), 1, TagMode::Sync)?;
    if memory.map_pages(CODE / 4096, 1, Attrs::ALL).is_err() {
        return Err(Fail::from("no page is left"));
    }
    let _ = memory.write(CODE, &SUM[0].to_le_bytes(), false);
    let found = Last::<Load<0, 1, 2>, 0x10000, 0xF9400022>::is_there(&mut memory);
    assert!(rt; memory.fetch(CODE) == Ok(SUM[0]) && !found);
    Ok(())
}
