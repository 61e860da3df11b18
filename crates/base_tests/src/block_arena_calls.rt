use block_arena::{
    Block, Full, MOST_PIECES, OutOfRange, Pool, PoolError, Shell, SplitRefused, pieces_for,
};
use language_limits::MOST_WORDS;
use std::process::Abort;
use std::thread::join;

// Words, and why there is no pool of so many.
#[test]
fn makes_pools_of_whole_pieces(rt: HostRuntime) {
    for (words, want) in [
        (0, Some(PoolError::NotWhole)),
        (16, None),
        (24, Some(PoolError::NotWhole)),
        (MOST_WORDS + 8, Some(PoolError::NotWhole)),
        (MOST_WORDS + 16, Some(PoolError::TooLarge)),
    ] {
        assert!(rt; Pool::new(rt.alloc(), words).err() == want, "{words}");
    }
}

// The functions below test what a call needs, and then make it. A caller knows nothing of what they did.

fn pool_of(rt: &(impl Abort + AllocGlobal), words: u32) -> Pool {
    Pool::new(rt.alloc(), words).expect(rt, "a pool")
}

fn shell_of(rt: &(impl Abort + AllocGlobal), len: u32) -> Shell {
    Shell::with_room(rt.alloc(), pieces_for(len)).expect(rt, "memory")
}

// A block of `len` zeros, if there is room for it.
fn take(rt: &(impl Abort + AllocGlobal), pool: &mut Pool, len: u32) -> Result<Block, Full> {
    let shell = shell_of(rt, len);
    assert!(rt; pieces_for(len) <= shell.room() && pieces_for(len) <= MOST_PIECES);
    pool.take(len, shell)
}

// A block of `len` zeros, whose last number is written.
fn taken(rt: &(impl Abort + AllocGlobal), pool: &mut Pool, len: u32) -> Block {
    let mut block = take(rt, pool, len).ok().expect(rt, "room in the pool");
    if len != 0 {
        assert!(rt; block.get(len - 1) == Some(0));
        block.set(len - 1, i64::from(len)).expect(rt, "a place");
    }
    block
}

fn give(rt: &impl Abort, pool: &mut Pool, block: Block) {
    assert!(rt; u64::from(block.words()) <= pool.live());
    let _shell = pool.give(block);
}

// A block has so many numbers, and the last of them is this one.
fn check(rt: &impl Abort, block: &Block, len: u32, last: u32) {
    assert!(rt; block.len() == len);
    assert!(rt; len == 0 || block.get(len - 1) == Some(i64::from(last)));
}

fn take_record_and_give(rt: &impl Abort, pool: &mut Pool) {
    let record = pool.take_record().expect(rt, "room in the pool");
    assert!(rt; 16 <= pool.live());
    pool.give_record(record);
}

// Ten pieces, of which every other one comes back: those that are free are between others, and make one block.
#[test]
fn scattered_pieces_make_one_block(rt: HostRuntime) {
    let mut pool = pool_of(&rt, 160);
    let mut kept = Vec::new(rt.alloc());
    for _ in 0..5 {
        kept.push(taken(&rt, &mut pool, 16)).expect(&rt, "memory");
        let block = taken(&rt, &mut pool, 16);
        give(&rt, &mut pool, block);
        take_record_and_give(&rt, &mut pool);
    }
    let block = taken(&rt, &mut pool, 80);
    check(&rt, &block, 80, 80);
    for block in kept.iter() {
        check(&rt, block, 16, 16);
    }
    let full = take(&rt, &mut pool, 1).err().expect(&rt, "a full pool");
    assert!(rt; full.live == 160 && full.asked == 16 && full.shell.room() == 1);
}

#[test]
fn the_greatest_pool_goes_out_whole(rt: HostRuntime) {
    let mut pool = pool_of(&rt, MOST_WORDS);
    for words in [1_048_576, MOST_WORDS, 1_048_576] {
        let block = taken(&rt, &mut pool, words);
        check(&rt, &block, words, words);
        give(&rt, &mut pool, block);
    }
    assert!(rt; pool.live() == 0 && pool.high() == 67_108_864);
}

// A pool of one piece makes what is wanting to the next block, and what came back is used again.
#[test]
fn a_pool_makes_room(rt: HostRuntime) {
    let mut pool = pool_of(&rt, 16);
    for (len, capacity) in [(16, 16), (100, 128), (0, 128), (17, 160)] {
        pool.make_room(rt.alloc(), len).expect(&rt, "memory");
        let block = taken(&rt, &mut pool, len);
        check(&rt, &block, len, len);
        assert!(rt; pool.capacity() == capacity, "{len}");
        if len == 16 {
            give(&rt, &mut pool, block);
            let _record = pool.take_record().expect(&rt, "room in the pool");
        }
    }
}

// Blocks are joined where they can be, after room was made in the left one.
fn join_blocks(rt: &impl Abort, mut left: Block, right: Block) -> Option<Block> {
    let pieces = pieces_for(left.len()).saturating_add(pieces_for(right.len()));
    left.make_room(pieces).expect(rt, "memory");
    if !Block::can_join(&left, &right) {
        return None;
    }
    let (whole, _shell) = Block::join(left, right);
    Some(whole)
}

// A block is cut at a place and joined again, or is not cut.
fn cut(rt: &(impl Abort + AllocGlobal), block: Block, at: u32) -> (Block, bool) {
    let rest = block.len().saturating_sub(at);
    let shell = shell_of(rt, rest);
    assert!(rt; pieces_for(rest) <= shell.room());
    match block.split(at, shell) {
        Ok((left, right)) => {
            assert!(rt; left.len() == at && right.len() == rest);
            (join_blocks(rt, left, right).expect(rt, "a block"), true)
        }
        Err((whole, _shell, SplitRefused)) => (whole, false),
    }
}

// The length of a block, a place, and whether it is cut there.
#[test]
fn blocks_are_cut_and_joined(rt: HostRuntime) {
    for (len, at, want) in [
        (0, 0, true),
        (40, 24, false),
        (40, 32, true),
        (40, 48, false),
        (131_104, 65_552, true),
    ] {
        let mut pool = pool_of(&rt, 131_104);
        let block = taken(&rt, &mut pool, len);
        let (block, is_cut) = cut(&rt, block, at);
        assert!(rt; is_cut == want, "{len} at {at}");
        check(&rt, &block, len, len);
    }
}

// Two lengths, and whether such blocks are joined.
#[test]
fn room_is_made_before_a_join(rt: HostRuntime) {
    for (len, more, want) in [(16, 5, true), (17, 5, false), (65_552, 65_552, true)] {
        let mut pool = pool_of(&rt, 131_104);
        let left = taken(&rt, &mut pool, len);
        let right = taken(&rt, &mut pool, more);
        match join_blocks(&rt, left, right) {
            Some(whole) => {
                assert!(rt; want, "{more} after {len}");
                check(&rt, &whole, len.saturating_add(more), more);
            }
            None => assert!(rt; !want, "{more} after {len}"),
        }
    }
}

// A pool and a block that is out of it are in the hands of two threads.
#[test]
fn crosses_threads(rt: HostRuntime) {
    let mut pool = pool_of(&rt, 32);
    let block = taken(&rt, &mut pool, 16);
    let (live, number) = join(&rt, move || pool.live(), move || block.get(15));
    assert!(rt; live == 16 && number == Some(16));
}

#[test]
fn refusals_say_why(rt: HostRuntime) {
    let shell = shell_of(&rt, 0);
    let full = Full {
        live: 32,
        asked: 16,
        shell,
    };
    let (whole, large, memory) = (
        PoolError::NotWhole,
        PoolError::TooLarge,
        PoolError::OutOfMemory,
    );
    let told = format!(in rt.alloc();
        "{whole}, {large}, {memory}, {full}, {OutOfRange}, {SplitRefused}"
    );
    let told = told.expect(&rt, "memory");
    let want =
        "the words of the pool are no whole pieces, the words of the pool are too many, out of memory, \
        16 words do not fit beside 32 that are out, the place is not below the length of the block, the block can't be cut at this place";
    assert!(rt; told.as_str() == want, "{told}");
}
