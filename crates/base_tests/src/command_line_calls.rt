//! Words, and the commands that they are. Tables are texts, since the proof of a function spells each part of a table out.
use command_line::{Command, read_arguments};
use std::alloc::{AllocError, Global};
use std::process::Abort;
use std::test::Fail;

/// The command that the words of a line are. It hands no clause on, since each goal of its callers would carry it.
fn read(alloc: Global, line: &str) -> Result<Option<Command>, AllocError> {
    let mut words = Vec::new(alloc);
    for word in line.split_whitespace() {
        words.push(String::from_str(alloc, word)?)?;
    }
    Ok(read_arguments(words.as_slice()))
}

/// The words of a line are a command that tells this: its kind and its numbers.
fn is_command(rt: &impl Abort, alloc: Global, line: &str, want: &str) -> Result<(), Fail> {
    let command = read(alloc, line)?.ok_or("no command")?;
    let told = format!(in alloc;
        "{:?} k {} p {} arena {} steps {} deques {} seed {} groups {}",
        command.kind,
        command.k,
        command.p,
        command.arena,
        command.steps,
        command.deques,
        command.seed,
        command.groups
    )?;
    assert!(rt; told.as_str() == want, "{told} {line}");
    Ok(())
}

/// The words of each line, and what their command tells. What the words do not give stands at its default.
const COMMANDS: &str = "
play| Play k 4096 p 4 arena 1048576 steps 4000000 deques 4096 seed 1 groups 0
play --k=016 --p 1| Play k 16 p 1 arena 1048576 steps 4000000 deques 4096 seed 1 groups 0
play --p=64 --k 1048576| Play k 1048576 p 64 arena 1048576 steps 4000000 deques 4096 seed 1 groups 0
play --k 00000000000000000032| Play k 32 p 4 arena 1048576 steps 4000000 deques 4096 seed 1 groups 0
play --p 04 --k 16| Play k 16 p 4 arena 1048576 steps 4000000 deques 4096 seed 1 groups 0
play --arena 67108864| Play k 4096 p 4 arena 67108864 steps 4000000 deques 4096 seed 1 groups 0
play --arena=16| Play k 4096 p 4 arena 16 steps 4000000 deques 4096 seed 1 groups 0
play --steps 1| Play k 4096 p 4 arena 1048576 steps 1 deques 4096 seed 1 groups 0
play --deques 4096| Play k 4096 p 4 arena 1048576 steps 4000000 deques 4096 seed 1 groups 0
play --deques=1| Play k 4096 p 4 arena 1048576 steps 4000000 deques 1 seed 1 groups 0
play --seed 0| Play k 4096 p 4 arena 1048576 steps 4000000 deques 4096 seed 0 groups 0
play --seed 18446744073709551615| Play k 4096 p 4 arena 1048576 steps 4000000 deques 4096 seed 18446744073709551615 groups 0
play --seed 7 --deques=3 --steps 9 --arena=48 --p 2 --k=32| Play k 32 p 2 arena 48 steps 9 deques 3 seed 7 groups 0
play --k 32 --p=2 --arena 48 --steps=9 --deques 3 --seed=7| Play k 32 p 2 arena 48 steps 9 deques 3 seed 7 groups 0
peak| Peak k 4096 p 4 arena 1048576 steps 4000000 deques 4096 seed 1 groups 0
peak --steps 10 --k=32| Peak k 32 p 4 arena 1048576 steps 10 deques 4096 seed 1 groups 0
peak --k=32 --steps=10| Peak k 32 p 4 arena 1048576 steps 10 deques 4096 seed 1 groups 0
peak --steps 1| Peak k 4096 p 4 arena 1048576 steps 1 deques 4096 seed 1 groups 0
peak --steps 4000000| Peak k 4096 p 4 arena 1048576 steps 4000000 deques 4096 seed 1 groups 0
peak --k 4096| Peak k 4096 p 4 arena 1048576 steps 4000000 deques 4096 seed 1 groups 0
check| Check k 4096 p 4 arena 1048576 steps 4000000 deques 4096 seed 1 groups 0
make 1| Make k 4096 p 4 arena 1048576 steps 4000000 deques 4096 seed 1 groups 1
make --k 16 0008000 --p=1| Make k 16 p 1 arena 1048576 steps 4000000 deques 4096 seed 1 groups 8000
make 8000 --seed 0| Make k 4096 p 4 arena 1048576 steps 4000000 deques 4096 seed 0 groups 8000
make --p 2 --seed=7 65| Make k 4096 p 2 arena 1048576 steps 4000000 deques 4096 seed 7 groups 65
make --k 16 --p 16 00000000000000000016| Make k 16 p 16 arena 1048576 steps 4000000 deques 4096 seed 1 groups 16
async| Async k 4096 p 4 arena 1048576 steps 4000000 deques 4096 seed 1 groups 0
async --k=16 --p 1 --arena 48 --steps 9 --seed 7| Async k 16 p 1 arena 48 steps 9 deques 4096 seed 7 groups 0
run| Run k 4096 p 4 arena 1048576 steps 4000000 deques 4096 seed 1 groups 0
run --seed 7 --deques=3 --steps 9 --arena=48 --p 2 --k=32| Run k 32 p 2 arena 48 steps 9 deques 3 seed 7 groups 0
loops| Loops k 4096 p 4 arena 1048576 steps 4000000 deques 4096 seed 1 groups 0
loops --k=016 --p 1| Loops k 16 p 1 arena 1048576 steps 4000000 deques 4096 seed 1 groups 0
loops --seed 7 --deques=3 --steps 9 --arena=48 --p 2 --k=32| Loops k 32 p 2 arena 48 steps 9 deques 3 seed 7 groups 0
loops --steps 4000000 --seed=0| Loops k 4096 p 4 arena 1048576 steps 4000000 deques 4096 seed 0 groups 0
expand| Expand k 4096 p 4 arena 1048576 steps 4000000 deques 4096 seed 1 groups 0
";

#[test]
fn commands(rt: HostRuntime) -> Result<(), Fail> {
    for row in COMMANDS.trim().split('\n') {
        let (line, want) = row.split_once("| ").ok_or("no row")?;
        is_command(&rt, rt.alloc(), line, want)?;
    }
    Ok(())
}
