// Reads calls of the library from standard input and writes what they answer, for the comparison of other builds alone: harness/src/frames.rs has their form.
#![tactic(auto)]

use desk_memory::{NUMBERS, TEXTS};

// Standard input and output.
const STDIN: i32 = 0;

const STDOUT: i32 = 1;

// The bytes of a frame's head: its kind, and four numbers of four bytes of which three count.
const HEAD: usize = 17;

// The most bytes that are lent as a log, as a name or a text, and as the room of a file: a longer array costs the check of main more.
const LONGEST_LOG: usize = 131072;

const LONGEST_NAME: usize = 1024;

const LONGEST_OUT: usize = 81920;

// How many calls there are, or the row of the wall screen, and the lengths of the bytes that are lent.
#[derive(Clone, Copy)]
struct Lengths {
    calls: usize,
    log: usize,
    name: usize,
    out: usize,
}

// The kinds of frames; any other kind is calls on a desk as it is.
const FRESH: u8 = 1;

const WALL: u8 = 2;

// The kinds of calls; any other kind is Who.
const KEY: u8 = 0;

const REPORT: u8 = 1;

// A number of a frame's head, of whose four bytes three count.
fn number(a: u8, b: u8, c: u8) -> usize {
    u32::from_le_bytes([a, b, c, 0]) as usize
}

fn read_wide() -> u64 {
    let mut b = [0u8; 8];
    io::read_full(STDIN, &mut b);
    u64::from_le_bytes(b)
}

fn read_byte() -> u8 {
    let mut b = [0u8; 1];
    io::read_full(STDIN, &mut b);
    b[0]
}

fn put_byte(byte: u8) {
    let one = [byte];
    io::write_all(STDOUT, &one);
}

fn put_wide(n: u64) {
    io::write_all(STDOUT, &n.to_le_bytes());
}

fn read_numbers(numbers: &mut [usize]) {
    for n in numbers.iter_mut() {
        *n = read_wide() as usize;
    }
}

fn put_numbers(numbers: &[usize]) {
    for n in numbers {
        put_wide(*n as u64);
    }
}

fn report(texts: &[u8], numbers: &[usize], sheet: u64, profile: u64) {
    let told = export_desk::desk_report(texts, numbers, sheet, profile);
    put_byte(told.answer);
    for row in &told.rows.rows {
        put_byte(row.level);
        put_byte(row.reason);
    }
}

fn who(texts: &[u8], numbers: &[usize], sheet: u64, item: u64) {
    let told = export_desk::desk_who(texts, numbers, sheet, item);
    put_byte(told.answer);
    put_byte(told.bench);
    put_wide(told.entry as u64);
    put_wide(told.times as u64);
}

// Reads a call, makes it and writes its answer.
fn call(texts: &mut [u8], numbers: &mut [usize], log: &mut [u8]) {
    let kind = read_byte();
    let n = read_wide();
    let byte = read_byte();
    if kind == KEY {
        let answer = export_desk::desk_key(texts, numbers, log, n, byte);
        put_byte(answer);
    } else if kind == REPORT {
        report(texts, numbers, n, byte as u64);
    } else {
        who(texts, numbers, byte as u64, n);
    }
}

fn calls(count: usize, texts: &mut [u8], numbers: &mut [usize], log: &mut [u8]) {
    for _ in 0..count {
        call(texts, numbers, log);
    }
}

// Reads which sheet is meant and writes its file, and all that was lent.
fn file(texts: &[u8], numbers: &[usize], log: &[u8], name: &[u8], out: &mut [u8]) {
    let sheet = read_byte();
    let filed = export_desk::desk_file(texts, numbers, sheet as u64, name, out);
    put_wide(filed.count as u64);
    put_byte(filed.answer);
    io::write_all(STDOUT, out);
    io::write_all(STDOUT, texts);
    put_numbers(numbers);
    io::write_all(STDOUT, log);
}

// Makes the memory a fresh desk where the frame says so.
fn begin(kind: u8, texts: &mut [u8], numbers: &mut [usize]) {
    if kind != FRESH {
        return;
    }
    let answer = export_desk::desk_fresh(texts, numbers);
    put_byte(answer);
}

fn desk(kind: u8, count: usize, log: &mut [u8], name: &[u8], out: &mut [u8]) {
    let mut texts = [0u8; TEXTS];
    let mut numbers = [0usize; NUMBERS];
    io::read_full(STDIN, &mut texts);
    read_numbers(&mut numbers);
    begin(kind, &mut texts, &mut numbers);
    calls(count, &mut texts, &mut numbers, log);
    file(&texts, &numbers, log, name, out);
}

fn wall(text: &[u8], row: u64) {
    let class = export_wall::wall_classify(text);
    let graded = export_wall::wall_grade(row, text);
    let bytes = [class, graded.answer, graded.level];
    io::write_all(STDOUT, &bytes);
}

// Reads what a frame lends, and answers it.
fn frame(kind: u8, count: usize, log: &mut [u8], name: &mut [u8], out: &mut [u8]) {
    io::read_full(STDIN, log);
    io::read_full(STDIN, name);
    io::read_full(STDIN, out);
    if kind == WALL {
        wall(name, count as u64);
    } else {
        desk(kind, count, log, name, out);
    }
}

// The frame with bytes of these lengths; none where a buffer is too short.
fn answer(kind: u8, n: Lengths, log: &mut [u8], name: &mut [u8], out: &mut [u8]) {
    if log.len() < n.log {
        return;
    }
    if name.len() < n.name {
        return;
    }
    if out.len() < n.out {
        return;
    }
    frame(
        kind,
        n.calls,
        &mut log[..n.log],
        &mut name[..n.name],
        &mut out[..n.out],
    );
}

// Reads the head of a frame and answers it; false where no whole head comes.
fn turn(log: &mut [u8], name: &mut [u8], out: &mut [u8]) -> bool {
    let mut head = [0u8; HEAD];
    let n = io::read_full(STDIN, &mut head);
    if n < HEAD {
        return false;
    }
    let lengths = Lengths {
        calls: number(head[1], head[2], head[3]),
        log: number(head[5], head[6], head[7]),
        name: number(head[9], head[10], head[11]),
        out: number(head[13], head[14], head[15]),
    };
    answer(head[0], lengths, log, name, out);
    true
}

// Answers every frame. A proved loop has to end, and nothing says that the input does: so the loop counts its turns, up to a number that no run
// reaches.
fn run(log: &mut [u8], name: &mut [u8], out: &mut [u8]) {
    for _ in 0..u64::MAX {
        if !turn(log, name, out) {
            return;
        }
    }
}

fn main() {
    let mut log = [0u8; LONGEST_LOG];
    let mut name = [0u8; LONGEST_NAME];
    let mut out = [0u8; LONGEST_OUT];
    run(&mut log, &mut name, &mut out);
}
