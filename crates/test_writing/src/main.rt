// Run writing over journals that a check made and in which one row is damaged, case by case: one line for each, what was asked and the result.
// The stored output is what document 01 asks for (numbers 8, 9 and 10, "a row fits if", "Writing a run").
#![tactic(auto)]

use relation::Relation;
use spec_calls::{ABSENT, INITIAL_ALONE, Options, Row};
use spec_file::Refusal;
use std::io;
use test_damaged::write_damaged;
use test_files::{
    HELD, SAMPLE, front, print, print_byte, print_number, print_refused, put, sample,
};

// The budget of each check.
const BUDGET: u64 = 1000000;

// The size of the buffer, and what each of its bytes is before: no step code.
const BUFFER: usize = 65536;

const MARK: u8 = 200;

// What is asked of writing: rows lent and used, the row named, and the bytes of the buffer lent.
#[derive(Clone, Copy)]
struct Asked {
    lent: usize,
    used: usize,
    named: usize,
    room: usize,
}

// ---- rows

// Returns row `place` of the journal after a check of `file` over `lent` rows.
fn row_at(file: &[u8], lent: usize, place: usize) -> Row {
    let mut run = [0u8; 8];
    let options = Options {
        budget: BUDGET,
        starts: INITIAL_ALONE,
    };
    let told = host_check::check_and_write(file, lent, Row::blank(), options, place, &mut run);
    told.sample
}

// Returns a row with an empty effect, of pass 1.
fn entered(head: u64, rule: u64, left: u64, right: u64, len: u64) -> Row {
    Row {
        head,
        rule,
        relation: Relation::empty(),
        left,
        right,
        len,
        birth: 1,
        retired: 0,
    }
}

// The fields of a row, in document 01's order.
#[derive(Clone, Copy)]
enum Field {
    Procedure,
    Rule,
    Effect,
    Left,
    Right,
    Length,
    Birth,
    Retired,
}

fn print_field(rt: &impl Print, field: Field) -> io::Result<()> {
    match field {
        Field::Procedure => print(rt, b"procedure "),
        Field::Rule => print(rt, b"rule "),
        Field::Effect => print(rt, b"effect "),
        Field::Left => print(rt, b"left "),
        Field::Right => print(rt, b"right "),
        Field::Length => print(rt, b"length "),
        Field::Birth => print(rt, b"birth "),
        Field::Retired => print(rt, b"retired "),
    }
}

// Returns the relation of which each word is `x`.
fn effect_of(x: u64) -> Relation {
    let words = [x; relation::WORDS];
    Relation::read(&words, 0)
}

// Returns `row` with `x` in the field `field`; of an effect each word is `x`.
fn with(row: Row, field: Field, x: u64) -> Row {
    match field {
        Field::Procedure => Row { head: x, ..row },
        Field::Rule => Row { rule: x, ..row },
        Field::Effect => Row {
            relation: effect_of(x),
            ..row
        },
        Field::Left => Row { left: x, ..row },
        Field::Right => Row { right: x, ..row },
        Field::Length => Row { len: x, ..row },
        Field::Birth => Row { birth: x, ..row },
        Field::Retired => Row { retired: x, ..row },
    }
}

// ---- one case

// Stores `row` as row `place` of the journal after a check, and writes as `asked`. It lends as many bytes of `buffer` as are asked for, or
// all.
fn written(
    file: &[u8],
    place: usize,
    row: Row,
    asked: Asked,
    buffer: &mut [u8],
) -> Result<usize, Refusal> {
    let lent = asked.room.min(buffer.len());
    write_damaged(
        file,
        asked.lent,
        Options {
            budget: BUDGET,
            starts: INITIAL_ALONE,
        },
        place,
        row,
        asked.used,
        asked.named,
        &mut buffer[..lent],
    )
}

// Counts the bytes of `buffer` that have been written.
fn changed(buffer: &[u8]) -> u64 {
    buffer.iter().filter(|x| **x != MARK).count() as u64
}

// Prints the steps at the front of `buffer`, up to eight.
fn print_front(rt: &impl Print, buffer: &[u8; BUFFER]) -> io::Result<()> {
    for x in buffer.iter().take(8).filter(|x| **x != MARK) {
        print_byte(rt, *x)?;
    }
    Ok(())
}

// Prints the length `n` of a run, and its steps if they are at most eight.
fn print_run(rt: &impl Print, buffer: &[u8; BUFFER], n: usize) -> io::Result<()> {
    print_number(rt, n as u64)?;
    print(rt, b" steps")?;
    if n <= 8 {
        print(rt, b":")?;
        print_front(rt, buffer)?;
    }
    Ok(())
}

fn print_outcome(
    rt: &impl Print,
    writing: Result<usize, Refusal>,
    buffer: &[u8; BUFFER],
) -> io::Result<()> {
    match writing {
        Err(refusal) => print_refused(rt, refusal)?,
        Ok(n) => print_run(rt, buffer, n)?,
    }
    print(rt, b"; ")?;
    print_number(rt, changed(buffer))?;
    print(rt, b" bytes changed\n")
}

// Prints what is asked, and then the result.
fn ask(rt: &impl Print, file: &[u8], place: usize, row: Row, asked: Asked) -> io::Result<()> {
    print(rt, b"row ")?;
    print_number(rt, asked.named as u64)?;
    print(rt, b" of ")?;
    print_number(rt, asked.used as u64)?;
    print(rt, b" used, ")?;
    print_number(rt, asked.lent as u64)?;
    print(rt, b" lent, into ")?;
    print_number(rt, asked.room as u64)?;
    print(rt, b" bytes: ")?;
    let mut buffer = [MARK; BUFFER];
    let writing = written(file, place, row, asked, &mut buffer);
    print_outcome(rt, writing, &buffer)
}

// ---- tables of cases

// Asks of the journal as the check left it: row 0 is stored in its own place.
fn sound(rt: &impl Print, file: &[u8], asked: Asked) -> io::Result<()> {
    ask(rt, file, 0, row_at(file, asked.lent, 0), asked)
}

// Asks each case: rows lent, rows used, the row that is named, bytes of the buffer.
fn sounds(rt: &impl Print, file: &[u8], cases: &[[usize; 4]]) -> io::Result<()> {
    for case in cases {
        sound(rt, file, asked_in(*case))?;
    }
    Ok(())
}

fn asked_in(case: [usize; 4]) -> Asked {
    let [lent, used, named, room] = case;
    Asked {
        lent,
        used,
        named,
        room,
    }
}

// A row's place, its field, what is stored there, and the row that is named.
type Damage = (usize, Field, u64, usize);

// Asks of the journal with one field of one row replaced.
fn damage(
    rt: &impl Print,
    file: &[u8],
    case: Damage,
    lent: usize,
    used: usize,
    room: usize,
) -> io::Result<()> {
    let (place, field, x, named) = case;
    let asked = asked_in([lent, used, named, room]);
    print(rt, b"row ")?;
    print_number(rt, place as u64)?;
    print(rt, b" with ")?;
    print_field(rt, field)?;
    print_number(rt, x)?;
    print(rt, b", ")?;
    ask(
        rt,
        file,
        place,
        with(row_at(file, lent, place), field, x),
        asked,
    )
}

fn damages(
    rt: &impl Print,
    file: &[u8],
    cases: &[Damage],
    lent: usize,
    used: usize,
    room: usize,
) -> io::Result<()> {
    for case in cases {
        damage(rt, file, *case, lent, used, room)?;
    }
    Ok(())
}

// Another row at place 2: procedure, rule, left, right, length, and the row that is named.
fn replace(rt: &impl Print, file: &[u8], case: [u64; 6]) -> io::Result<()> {
    print(rt, b"row 2 as")?;
    let [head, rule, left, right, len, named] = case;
    print_next(rt, head)?;
    print_next(rt, rule)?;
    print_next(rt, left)?;
    print_next(rt, right)?;
    print_next(rt, len)?;
    print(rt, b", ")?;
    let row = entered(head, rule, left, right, len);
    ask(rt, file, 2, row, asked_in([16, 8, named as usize, 8]))
}

fn print_next(rt: &impl Print, x: u64) -> io::Result<()> {
    print(rt, b" ")?;
    print_number(rt, x)
}

fn replaces(rt: &impl Print, file: &[u8], cases: &[[u64; 6]]) -> io::Result<()> {
    for case in cases {
        replace(rt, file, *case)?;
    }
    Ok(())
}

// ---- plan B with sheet S: 7 rows

// Each row, from the journal as the check left it.
fn plan_b_rows(rt: &impl Print, file: &[u8]) -> io::Result<()> {
    print(rt, b"plan B, rows\n")?;
    let cases = [
        [16, 7, 0, 8],
        [16, 7, 1, 8],
        [16, 7, 2, 8],
        [16, 7, 3, 8],
        [16, 7, 4, 8],
        [16, 7, 5, 8],
        [16, 7, 6, 8],
    ];
    sounds(rt, file, &cases)
}

// 8; 9 by the counts; rows past those that the check used, which all are as row 0.
fn plan_b_counts(rt: &impl Print, file: &[u8]) -> io::Result<()> {
    print(rt, b"plan B, counts\n")?;
    let cases = [
        [0, 0, 0, 8],
        [4097, 7, 6, 8],
        [4096, 7, 6, 8],
        [7, 7, 6, 8],
        [7, 8, 6, 8],
        [7, 7, 7, 8],
        [7, 6, 6, 8],
        [7, 6, 5, 8],
        [7, 0, 0, 8],
        [16, 16, 6, 8],
        [16, 17, 6, 8],
        [16, 16, 15, 8],
        [16, usize::MAX, 6, 8],
        [16, usize::MAX, usize::MAX, 8],
    ];
    sounds(rt, file, &cases)
}

// 10: buffers that the run just fills, and shorter ones.
fn plan_b_rooms(rt: &impl Print, file: &[u8]) -> io::Result<()> {
    print(rt, b"plan B, buffers\n")?;
    let cases = [
        [16, 7, 6, 2],
        [16, 7, 6, 1],
        [16, 7, 6, 0],
        [16, 7, 4, 1],
        [16, 7, 4, 0],
        [16, 7, 0, 0],
    ];
    sounds(rt, file, &cases)
}

// Row 6: 0 gives (procedure 1) 3, by row 4.
fn plan_b_last(rt: &impl Print, file: &[u8]) -> io::Result<()> {
    print(rt, b"plan B, row 6 damaged\n")?;
    let cases = [
        (6, Field::Procedure, 1, 6),
        (6, Field::Procedure, 256, 6),
        (6, Field::Rule, 1, 6),
        (6, Field::Rule, 5, 6),
        (6, Field::Rule, 256, 6),
        (6, Field::Rule, u64::MAX, 6),
        (6, Field::Left, 0, 6),
        (6, Field::Left, 3, 6),
        (6, Field::Left, 5, 6),
        (6, Field::Left, 6, 6),
        (6, Field::Left, 7, 6),
        (6, Field::Left, ABSENT, 6),
        (6, Field::Right, 0, 6),
        (6, Field::Right, 65534, 6),
        (6, Field::Right, 65536, 6),
        (6, Field::Length, 1, 6),
        (6, Field::Length, 3, 6),
        (6, Field::Length, ABSENT, 6),
    ];
    damages(rt, file, &cases, 16, 7, 8)
}

// The other bodies. Row 0: 1 gives nothing. Row 2: 2 gives (procedure 1), by row 0. Row 4: 1 gives 1 (procedure 2), by row 2.
fn plan_b_bodies(rt: &impl Print, file: &[u8]) -> io::Result<()> {
    print(rt, b"plan B, other bodies damaged\n")?;
    let cases = [
        (0, Field::Left, 0, 0),
        (0, Field::Right, 0, 0),
        (0, Field::Length, 1, 0),
        (2, Field::Procedure, 1, 2),
        (2, Field::Left, 1, 2),
        (2, Field::Left, 2, 2),
        (2, Field::Left, 4, 2),
        (2, Field::Right, 0, 2),
        (2, Field::Length, 1, 2),
        (4, Field::Left, 0, 4),
        (4, Field::Left, 2, 4),
        (4, Field::Right, 0, 4),
        (4, Field::Right, 3, 4),
        (4, Field::Right, ABSENT, 4),
        (4, Field::Length, 0, 4),
    ];
    damages(rt, file, &cases, 16, 7, 8)
}

// Older rows count, also those to which none points; younger ones, effects and passes do not. 8 comes before 9, and 9 before 10.
fn plan_b_others(rt: &impl Print, file: &[u8]) -> io::Result<()> {
    print(rt, b"plan B, other rows, fields and numbers\n")?;
    let cases = [
        (0, Field::Length, 1, 6),
        (3, Field::Procedure, 1, 6),
        (3, Field::Procedure, 1, 3),
        (3, Field::Procedure, 1, 2),
        (6, Field::Procedure, 1, 5),
        (9, Field::Procedure, 1, 6),
        (16, Field::Procedure, 1, 6),
        (6, Field::Effect, u64::MAX, 6),
        (4, Field::Effect, 0, 6),
        (6, Field::Birth, 0, 6),
        (6, Field::Retired, 1, 6),
        (4, Field::Retired, 1, 6),
    ];
    damages(rt, file, &cases, 16, 7, 8)?;
    damage(rt, file, (6, Field::Right, 0, 6), 16, 7, 0)?;
    damage(rt, file, (6, Field::Length, 3, 6), 16, 7, 2)?;
    damage(rt, file, (6, Field::Right, 0, 6), 0, 7, 0)
}

fn over_plan_b(rt: &impl Print, file: &[u8; HELD]) -> io::Result<()> {
    let whole = front(file, SAMPLE);
    plan_b_rows(rt, whole)?;
    plan_b_counts(rt, whole)?;
    plan_b_rooms(rt, whole)?;
    plan_b_last(rt, whole)?;
    plan_b_bodies(rt, whole)?;
    plan_b_others(rt, whole)
}

fn plan_b(rt: &impl Print) -> io::Result<()> {
    let mut file = [0u8; HELD];
    sample(&mut file);
    over_plan_b(rt, &file)
}

// The first n bytes.
fn sound_front(rt: &impl Print, file: &[u8; HELD], n: usize, case: [usize; 4]) -> io::Result<()> {
    sound(rt, front(file, n), asked_in(case))
}

// Refused files: their own number comes first.
fn refused_files(rt: &impl Print) -> io::Result<()> {
    let mut file = [0u8; HELD];
    sample(&mut file);
    print(rt, b"plan B, refused\n")?;
    sound_front(rt, &file, 71, [0, 7, 6, 0])?;
    put(&mut file, 4, [4, 0, 0, 0, 0, 0, 0, 0]);
    sound_front(rt, &file, SAMPLE, [16, 7, 6, 8])?;
    sound_front(rt, &file, SAMPLE, [0, 7, 7, 0])
}

// ---- rotations: 0 gives nothing, 5, (procedure 0), or (procedure 0) (procedure 0); 5 turns eight stages. The run of row i is i times 5

// Record i of the file, after its four rules.
fn rotation(i: usize) -> [u8; 8] {
    let stage = (i % 8) as u8;
    if i < 8 {
        return [2, stage, 5, ((i + 1) % 8) as u8, 0, 0, 0, 0];
    }
    [3, stage, 0, 0, 0, 0, 0, 0]
}

fn put_rotations(file: &mut [u8; HELD]) {
    put(file, 0, [1, 0, 0, 0, 0, 0, 0, 0]);
    put(file, 1, [1, 0, 1, 5, 0, 0, 0, 0]);
    put(file, 2, [1, 0, 1, 128, 0, 0, 0, 0]);
    put(file, 3, [1, 0, 2, 128, 128, 0, 0, 0]);
    for i in 0..16 {
        put(file, i + 4, rotation(i));
    }
}

// The last row; and rows that fit, or would but for one pointer: to the row itself, to a younger row, to one that is not used.
fn over_rotations(rt: &impl Print, file: &[u8; HELD]) -> io::Result<()> {
    let whole = front(file, 160);
    print(rt, b"rotations, rows\n")?;
    let rows = [[16, 8, 7, 8], [16, 8, 7, 7], [16, 8, 7, 6]];
    sounds(rt, whole, &rows)?;
    print(rt, b"rotations, row 2 replaced\n")?;
    let cases = [
        [0, 2, 1, ABSENT, 1, 2],
        [0, 2, 2, ABSENT, 1, 2],
        [0, 2, 3, ABSENT, 3, 2],
        [0, 2, 15, ABSENT, 1, 2],
        [0, 2, 1, 0, 1, 2],
        [0, 3, 1, 0, 1, 2],
        [0, 3, 2, 0, 2, 2],
        [0, 3, 0, 2, 2, 2],
        [0, 3, 3, 0, 3, 2],
        [0, 3, 0, 3, 3, 2],
        [0, 3, 1, 1, 2, 7],
        [0, 3, 0, 1, 1, 2],
        [0, 3, 0, 1, 1, 3],
        [0, 1, ABSENT, ABSENT, 1, 2],
        [0, 1, 1, ABSENT, 1, 2],
        [0, 1, ABSENT, 1, 1, 2],
        [0, 1, ABSENT, ABSENT, 2, 2],
    ];
    replaces(rt, whole, &cases)
}

fn rotations(rt: &impl Print) -> io::Result<()> {
    let mut file = [0u8; HELD];
    put_rotations(&mut file);
    over_rotations(rt, &file)
}

// ---- long runs: row i is of procedure 31 - i. An odd row has twice the steps of the one before it, an even one one step more than that:
// row 29 has 65,534 steps, row 30 one more, and row 31 131,070, which is capped

// The rule of procedure i.
fn doubling(i: usize) -> [u8; 8] {
    let head = (i % 64) as u8;
    let next = (129 + i % 32) as u8;
    if i == 31 {
        return [1, head, 1, 5, 0, 0, 0, 0];
    }
    if i % 2 == 0 {
        return [1, head, 2, next, next, 0, 0, 0];
    }
    [1, head, 2, next, 5, 0, 0, 0]
}

fn put_doublings(file: &mut [u8; HELD]) {
    for i in 0..32 {
        put(file, i, doubling(i));
    }
}

fn over_doublings(rt: &impl Print, file: &[u8; HELD]) -> io::Result<()> {
    let whole = front(file, 256);
    print(rt, b"long runs\n")?;
    let rows = [
        [64, 32, 4, 8],
        [64, 32, 29, 65534],
        [64, 32, 29, 65533],
        [64, 32, 29, 65536],
        [64, 32, 30, 65536],
        [64, 32, 31, 65536],
    ];
    sounds(rt, whole, &rows)?;
    let cases = [
        (29, Field::Length, 65533, 29),
        (30, Field::Length, 65534, 30),
        (30, Field::Length, 65536, 30),
        (31, Field::Length, 65534, 31),
        (31, Field::Length, 131070, 31),
    ];
    damages(rt, whole, &cases, 64, 32, BUFFER)
}

fn doublings(rt: &impl Print) -> io::Result<()> {
    let mut file = [0u8; HELD];
    put_doublings(&mut file);
    over_doublings(rt, &file)
}

fn main(rt: HostRuntime) -> io::Result<()> {
    plan_b(&rt)?;
    refused_files(&rt)?;
    rotations(&rt)?;
    doublings(&rt)
}
