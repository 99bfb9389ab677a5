// The whole table of codes: behind each prefix, and of the first bytes, a sheet of sixteen rows with a letter for each byte.
// A letter stands for length, states and skipped states; `-` is an undefined first byte, `.` an undefined second byte, `*` a prefix.
use isa::{Undefined, decode};
use isa_laws::{defined_codes, is_prefix};
use std::process::Abort;

// Length, states and skipped states.
fn cost(letter: u8) -> (u8, u8, u8) {
    match letter {
        b'a' => (1, 4, 4),
        b'b' => (1, 7, 4),
        b'c' => (1, 10, 4),
        b'd' => (1, 13, 4),
        b'e' => (1, 13, 7),
        b'f' => (1, 16, 4),
        b'g' => (2, 7, 7),
        b'h' => (2, 8, 8),
        b'i' => (2, 10, 7),
        b'j' => (2, 10, 8),
        b'k' => (2, 11, 8),
        b'l' => (2, 13, 7),
        b'm' => (2, 14, 8),
        b'n' => (2, 16, 7),
        b'o' => (2, 17, 8),
        b'p' => (2, 20, 11),
        b'q' => (2, 32, 8),
        b'r' => (2, 59, 8),
        b's' => (3, 10, 10),
        b't' => (3, 11, 11),
        b'u' => (3, 13, 10),
        b'v' => (3, 14, 11),
        b'w' => (3, 16, 10),
        b'x' => (3, 19, 10),
        b'y' => (3, 20, 11),
        b'z' => (4, 17, 14),
        b'A' => (4, 20, 14),
        _ => (0, 0, 0),
    }
}

// An undefined code counts nothing, as its letter says.
fn found(first: u8, second: u8) -> (u8, u8, u8) {
    decode(first, second).map_or((0, 0, 0), |instruction| {
        (
            instruction.length(),
            instruction.states(),
            instruction.skipped(),
        )
    })
}

fn undefined_by(first: u8, second: u8) -> u8 {
    match decode(first, second) {
        Ok(_) => b'+',
        Err(Undefined::First) => b'-',
        Err(Undefined::Second) => b'.',
    }
}

// One code against its letter.
fn agrees(rt: &impl Abort, first: u8, second: u8, letter: u8) {
    assert_eq!(rt; found(first, second), cost(letter));
    assert_eq!(rt; undefined_by(first, second) == b'-', letter == b'-');
    assert_eq!(rt; undefined_by(first, second) == b'.', letter == b'.');
}

// How many codes a row has.
fn codes(row: &str) -> usize {
    row.bytes()
        .filter(|letter| !matches!(*letter, b'-' | b'.' | b'*'))
        .count()
}

// How many codes a sheet has.
fn count(sheet: &[&str; 16]) -> usize {
    sheet
        .iter()
        .fold(0usize, |sum, row| sum.wrapping_add(codes(row)))
}

// A prefix against its sheet; how many codes the sheet has.
fn behind(rt: &impl Abort, first: u8, sheet: &[&str; 16]) -> usize {
    assert!(rt; is_prefix(first));
    for (row, high) in sheet.iter().zip(0..16u8) {
        assert_eq!(rt; row.len(), 16);
        for (letter, low) in row.bytes().zip(0..16u8) {
            agrees(rt, first, byte(high, low), letter);
        }
    }
    count(sheet)
}

// The byte of a row and a column.
fn byte(high: u8, low: u8) -> u8 {
    high.wrapping_mul(16).wrapping_add(low)
}

// A first byte against its letter, whatever byte is behind it.
fn alone(rt: &impl Abort, first: u8, letter: u8) {
    assert!(rt; !is_prefix(first));
    for second in 0..=255u8 {
        agrees(rt, first, second, letter);
    }
}

// The first bytes against their sheet; how many codes of one byte it has.
fn firsts(rt: &impl Abort, sheet: &[&str; 16]) -> usize {
    for (row, high) in sheet.iter().zip(0..16u8) {
        assert_eq!(rt; row.len(), 16);
        for (letter, low) in row.bytes().zip(0..16u8) {
            if letter == b'*' {
                assert!(rt; is_prefix(byte(high, low)));
            } else {
                alone(rt, byte(high, low), letter);
            }
        }
    }
    count(sheet)
}

const FIRST: [&str; 16] = [
    "aibbsx-gaaaaaaaa",
    "aabbsxggaaaaaaaa",
    "nabbsugg-bbbbbbb",
    "ndbbsugg-bbbbbbb",
    "waaasugg*iii**ii",
    "aaaasuggiiiiiiii",
    "*adi*ugggggggggg",
    "*uf-*uggllllllll",
    "ffffffffffffffff",
    "ffffffffffffffff",
    "cccccaaabbaleeel",
    "dddddaaaccaleeel",
    "cccccccccccccccc",
    "cccccccccccccccc",
    "cccccccccccccccc",
    "cccccccccccccccc",
];

const BEHIND_48: [&str; 16] = [
    ".hhh.hhh..hhh...",
    "..........hhh...",
    ".hhh.hhhhohh.qqq",
    ".hhh.hhhoohk.rrr",
    "hhhhhhhhhhh.....",
    "................",
    "hhhhhhhhhhh.....",
    "................",
    "..mmmm.....ypppy",
    "..mmmm.....ypppy",
    "h...h...o.......",
    "h...h...........",
    "................",
    "................",
    "................",
    "................",
];

const BEHIND_4C: [&str; 16] = [
    "................",
    "................",
    "................",
    "................",
    "................",
    "................",
    "................",
    "................",
    "................",
    "................",
    "................",
    "................",
    "jjjj.jjjjj.j.j..",
    ".........j......",
    "jjjj............",
    "................",
];

const BEHIND_4D: [&str; 16] = [
    "................",
    "................",
    "................",
    "................",
    "................",
    "................",
    "................",
    "................",
    "................",
    "................",
    "................",
    "................",
    "jjjj.jjjjjjjjj..",
    "jjjjj..jj.jj....",
    "........j.......",
    "................",
];

const BEHIND_60: [&str; 16] = [
    "........hhhhhhhh",
    "hhhhhhhhhhhhhhhh",
    "hhhhhhhhhhhhhhhh",
    "hhhhhhhhhhhhhhhh",
    "hhhhhhhh........",
    "hhhhhhhh........",
    "hhhhhhhhhhhhhhhh",
    "hhhhhhhhhhhhhhhh",
    "........hhhhhhhh",
    "hhhhhhhhhhhhhhhh",
    "hhhhhhhhhhhhhhhh",
    "hhhhhhhhhhhhhhhh",
    "hhhhhhhhhhhhhhhh",
    "hhhhhhhhhhhhhhhh",
    "hhhhhhhhhhhhhhhh",
    "hhhhhhhhhhhhhhhh",
];

const BEHIND_64: [&str; 16] = [
    "vvvv.vvvyyyy.yyy",
    "yyyy.yyyyyyy.yyy",
    "yyyy.yyyvvvv.vvv",
    "yyyy.yyyvvvv.vvv",
    "yyyy.yyyvvvv.vvv",
    "yyyy.yyyvvvv.vvv",
    "yyyy.yyyvvvv.vvv",
    "yyyy.yyyvvvv.vvv",
    "vv.v.v..yy.y.y..",
    "yy.y.y..yy.y.y..",
    "yy.y.y..vv.v.v..",
    "yy.y.y..vv.v.v..",
    "yy.y.y..vv.v.v..",
    "yy.y.y..vv.v.v..",
    "yy.y.y..vv.v.v..",
    "yy.y.y..vv.v.v..",
];

const BEHIND_70: [&str; 16] = [
    "..............AA",
    "..............AA",
    "..............AA",
    "..............AA",
    ".kkk............",
    "................",
    ".kkk....zzzzzzzz",
    "........zzzzzzzz",
    ".........kkkkkkk",
    ".kkkkkkk.kkkkkkk",
    ".kkkkkkk.kkkkkkk",
    ".kkkkkkk.kkkkkkk",
    ".kkkkkkk.kkkkkkk",
    ".kkkkkkk.kkkkkkk",
    ".kkkkkkk.kkkkkkk",
    ".kkkkkkk.kkkkkkk",
];

const BEHIND_74: [&str; 16] = [
    "........tttttttt",
    "tttttttttttttttt",
    "tttttttttttttttt",
    "tttttttttttttttt",
    "tttttttttttttttt",
    "tttttttttttttttt",
    "tttttttttttttttt",
    "tttttttttttttttt",
    "........v....kkk",
    "v....kkkv....kkk",
    "v....kkkv....kkk",
    "v....kkkv....kkk",
    "v....kkkv....kkk",
    "v....kkkv....kkk",
    "v....kkkv....kkk",
    "v....kkkv....kkk",
];

#[test]
fn first_bytes(rt: HostRuntime) {
    assert_eq!(rt; firsts(&rt, &FIRST), 245);
}

#[test]
fn behind_48(rt: HostRuntime) {
    assert_eq!(rt; behind(&rt, 0x48, &BEHIND_48), 83);
}

#[test]
fn behind_4c(rt: HostRuntime) {
    assert_eq!(rt; behind(&rt, 0x4C, &BEHIND_4C), 16);
}

#[test]
fn behind_4d(rt: HostRuntime) {
    assert_eq!(rt; behind(&rt, 0x4D, &BEHIND_4D), 23);
}

#[test]
fn behind_60(rt: HostRuntime) {
    assert_eq!(rt; behind(&rt, 0x60, &BEHIND_60), 224);
}

#[test]
fn behind_64(rt: HostRuntime) {
    assert_eq!(rt; behind(&rt, 0x64, &BEHIND_64), 176);
}

#[test]
fn behind_70(rt: HostRuntime) {
    assert_eq!(rt; behind(&rt, 0x70, &BEHIND_70), 135);
}

#[test]
fn behind_74(rt: HostRuntime) {
    assert_eq!(rt; behind(&rt, 0x74, &BEHIND_74), 180);
}

#[test]
fn together(rt: HostRuntime) {
    assert_eq!(rt; defined_codes(), 245 + 83 + 16 + 23 + 224 + 176 + 135 + 180);
}
