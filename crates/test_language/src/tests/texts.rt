use crate::tests::support::{assembled, canonical};
use client_code::Fault;
use std::alloc::{AllocError, Global};
use std::test::Fail;
use support_data::INCREMENT;

/// Whether this is the canonical text of a text.
fn is_canonical(alloc: Global, text: &str, wanted: &str) -> bool {
    match canonical(alloc, text.as_bytes()) {
        Ok(found) => found.as_slice() == wanted.as_bytes(),
        Err(_) => false,
    }
}

/// Whether this is the first wrong line of a text.
fn is_wrong(alloc: Global, text: &str, line: u32) -> bool {
    match assembled(alloc, text.as_bytes()) {
        Err(Fault::BadLine(found)) => found == line,
        _ => false,
    }
}

/// The same for a text that begins with these lines.
fn is_wrong_after(alloc: Global, front: &str, row: &(&str, u32)) -> Result<bool, AllocError> {
    let (lines, line) = *row;
    let text = format!(in alloc; "{front}\n{lines}")?;
    Ok(is_wrong(alloc, text.as_str(), line))
}

static CANONICAL: [(&str, &str); 31] = [
    ("", ""),
    (INCREMENT, INCREMENT),
    ("\n\n", ""),
    ("type i64", "type i64\n"),
    ("  type   vec   t1  \ntype i64", "type vec t1\ntype i64\n"),
    ("; a comment\n\n   \ntype i64\n;\n", "type i64\n"),
    (
        "type i64\ntype struct t0 t0 t0 t0 t0 t0 t0 t0",
        "type i64\ntype struct t0 t0 t0 t0 t0 t0 t0 t0\n",
    ),
    (
        "type own t0\ntype flat_map t2\ntype map t3\ntype list t0",
        "type own t0\ntype flat_map t2\ntype map t3\ntype list t0\n",
    ),
    ("type  i64\n type shared  t0", "type i64\ntype shared t0\n"),
    ("type shared t1\ntype str", "type shared t1\ntype str\n"),
    ("text a\\62c", "text abc\n"),
    ("text ", "text \n"),
    ("text  x ", "text  x \n"),
    ("text \\5c\\0a\\ff\\00;\\7f", "text \\5c\\0a\\ff\\00;\\7f\n"),
    ("text \\20\\7e", "text  ~\n"),
    ("text x\ntext x", "text x\ntext x\n"),
    ("name ;text\nfamily ;text", "name ;text\nfamily ;text\n"),
    ("name !\"$~\n", "name !\"$~\n"),
    (
        "name aaaaaaaaaabbbbbbbbbbccccccccccddddddddddeeeeeeeeeeffffffffffggg",
        "name aaaaaaaaaabbbbbbbbbbccccccccccddddddddddeeeeeeeeeeffffffffffggg\n",
    ),
    (
        "family aaaaaaaaaabbbbbbbbbbccccccccccddddddddddee",
        "family aaaaaaaaaabbbbbbbbbbccccccccccddddddddddee\n",
    ),
    ("CONST r0 2147483647", "CONST r0 2147483647\n"),
    ("CONST r15 -2147483648", "CONST r15 -2147483648\n"),
    ("CONST r10 0\nCONST r9 -1", "CONST r10 0\nCONST r9 -1\n"),
    ("   CONST  r0   1  \n", "CONST r0 1\n"),
    ("WHILE r0 1000000000\nEND", "WHILE r0 1000000000\nEND\n"),
    (
        "IF r0\nELSE\n IF r1 \n ELSE \n END \nEND",
        "IF r0\nELSE\nIF r1\nELSE\nEND\nEND\n",
    ),
    (
        "WHILE r0 1\nWHILE r0 1\nWHILE r0 1\nWHILE r0 1\nWHILE r0 1\nWHILE r0 1\nWHILE r0 1\nIF r0\nELSE\nEND\nEND\nEND\nEND\nEND\nEND\nEND\nEND",
        "WHILE r0 1\nWHILE r0 1\nWHILE r0 1\nWHILE r0 1\nWHILE r0 1\nWHILE r0 1\nWHILE r0 1\nIF r0\nELSE\nEND\nEND\nEND\nEND\nEND\nEND\nEND\nEND\n",
    ),
    (
        "type i64\nfamily p\nMAKE r0 r1 - t0 k0\nELSE\nEND",
        "type i64\nfamily p\nMAKE r0 r1 - t0 k0\nELSE\nEND\n",
    ),
    (
        "type i64\nname p\nMAKE r0 - r1 t0 k0\nELSE\nEND",
        "type i64\nname p\nMAKE r0 - r1 t0 k0\nELSE\nEND\n",
    ),
    (
        "type i64\ntype shared t0\nFREEZE r5 r0 r2\nELSE\nEND\nSHARE r1 r0",
        "type i64\ntype shared t0\nFREEZE r5 r0 r2\nELSE\nEND\nSHARE r1 r0\n",
    ),
    (
        "type shared t1\ntype str\n  SHARE   r0  r0 \n FREEZE  r15 r14   r13\n ELSE \n END",
        "type shared t1\ntype str\nSHARE r0 r0\nFREEZE r15 r14 r13\nELSE\nEND\n",
    ),
];

#[test]
fn canonical_texts(rt: HostRuntime) {
    for (text, wanted) in &CANONICAL {
        assert!(rt; is_canonical(rt.alloc(), text, wanted), "{wanted}");
    }
}

static WRONG: [(&str, u32); 92] = [
    // words and numbers
    ("ADD r1 r16 r2", 1),
    ("CONST r0 -0", 1),
    ("CONST r0 00", 1),
    ("CONST r0 01", 1),
    ("CONST r0 -01", 1),
    ("CONST r00 1", 1),
    ("CONST r01 1", 1),
    ("CONST r0 +1", 1),
    ("CONST r0 2147483648", 1),
    ("CONST r0 -2147483649", 1),
    ("CONST r0 99999999999", 1),
    ("CONST r0 - 1", 1),
    ("CONST r0 -", 1),
    ("CONST r0 1a", 1),
    ("CONST r0", 1),
    ("CONST r0 1 2", 1),
    ("CONST R0 1", 1),
    ("CONST r 1", 1),
    ("CONST - 1", 1),
    ("CONST 0 1", 1),
    ("const r0 1", 1),
    ("CONST r0 1\t", 1),
    ("CONST r0 1\r\n", 1),
    ("CONST r0 1 ; one", 1),
    ("CONST r256 1", 1),
    ("NOP", 1),
    (" ; no comment", 1),
    ("\t", 1),
    ("IF r0 r0\nELSE\nEND", 1),
    // texts and names
    ("text", 1),
    (" text x", 1),
    ("text a\\", 1),
    ("text a\\5", 1),
    ("text \\5C", 1),
    ("text \\g0", 1),
    ("text \\0g", 1),
    ("text \x7f", 1),
    ("text \x1f", 1),
    ("text é", 1),
    ("name", 1),
    ("name a b", 1),
    ("name a#b", 1),
    ("name \x7f", 1),
    (
        "name aaaaaaaaaabbbbbbbbbbccccccccccddddddddddeeeeeeeeeeffffffffffgggg",
        1,
    ),
    ("family", 1),
    ("family #", 1),
    ("family aaaaaaaaaabbbbbbbbbbccccccccccddddddddddeee", 1),
    ("name x\ntext x\nfamily x\nname x", 4),
    ("family x\nfamily y\nfamily x", 3),
    // types
    ("type", 1),
    ("type i65", 1),
    ("type i64 t0", 1),
    ("type vec", 1),
    ("type vec t0 t0", 1),
    ("type vec t1", 1),
    ("type vec t1\nname x\ntype i64", 1),
    ("type vec t1\ntype bad", 2),
    ("type vec t2\ntype bad", 1),
    ("type i64\ntype vec t00", 2),
    ("type i64\ntype vec t256", 2),
    ("type shared", 1),
    ("type shared t1", 1),
    ("type i64\ntype shared t0 t0", 2),
    ("type i64\ntype shared t2\nname x", 2),
    // the types determine the version, so another line is wrong
    ("type i64\ntype shared t0\nname a#b", 3),
    ("type struct", 1),
    ("type struct t0", 1),
    ("type struct t1\ntype i64", 1),
    ("type i64\ntype struct t0 t0 t0 t0 t0 t0 t0 t0 t0", 2),
    (
        "type i64\ntype struct t0 t0 t0 t0 t0 t0 t0 t0\ntype struct t1 t1 t1 t1 t1 t1 t1 t1\ntype struct t2 t2 t2 t2 t2 t2 t2 t2\ntype struct t3 t0",
        5,
    ),
    // sections
    ("type i64\nname x\ntype str", 3),
    ("type i64\n\nCONST r0 1\n; x\nname x", 5),
    ("CONST r0 1\ntype i64", 2),
    // parts
    ("ELSE", 1),
    ("END", 1),
    ("WHILE r0 1\nELSE\nEND", 2),
    ("IF r0\nEND", 2),
    ("IF r0\nELSE\nELSE\nEND", 3),
    ("WHILE r0 1\nEND\nEND", 3),
    ("WHILE r0 0\nEND", 1),
    ("WHILE r0 -1\nEND", 1),
    ("WHILE r0 1000000001\nEND", 1),
    ("IF r0", 2),
    ("IF r0\n", 2),
    ("IF r0\nELSE\n\n; x\n", 5),
    ("WHILE r0 1\nCONST r0 1", 3),
    (
        "WHILE r0 1\nWHILE r0 1\nWHILE r0 1\nWHILE r0 1\nWHILE r0 1\nWHILE r0 1\nWHILE r0 1\nWHILE r0 1\nWHILE r0 1",
        9,
    ),
    (
        "WHILE r0 1\nWHILE r0 1\nWHILE r0 1\nWHILE r0 1\nWHILE r0 1\nWHILE r0 1\nWHILE r0 1\nWHILE r0 1\nIF r0",
        9,
    ),
    // operations of version 2 in a file of version 1
    ("FREEZE r5 r0 r2\nELSE\nEND", 1),
    ("SHARE r1 r0", 1),
    ("type i64\nCONST r0 1\nFREEZE r5 r0 r2\nELSE\nEND", 3),
    (
        "type i64\ntype own t0\n\nPUT r1 r0\n; x\nSHARE r1 r0\nSHARE r1 r16",
        6,
    ),
];

#[test]
fn wrong_texts(rt: HostRuntime) {
    for (text, line) in &WRONG {
        assert!(rt; is_wrong(rt.alloc(), text, *line), "{text:?}");
    }
}

// Lines after `type i64`, `text hi`, `name n`, `family f`. The first of them is line 5.
static WRONG_AFTER_FRONT: [(&str, u32); 20] = [
    ("FIND r0 - - t0 k2\nELSE\nEND", 5),
    ("FIND r0 r1 - t0 k1\nELSE\nEND", 5),
    ("FIND r0 - - t0 k0\nELSE\nEND", 5),
    ("FIND r0 r1 - t0 k0\nELSE\nEND", 5),
    ("FIND r0 - - t1 k1\nELSE\nEND", 5),
    ("FIND r0 - - t0 k3\nELSE\nEND", 5),
    ("FIND r0 - - t00 k1\nELSE\nEND", 5),
    ("FIND r0 - - t0 k01\nELSE\nEND", 5),
    ("FIND r0 - - t0\nELSE\nEND", 5),
    ("FIND r0 - - k1 t0\nELSE\nEND", 5),
    ("FIND - - - t0 k1\nELSE\nEND", 5),
    ("FIND r0 - - t0 k1\nELSE\nKILL r0 - - t0 k1\nEND", 7),
    ("KILL r0 - t0 k1\nKILL r0 r16 t0 k1", 6),
    ("OUTC k0\nOUTC k1", 6),
    ("OUTC k0\nOUTC k2", 6),
    ("OUTC k0\nOUTC k3", 6),
    ("NEW r0 t0\nELSE\nEND\nNEW r0 t1\nELSE\nEND", 8),
    ("SETS r0 r1 k0\nELSE\nEND\nSETS r0 r1 k1\nELSE\nEND", 8),
    ("FIELD r0 r1 0\nFIELD r0 r1 t0", 6),
    ("PUT r0 r1\nPUT r0 -", 6),
];

#[test]
fn wrong_operands(rt: HostRuntime) -> Result<(), Fail> {
    for row in &WRONG_AFTER_FRONT {
        let is_so = is_wrong_after(rt.alloc(), "type i64\ntext hi\nname n\nfamily f", row)?;
        assert!(rt; is_so, "{row:?}");
    }
    Ok(())
}

// Lines after `type i64`, `type shared t0`. The first of them is line 3.
static WRONG_TO_SHARE: [(&str, u32); 14] = [
    ("FREEZE r5 r0\nELSE\nEND", 3),
    ("FREEZE r5 r0 -\nELSE\nEND", 3),
    ("FREEZE r5 - r2\nELSE\nEND", 3),
    ("FREEZE - r0 r2\nELSE\nEND", 3),
    ("FREEZE r5 r0 r16\nELSE\nEND", 3),
    ("FREEZE r5 r0 r2 r3\nELSE\nEND", 3),
    ("FREEZE r5 r0 r2 t1\nELSE\nEND", 3),
    ("FREEZE r5 r0 r2\nSHARE r1 r0\nEND", 5),
    ("FREEZE r5 r0 r2\nELSE", 5),
    ("SHARE r1", 3),
    ("SHARE r1 -", 3),
    ("SHARE r16 r0", 3),
    ("SHARE r1 r0\nSHARE r1 r0 r2", 4),
    ("SHARE r1 r0\nELSE\nEND", 4),
];

#[test]
fn wrong_lines_that_share(rt: HostRuntime) -> Result<(), Fail> {
    for row in &WRONG_TO_SHARE {
        let is_so = is_wrong_after(rt.alloc(), "type i64\ntype shared t0", row)?;
        assert!(rt; is_so, "{row:?}");
    }
    Ok(())
}

/// A text of `count` lines. Each line has a number from 0 on between two strings.
fn lines(alloc: Global, count: u32, front: &str, back: &str) -> Result<String, AllocError> {
    let mut text = String::new(alloc);
    for i in 0..count {
        write!(text, "{front}{i}{back}\n")?;
    }
    Ok(text)
}

/// Whether the most lines of a kind are valid, and one more is reported as wrong.
fn is_limit(alloc: Global, most: u32, front: &str, back: &str) -> Result<bool, AllocError> {
    let right = lines(alloc, most, front, back)?;
    let wrong = lines(alloc, most.saturating_add(1), front, back)?;
    Ok(
        is_canonical(alloc, right.as_str(), right.as_str())
            && is_wrong(alloc, wrong.as_str(), most.saturating_add(1)),
    )
}

// How many lines there may be, and what is before and after the number in each.
static LIMITS: [(u32, &str, &str); 4] = [
    (32, "type vec t", ""),
    (256, "name n", "x"),
    (256, "text ", ""),
    (4096, "CONST r0 ", ""),
];

#[test]
fn limits(rt: HostRuntime) -> Result<(), Fail> {
    for (most, front, back) in &LIMITS {
        assert!(rt; is_limit(rt.alloc(), *most, front, back)?, "{front}");
    }
    Ok(())
}

/// A line with a text of this many line ends.
fn text_of(alloc: Global, count: u32) -> Result<String, AllocError> {
    let mut text = String::from_str(alloc, "text ")?;
    for _ in 0..count {
        text.push_str("\\0a")?;
    }
    text.push_str("\n")?;
    Ok(text)
}

#[test]
fn the_longest_text(rt: HostRuntime) -> Result<(), Fail> {
    let longest = text_of(rt.alloc(), 255)?;
    let longer = text_of(rt.alloc(), 256)?;
    assert!(rt;
        is_canonical(rt.alloc(), longest.as_str(), longest.as_str())
            && is_wrong(rt.alloc(), longer.as_str(), 1)
    );
    Ok(())
}
