//! Refused texts.

use super::{is_refused, repeated, scripts_of};
use std::alloc::{AllocError, Global};
use std::process::Abort;
use std::test::Fail;

// The line is refused in a script, by this number.
fn is_bad_line(rt: &impl Abort, alloc: Global, line: &str, number: u32) -> Result<(), Fail> {
    let text = format!(in alloc; "script a\n{line}\nend\n")?;
    is_refused(rt, alloc, text.as_bytes(), 2, number);
    Ok(())
}

// The line is accepted in a script.
fn is_good_line(rt: &impl Abort, alloc: Global, line: &str) -> Result<(), Fail> {
    let text = format!(in alloc; "script a\n{line}\nend\n")?;
    let scripts = scripts_of(rt, alloc, text.as_bytes())?;
    assert_eq!(rt; scripts.len(), 1);
    Ok(())
}

#[test]
fn lines(rt: HostRuntime) -> Result<(), Fail> {
    let bad = [
        ("free x # \u{7f}", 1),
        ("# \u{e9}", 1),
        ("free x\u{b}", 1),
        ("script b", 2),
        ("end x", 2),
        ("free", 2),
        ("free x y", 2),
        ("free X", 2),
        ("free _x", 2),
        ("free 1x", 2),
        ("free a2345678901234567", 2),
        ("malloc x", 2),
        ("malloc x y", 2),
        ("malloc x 1 2", 2),
        ("malloc x 1 @", 2),
        ("malloc x 1 @ 1", 2),
        ("malloc x 1 @0x", 2),
        ("malloc x 1 @1 2", 2),
        ("malloc x 0x", 2),
        ("malloc x 0X1", 2),
        ("malloc x 0xg", 2),
        ("malloc x -1", 2),
        ("malloc x 1_0", 2),
        ("calloc x 1", 2),
        ("realloc x 1", 2),
        ("realloc x y 1 1", 2),
        ("reallocarray x y 1", 2),
        ("load x", 2),
        ("load x 1 @1", 2),
        ("store x 1", 2),
        ("let x", 2),
        ("add x y", 2),
        ("add x 1 y", 2),
        ("post x 0", 2),
        ("take 0 x", 2),
        ("phase 1", 2),
        ("aligned_alloc x 16 1", 3),
        ("malloc: x 1", 3),
        ("x", 3),
        ("malloc x 18446744073709551616", 4),
        ("malloc x 0x10000000000000000", 4),
        ("malloc x 1 @18446744073709551616", 4),
        ("calloc x 1 18446744073709551616", 4),
        ("store x 0 256", 4),
        ("store x 0 0x100", 4),
        ("post 18446744073709551616 x", 4),
        ("post 64 x", 9),
        ("take x 64", 9),
        ("take x 0xffffffffffffffff", 9),
    ];
    for (line, number) in bad {
        is_bad_line(&rt, rt.alloc(), line, number)?;
    }
    Ok(())
}

#[test]
fn good_lines(rt: HostRuntime) -> Result<(), Fail> {
    let good = [
        "",
        " \t\r",
        "#",
        "free x#y",
        "\t free\tx\r",
        "free a234567890123456",
        "malloc x 18446744073709551615",
        "malloc x 0000000000000000000000000000001",
        "malloc x 0xFfFfFfFfFfFfFfFf @0x00000000000000000",
        "store x 0 255",
        "post 63 x",
        "take x 0x3f # ~",
        "phase",
    ];
    for line in good {
        is_good_line(&rt, rt.alloc(), line)?;
    }
    Ok(())
}

// Of two refusals on one line the least is named, of two refused lines the first.
#[test]
fn two_refusals(rt: HostRuntime) -> Result<(), Fail> {
    let cases: [(&[u8], u32, u32); 10] = [
        (b"script a\nend x \x7f\nend\n", 2, 1),
        (b"script a\nscript 18446744073709551616\nend\n", 2, 2),
        (b"script a\nstore x 256 0 256\nend\n", 2, 2),
        (
            b"script a\nstore x 18446744073709551616 256\nwhat\nend\n",
            2,
            4,
        ),
        (b"script a\nwhat\nstore x 0 256\nend\n", 2, 3),
        (b"script a\nwhat\nscript b\n", 2, 3),
        (b"script a\nend\nfree x\nscript a\n", 3, 2),
        (b"script a\nend\nscript a\nfree x\n", 3, 8),
        (b"what", 1, 3),
        (b"script a\nend\nend", 3, 2),
    ];
    for (text, line, number) in cases {
        is_refused(&rt, rt.alloc(), text, line, number);
    }
    Ok(())
}

#[test]
fn unended(rt: HostRuntime) -> Result<(), Fail> {
    let cases: [(&[u8], u32); 4] = [
        (b"script a\nmalloc x 1\n", 1),
        (b"script a", 1),
        (b"\nscript a\nend\n\nscript b\nphase\n\n", 5),
        (b"script a\nend#\n  script b # end", 3),
    ];
    for (text, line) in cases {
        is_refused(&rt, rt.alloc(), text, line, 10);
    }
    Ok(())
}

// Scripts s0, s1 and so on, of their first and last line.
fn empty_scripts(alloc: Global, count: u32) -> Result<Vec<u8>, AllocError> {
    let mut text = Vec::new(alloc);
    for t in 0..count {
        let script = format!(in alloc; "script s{t}\nend\n")?;
        text.extend_from_slice(script.as_bytes())?;
    }
    Ok(text)
}

// A script that uses so many variables, and then has these lines.
fn named(alloc: Global, names: u32, lines: &str) -> Result<Vec<u8>, AllocError> {
    let mut text = b"script a\n".to_vec(alloc)?;
    for i in 0..names {
        let line = format!(in alloc; "let v{i} 0\n")?;
        text.extend_from_slice(line.as_bytes())?;
    }
    text.extend_from_slice(lines.as_bytes())?;
    Ok(text)
}

#[test]
fn limits(rt: HostRuntime) -> Result<(), Fail> {
    let alloc = rt.alloc();
    is_refused(&rt, alloc, &empty_scripts(alloc, 17)?, 33, 5);
    assert_eq!(&rt;
        scripts_of(&rt, alloc, &empty_scripts(alloc, 16)?)?.len(),
        16
    );
    let long = repeated(alloc, b"script a\n", b"let v 0\n", 200_001, b"end\n")?;
    is_refused(&rt, alloc, &long, 200_002, 6);
    let most = repeated(alloc, b"script a\n", b"let v 0\n", 200_000, b"end\n")?;
    assert_eq!(&rt; scripts_of(&rt, alloc, &most)?.len(), 1);
    is_refused(&rt, alloc, &named(alloc, 65, "end\n")?, 66, 7);
    is_refused(
        &rt,
        alloc,
        &named(alloc, 63, "realloc x y 1\nend\n")?,
        65,
        7,
    );
    is_refused(&rt, alloc, &named(alloc, 64, "post 64 x\nend\n")?, 66, 7);
    is_refused(&rt, alloc, &named(alloc, 64, "post 64 v0\nend\n")?, 66, 9);
    let both = named(alloc, 64, "free v63\nend\nscript b\nfree x\nend\n")?;
    assert_eq!(&rt; scripts_of(&rt, alloc, &both)?.len(), 2);
    Ok(())
}
