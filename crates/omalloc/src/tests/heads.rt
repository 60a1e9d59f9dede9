//! The heads of outputs, by the arguments.
use super::gives_output;
use crate::status::Status;
use std::alloc::Global;
use std::process::Abort;
use std::sync::Wait;
use std::test::Fail;
use std::thread::Threads;

fn gives_no_command<R: Abort + Threads + Wait + Sync>(
    rt: &R,
    alloc: Global,
    line: &str,
    head: &str,
    pool: &str,
) -> Result<(), Fail> {
    let output = (head, pool, "finished\n");
    gives_output(rt, alloc, line, "script a\nend\n", Status::Finished, output)
}

// The arguments, then how the output tells their words, and the canary byte that the first word gives.
#[test]
fn arguments_at_the_edges(rt: HostRuntime) -> Result<(), Fail> {
    let cases = [
        ("run", "seed 0", "5e entries 0\n"),
        ("run -o ", "seed 0", "5e entries 0\n"),
        ("run -s 00000000000000000007", "seed 7", "9f entries 0\n"),
        ("run -o  -s 7", "seed 7", "9f entries 0\n"),
        (
            "run -s 18446744073709551615",
            "seed 18446744073709551615",
            "a4 entries 0\n",
        ),
        ("run -w 4294967295", "list 4294967295", "01 entries 0\n"),
        ("run -w 00,1", "list 0,1", "01 entries 0\n"),
        ("run -w 1,2,3,4,5", "list 1,2,3,4,5", "02 entries 0\n"),
    ];
    for (line, words, pool) in cases {
        let head = format!(in rt.alloc();
            "64 pools 1 flags ------- junk 1 cache 64\nwords {words}\n"
        )?;
        gives_no_command(&rt, rt.alloc(), line, head.as_str(), pool)?;
    }
    Ok(())
}

// The arguments, and the zones that they give.
#[test]
fn zones_are_given(rt: HostRuntime) -> Result<(), Fail> {
    let cases = [
        ("run -z 1", 1),
        ("run -z 64", 64),
        ("run -z 00000000000000000002", 2),
        ("run -o  -z 63", 63),
        ("run -o >< -z 32 -s 0", 32),
    ];
    for (line, zones) in cases {
        let head = format!(in rt.alloc();
            "{zones} pools 1 flags ------- junk 1 cache 64\nwords seed 0\n"
        )?;
        gives_no_command(&rt, rt.alloc(), line, head.as_str(), "5e entries 0\n")?;
    }
    Ok(())
}

// The letters, and the flags that they give.
#[test]
fn letters_give_the_flags(rt: HostRuntime) -> Result<(), Fail> {
    let cases = [
        ("C", "C------"),
        ("G", "--G----"),
        ("U", "----U--"),
        ("F", "-F--U--"),
        ("Fu", "-F-----"),
        ("UFC", "CF--U--"),
        ("GU", "--G-U--"),
        ("Gg", "-------"),
        ("Uf", "-------"),
        ("fU", "----U--"),
        ("GUu", "--G----"),
        ("CFGUcf", "--G----"),
        ("cFCf", "C------"),
        ("fcF", "-F--U--"),
        ("FGfU", "--G-U--"),
        ("DFRdr", "-F--U--"),
        ("R", "---R---"),
        ("FR", "-F-RU--"),
        ("CRGr", "C-G----"),
    ];
    for (letters, flags) in cases {
        let line = format!(in rt.alloc(); "run -o {letters} -w 0")?;
        let head = format!(in rt.alloc();
            "64 pools 1 flags {flags} junk 1 cache 64\nwords list 0\n"
        )?;
        gives_no_command(
            &rt,
            rt.alloc(),
            line.as_str(),
            head.as_str(),
            "01 entries 0\n",
        )?;
    }
    Ok(())
}

// S sets junk and the cache too.
#[test]
fn all_checks(rt: HostRuntime) -> Result<(), Fail> {
    let cases = [
        ("S", "CFG-U--"),
        ("Su", "CFG----"),
        ("Sf", "C-G----"),
        ("SfU", "C-G-U--"),
        ("SR", "CFGRU--"),
        ("Scf", "--G----"),
    ];
    for (letters, flags) in cases {
        let line = format!(in rt.alloc(); "run -o {letters} -w 0")?;
        let head = format!(in rt.alloc();
            "64 pools 1 flags {flags} junk 2 cache 0\nwords list 0\n"
        )?;
        gives_no_command(
            &rt,
            rt.alloc(),
            line.as_str(),
            head.as_str(),
            "01 entries 0\n",
        )?;
    }
    Ok(())
}

fn gives_letters<R: Abort + Threads + Wait + Sync>(
    rt: &R,
    alloc: Global,
    letters: &str,
    junk: u32,
    cache: u32,
    warnings: &str,
) -> Result<(), Fail> {
    let line = format!(in alloc; "run -o {letters} -w 0")?;
    let head = format!(in alloc;
        "64 pools 1 flags ------- junk {junk} cache {cache}\nwords list 0\n{warnings}"
    )?;
    gives_no_command(rt, alloc, line.as_str(), head.as_str(), "01 entries 0\n")
}

// The letters, then junk, cache and the lines of warnings.
#[test]
fn letters_give_the_head(rt: HostRuntime) -> Result<(), Fail> {
    let cases = [
        ("", 1, 64, ""),
        ("J", 2, 64, ""),
        ("JJJ", 2, 64, ""),
        ("j", 0, 64, ""),
        ("jjJ", 1, 64, ""),
        ("<", 1, 32, ""),
        ("<<<<<<", 1, 1, ""),
        ("<<<<<<<", 1, 0, ""),
        ("<<<<<<<>", 1, 1, ""),
        (">", 1, 128, ""),
        (">>>>", 1, 256, ""),
        ("+", 1, 64, ""),
        ("cQ--", 1, 64, "warning unknown option 0x51\n"),
        (
            "QQ~",
            1,
            64,
            "warning unknown option 0x51\nwarning unknown option 0x51\nwarning unknown option 0x7e\n",
        ),
        ("Cc", 1, 64, ""),
        ("Uf", 1, 64, ""),
        ("SsJ", 2, 64, ""),
    ];
    for (letters, junk, cache, warnings) in cases {
        gives_letters(&rt, rt.alloc(), letters, junk, cache, warnings)?;
    }
    Ok(())
}
