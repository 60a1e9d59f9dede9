use super::*;
use std::test::Fail;

// The letters of the flags that are on.
fn flags_of(opts: Opts) -> [u8; 7] {
    let letter = |on: bool, letter: u8| if on { letter } else { b'-' };
    [
        letter(opts.canary, b'C'),
        letter(opts.freecheck, b'F'),
        letter(opts.guard, b'G'),
        letter(opts.always_move, b'R'),
        letter(opts.unmap, b'U'),
        letter(opts.xmalloc, b'X'),
        letter(opts.dump, b'D'),
    ]
}

// The letters, then the flags that are on, junk, cache, pools, and the bytes that are warned of.
const ROWS: [(&[u8], &[u8], u8, u32, u32, &[u8]); 36] = [
    (b"", b"-------", 1, 64, 8, b""),
    (b"C", b"C------", 1, 64, 8, b""),
    (b"F", b"-F--U--", 1, 64, 8, b""),
    (b"G", b"--G----", 1, 64, 8, b""),
    (b"R", b"---R---", 1, 64, 8, b""),
    (b"U", b"----U--", 1, 64, 8, b""),
    (b"X", b"-----X-", 1, 64, 8, b""),
    (b"D", b"------D", 1, 64, 8, b""),
    (b"CFGRXDc", b"-FGRUXD", 1, 64, 8, b""),
    (b"CFGRXDf", b"C-GR-XD", 1, 64, 8, b""),
    (b"CFGRXDg", b"CF-RUXD", 1, 64, 8, b""),
    (b"CFGRXDr", b"CFG-UXD", 1, 64, 8, b""),
    (b"CFGRXDu", b"CFGR-XD", 1, 64, 8, b""),
    (b"CFGRXDx", b"CFGRU-D", 1, 64, 8, b""),
    (b"CFGRXDd", b"CFGRUX-", 1, 64, 8, b""),
    (b"Fu", b"-F-----", 1, 64, 8, b""),
    (b"Uf", b"-------", 1, 64, 8, b""),
    (b"S", b"CFG-U--", 2, 0, 8, b""),
    (b"Ss", b"-------", 1, 64, 8, b""),
    (b"sS", b"CFG-U--", 1, 0, 8, b""),
    (b"J", b"-------", 2, 64, 8, b""),
    (b"JJJ", b"-------", 2, 64, 8, b""),
    (b"j", b"-------", 0, 64, 8, b""),
    (b"jj", b"-------", 0, 64, 8, b""),
    (b"jjJ", b"-------", 1, 64, 8, b""),
    (b"<", b"-------", 1, 32, 8, b""),
    (b"<<<<<<<", b"-------", 1, 0, 8, b""),
    (b"<<<<<<<>", b"-------", 1, 1, 8, b""),
    (b">>>>", b"-------", 1, 256, 8, b""),
    (b"+", b"-------", 1, 64, 16, b""),
    (b"+++", b"-------", 1, 64, 32, b""),
    (b"-", b"-------", 1, 64, 4, b""),
    (b"---", b"-------", 1, 64, 2, b""),
    (b"cQ--", b"-------", 1, 64, 2, b"Q"),
    (b"QQ", b"-------", 1, 64, 8, b"QQ"),
    (b"Q\nC~Q", b"C------", 1, 64, 8, b"Q\n~Q"),
];

#[test]
fn strings_of_letters(rt: HostRuntime) -> Result<(), Fail> {
    for (letters, flags, junk, cache, pools, warned) in ROWS {
        let parsed = parse(rt.alloc(), letters)?;
        let opts = parsed.opts();
        assert_eq!(rt; flags_of(opts).as_slice(), flags, "flags of {letters:?}");
        assert_eq!(rt;
            (opts.junk, opts.cache, opts.pools),
            (junk, cache, pools),
            "levels of {letters:?}"
        );
        assert_eq!(rt; parsed.warned(), warned, "warned at {letters:?}");
    }
    Ok(())
}
