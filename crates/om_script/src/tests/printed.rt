//! Scripts as they are read, and their canonical text.

use super::{is_refused, repeated, scripts_of};
use crate::{Command, print};
use std::test::Fail;

const MEETING: &[u8] = b"script a
malloc x 64 @0x2
post 0 x
phase
end
script b
phase
take y 0
free y
end
";

const EACH: &[u8] = b"# one of each
 script each_of_them
malloc v 0x10 # no site
calloc\tw 2 0003 @18
realloc w v 4
reallocarray w x 5 6 @0xAb
free v
load w 7
store w 8 0xff

let y 10
add y z 11
post 63 y
take z 0
phase
end";

#[test]
fn meeting_comes_back(rt: HostRuntime) -> Result<(), Fail> {
    let scripts = scripts_of(&rt, rt.alloc(), MEETING)?;
    assert_eq!(&rt; print(rt.alloc(), &scripts)?.as_slice(), MEETING);
    Ok(())
}

#[test]
fn one_of_each(rt: HostRuntime) -> Result<(), Fail> {
    let scripts = scripts_of(&rt, rt.alloc(), EACH)?;
    let text = "script each_of_them
malloc v 16 @0x0
calloc w 2 3 @0x12
realloc w v 4 @0x0
reallocarray w x 5 6 @0xab
free v
load w 7
store w 8 255
let y 0xa
add y z 11
post 63 y
take z 0
phase
end
";
    let printed = print(rt.alloc(), &scripts)?;
    assert_eq!(&rt; str::from_utf8(&printed)?, text);
    let again = scripts_of(&rt, rt.alloc(), &printed)?;
    assert_eq!(&rt; print(rt.alloc(), &again)?.as_slice(), printed.as_slice());
    Ok(())
}

#[test]
fn parts(rt: HostRuntime) -> Result<(), Fail> {
    let scripts = scripts_of(&rt, rt.alloc(), MEETING)?;
    assert_eq!(&rt; scripts.len(), 2);
    assert!(&rt; !scripts.is_empty());
    let script = scripts.script(1);
    assert_eq!(&rt; script.name(), "b");
    assert_eq!(&rt; script.len(), 3);
    assert!(&rt; !script.is_empty());
    assert_eq!(&rt; script.command(1), Command::Phase);
    assert_eq!(&rt; script.command(2), Command::Take { var: 0, cell: 0 });
    assert_eq!(&rt; script.names(), 1);
    assert_eq!(&rt; script.name_of(0), "y");
    Ok(())
}

// An input of the greatest size in each shape.
#[test]
fn greatest_inputs(rt: HostRuntime) -> Result<(), Fail> {
    let alloc = rt.alloc();
    let size = 16_777_216;
    let lines = repeated(alloc, b"", b"\n", size, b"")?;
    assert!(&rt; scripts_of(&rt, alloc, &lines)?.is_empty());
    let blanks = repeated(alloc, b"", b" ", size, b"")?;
    assert!(&rt; scripts_of(&rt, alloc, &blanks)?.is_empty());
    let comment = repeated(alloc, b"#", b"#", size - 1, b"")?;
    assert!(&rt; scripts_of(&rt, alloc, &comment)?.is_empty());
    let word = repeated(alloc, b"", b"a", size, b"")?;
    is_refused(&rt, alloc, &word, 1, 3);
    let words = repeated(alloc, b"", b"x ", size / 2, b"")?;
    is_refused(&rt, alloc, &words, 1, 3);
    let zeros = repeated(alloc, b"script a\nlet x ", b"0", size - 20, b"\nend\n")?;
    assert_eq!(&rt; scripts_of(&rt, alloc, &zeros)?.len(), 1);
    Ok(())
}
