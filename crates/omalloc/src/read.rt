//! The reading of a script's text, line by line.

ghost use Rattle.std.specs.Prelude.{◌≡◌, ◌+◌, ◌*◌, ◌<◌, ◌≤◌, length, Ok, Some, None, IfOk, IfErr, MatchOption, if◌then◌else◌};
ghost use Rattle.std.specs.Option.{option_copied};
ghost use Rattle.om_io.specs.Source.{input_limit};
ghost use Rattle.omalloc.specs.AcceptedInput.{text_lines, fields_of, with_second, second_place, with_line, script_from, script_of, Stops};
ghost use Rattle.omalloc.specs.Script.{IsScript, most_names};
ghost use Rattle.omalloc.specs.declared.read.TextStop.TheVariants.{Memory};

mod lines;

use crate::script::{Script, command_of};
use lines::{Line, line_of, next_line, title_of};
use std::alloc::{AllocError, AllocFailed, Global};

/// Why a text gives no script.
#[derive(Debug, Drop)]
pub enum TextStop {
    /// The first line that is not of the accepted form, from 1 on. Where `end` is missing it is the
    /// one after the last.
    Refused { line: u32 },
    /// No memory was there.
    Memory,
}

impl From<AllocError> for TextStop {
    ghost from_gives = { λ _ e. e ≡ Memory };

    fn from(_e: AllocError) -> TextStop {
        TextStop::Memory
    }
}

impl<T: Drop> From<AllocFailed<T>> for TextStop {
    ghost from_gives = { λ _ e. e ≡ Memory };

    fn from(_e: AllocFailed<T>) -> TextStop {
        TextStop::Memory
    }
}

// The place of a second name, which is added where it is new; that of the first where there is no second. None where
// it is one name too many.
fn second_place(
    alloc: Global,
    script: &mut Script,
    var: u32,
    from: Option<&[u8]>,
) -> Result<Option<u32>, AllocError>
    requires few { length script.old.names ≤ most_names }
    ensures { IfOk result (λ place. MatchOption place
        (most_names < length (with_second script.old.names (option_copied from.entry)))
        (λ at. (at ≡ second_place script.old.names var (option_copied from.entry))
        × (script.new ≡ record script.old {
          names = with_second script.old.names (option_copied from.entry);
        })
        × (length script.new.names ≤ most_names))) }
{
    match from {
        None => Ok(Some(var)),
        Some(name) => script.place(alloc, name),
    }
}

// Adds the command of a line, and says whether it is one and found room. Where it isn't, the script may have a name
// more.
fn add_line(alloc: Global, script: &mut Script, line: &[u8]) -> Result<bool, AllocError>
    ensures { IfOk result (λ found. with_line script.old (fields_of line.now)
        ≡ (if found then Some script.new else None)) }
{
    let Some(
        Line {
            name,
            from,
            request,
        },
    ) = line_of(line)
    else {
        return Ok(false);
    };
    let Some(var) = script.place(alloc, name)? else {
        return Ok(false);
    };
    let Some(from) = second_place(alloc, script, var, from)? else {
        return Ok(false);
    };
    script.push(command_of(var, from, request))
}

/// Goes on with the script at the line with this number.
fn go_on(
    alloc: Global,
    mut script: Script,
    mut rest: &[u8],
    mut number: u32,
) -> Result<Script, TextStop>
    requires { number + length rest.now ≤ 2 * input_limit }
    ensures accepted { IfOk result (λ whole.
        script_from number script (text_lines rest.entry.now) ≡ Ok whole) }
    ensures refused { IfErr result (Stops (script_from number script (text_lines rest.entry.now))) }
{
    while let Some((line, more)) = next_line(rest) {
        if line == b"end".as_slice() {
            return match next_line(more) {
                None => Ok(script),
                Some(_) => Err(TextStop::Refused { line: number + 1 }),
            };
        }
        if !add_line(alloc, &mut script, line)? {
            return Err(TextStop::Refused { line: number });
        }
        rest = more;
        number += 1;
    }
    Err(TextStop::Refused { line: number })
}

#[tactic(auto, unfolding(crate::specs::AcceptedInput::script_of))]
fn read_text(alloc: Global, text: &[u8]) -> Result<Script, TextStop>
    requires { length text.now ≤ input_limit }
    ensures accepted { IfOk result (λ script. script_of text.now ≡ Ok script) }
    ensures refused { IfErr result (Stops (script_of text.now)) }
{
    let Some((line, rest)) = next_line(text) else {
        return Err(TextStop::Refused { line: 1 });
    };
    let Some(name) = title_of(line) else {
        return Err(TextStop::Refused { line: 1 });
    };
    go_on(alloc, Script::new(alloc, name)?, rest, 2)
}

/// The script that a text says.
pub fn read(alloc: Global, text: &[u8]) -> Result<Script, TextStop>
    requires { length text.now ≤ input_limit }
    ensures accepted { IfOk result (λ script. script_of text.now ≡ Ok script) }
    ensures refused { IfErr result (Stops (script_of text.now)) }
    ensures form { IfOk result IsScript }
{
    read_text(alloc, text)
}

#[cfg(test)]
mod tests {
    use super::*;
    use crate::command::Command;
    use om_io::INPUT_LIMIT;
    use std::process::Abort;
    use std::test::Fail;

    // The text is refused at this line.
    fn is_refused(rt: &impl Abort, alloc: Global, text: &[u8], at: u32) {
        assert!(rt; text.len() <= INPUT_LIMIT);
        match read(alloc, text) {
            Err(TextStop::Refused { line }) => assert_eq!(rt; line, at),
            _ => assert!(rt; false, "not refused at line {at}"),
        }
    }

    // A script that frees so many different variables, then has these lines, and ends.
    fn frees(alloc: Global, names: u8, rest: &str) -> Result<Vec<u8>, AllocError> {
        let mut text = b"script a\n".to_vec(alloc)?;
        for i in 0..names {
            text.extend_from_slice(b"free ")?;
            text.push(b'a' + i % 26)?;
            text.push(b'a' + i / 26)?;
            text.push(b'\n')?;
        }
        text.extend_from_slice(rest.as_bytes())?;
        text.extend_from_slice(b"end\n")?;
        Ok(text)
    }

    // A script of so many commands.
    fn mallocs(alloc: Global, commands: u32) -> Result<Vec<u8>, AllocError> {
        let mut text = b"script a\n".to_vec(alloc)?;
        for _ in 0..commands {
            text.extend_from_slice(b"malloc x 16\n")?;
        }
        text.extend_from_slice(b"end\n")?;
        Ok(text)
    }

    #[test]
    fn refuses_at_the_first_bad_line(rt: HostRuntime) -> Result<(), Fail> {
        let names = frees(rt.alloc(), 65, "")?;
        let long = mallocs(rt.alloc(), 200_001)?;
        let cases: [(&[u8], u32); 12] = [
            (b"", 1),
            (b"\n", 1),
            (b"script A\nend\n", 1),
            (b"script a_17_letters_name\nend\n", 1),
            (b"script a b\nend\n", 1),
            (b"script a\n", 2),
            (b"script a\nfree x\nfree x \nend\n", 3),
            (b"script a\nfree x\nend\n\n", 4),
            (b"script a\nfree x\nend\nend", 4),
            (b"script a\nfree x\nend \n", 3),
            (&names, 66),
            (&long, 200_002),
        ];
        for (text, at) in cases {
            is_refused(&rt, rt.alloc(), text, at);
        }
        Ok(())
    }

    // A script of this command is refused at it.
    fn is_no_command(rt: &impl Abort, alloc: Global, command: &str) -> Result<(), Fail> {
        let text = format!(in alloc; "script a\n{command}\nend\n")?;
        is_refused(rt, alloc, text.as_bytes(), 2);
        Ok(())
    }

    #[test]
    fn refuses_other_commands(rt: HostRuntime) -> Result<(), Fail> {
        let commands = [
            "malloc x 18446744073709551616",
            "malloc x 100000000000000000000000000000000000000000",
            "malloc x  1",
            "malloc x 1\r",
            "malloc x 1 2",
            "malloc x 0x10",
            "malloc x 1 @0x1",
            "malloc 1x 1",
            "malloc x ",
            "malloc x",
            "free x 1",
            "load x 18446744073709551616",
            "load x -1",
            "load x ",
            "load x",
            "load x 1 2",
            "load X 1",
            "store x 0 256",
            "store x 18446744073709551616 0",
            "store x 0 ",
            "store x 0",
            "store x 0 1 2",
            "store x  1",
            "calloc x 1",
            "calloc x 1 ",
            "calloc x",
            "calloc x 1 1 1",
            "calloc x 1 1 @0x1",
            "calloc x 0x1 1",
            "calloc x 1 0x1",
            "calloc x 18446744073709551616 1",
            "calloc x 1 18446744073709551616",
            "calloc x y 1",
            "calloc 1 1",
            "realloc x y",
            "realloc x y ",
            "realloc x",
            "realloc x 1",
            "realloc x y 1 1",
            "realloc x y 1 @0x1",
            "realloc x y 0x1",
            "realloc x y 18446744073709551616",
            "realloc x 1y 1",
            "realloc x  1",
            "realloc X y 1",
            "reallocarray x y 1",
            "reallocarray x y 1 ",
            "reallocarray x y",
            "reallocarray x 1 1",
            "reallocarray x y 1 1 1",
            "reallocarray x y 1 1 @0x1",
            "reallocarray x y 0x1 1",
            "reallocarray x y 1 0x1",
            "reallocarray x y 18446744073709551616 1",
            "reallocarray x y 1 18446744073709551616",
            "reallocarray x Y 1 1",
            "aligned_alloc x 16 1",
        ];
        for command in commands {
            is_no_command(&rt, rt.alloc(), command)?;
        }
        Ok(())
    }

    fn is_accepted(
        rt: &impl Abort,
        alloc: Global,
        text: &[u8],
        name: &[u8],
        variables: usize,
        commands: usize,
    ) -> Result<(), Fail> {
        assert!(rt; text.len() <= INPUT_LIMIT);
        let script = read(alloc, text)?;
        assert_eq!(rt; script.name(), name);
        assert_eq!(rt; script.variables(), variables);
        assert_eq!(rt; script.commands().len(), commands);
        Ok(())
    }

    // The names aa to za, ab to zb and ac to lc are 64. Both names of a realloc count, and one that it has twice counts
    // once.
    #[test]
    fn counts_both_names(rt: HostRuntime) -> Result<(), Fail> {
        let accepted = [
            (62, "realloc x y 1\n"),
            (63, "realloc x x 1\n"),
            (63, "realloc x aa 1\n"),
            (63, "reallocarray aa x 1 1\n"),
        ];
        for (names, line) in accepted {
            let text = frees(rt.alloc(), names, line)?;
            is_accepted(&rt, rt.alloc(), &text, b"a", 64, usize::from(names) + 1)?;
        }
        let refused = [
            (63, "realloc x y 1\n"),
            (64, "realloc x x 1\n"),
            (64, "reallocarray aa y 1 1\n"),
        ];
        for (names, line) in refused {
            let text = frees(rt.alloc(), names, line)?;
            is_refused(&rt, rt.alloc(), &text, u32::from(names) + 2);
        }
        Ok(())
    }

    // Leading zeros, a name of 16 letters, no command, no line end after `end`; 64 names and 200,000
    // commands.
    #[test]
    fn accepts_up_to_the_edges(rt: HostRuntime) -> Result<(), Fail> {
        let names = frees(rt.alloc(), 64, "")?;
        let long = mallocs(rt.alloc(), 200_000)?;
        let zeros = b"script a\nmalloc x 00000000000000000000002048\nend\n";
        let longest_name = b"script a_name_of_16_let\nmalloc y 1\nend\n";
        is_accepted(&rt, rt.alloc(), zeros, b"a", 1, 1)?;
        is_accepted(&rt, rt.alloc(), longest_name, b"a_name_of_16_let", 1, 1)?;
        is_accepted(&rt, rt.alloc(), b"script a\nend\n", b"a", 0, 0)?;
        is_accepted(&rt, rt.alloc(), b"script a\nfree x\nend", b"a", 1, 1)?;
        is_accepted(&rt, rt.alloc(), &names, b"a", 64, 64)?;
        is_accepted(&rt, rt.alloc(), &long, b"a", 1, 200_000)
    }

    #[test]
    fn reads_the_commands(rt: HostRuntime) -> Result<(), Fail> {
        let text = b"script a
malloc x 00000000000000000000002049
malloc y 18446744073709551615
load y 00018446744073709551615
store x 007 0255
free x
calloc z 18446744073709551615 0
realloc v w 0010
reallocarray y y 003 18446744073709551615
reallocarray a w 1 2
end";
        let script = read(rt.alloc(), text)?;
        let commands = [
            Command::Malloc {
                var: 0,
                size: 2049,
                site: 0,
            },
            Command::Malloc {
                var: 1,
                size: u64::MAX,
                site: 0,
            },
            Command::Load {
                var: 1,
                off: u64::MAX,
            },
            Command::Store {
                var: 0,
                off: 7,
                byte: 255,
            },
            Command::Free { var: 0 },
            Command::Calloc {
                var: 2,
                count: u64::MAX,
                size: 0,
                site: 0,
            },
            Command::Realloc {
                var: 3,
                from: 4,
                size: 10,
                site: 0,
            },
            Command::Reallocarray {
                var: 1,
                from: 1,
                count: 3,
                size: u64::MAX,
                site: 0,
            },
            Command::Reallocarray {
                var: 5,
                from: 4,
                count: 1,
                size: 2,
                site: 0,
            },
        ];
        assert_eq!(rt; script.commands(), commands.as_slice());
        Ok(())
    }
}
