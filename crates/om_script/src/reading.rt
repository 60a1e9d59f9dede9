//! The reading of a text, line by line.

ghost use Rattle.std.specs.Prelude.{◌≡◌, ◌+◌, ◌<◌, ◌^◌, length, Ok, IfOk, IfErr};
ghost use Rattle.om_script.specs.Scripts.{scripts_in};
ghost use Rattle.om_script.specs.Steps.{Stops};

use crate::line::next_line;
use crate::reader::{Reader, UNENDED};
use crate::script::{ScriptStop, Scripts};
use std::alloc::Global;

/// The scripts that a text says.
pub fn read(alloc: Global, text: &[u8]) -> Result<Scripts, ScriptStop>
    requires { length text.now + 1 < 2 ^ 32 }
    ensures accepted { IfOk result (λ scripts. scripts_in text.now ≡ Ok scripts) }
    ensures refused { IfErr result (Stops (scripts_in text.now)) }
{
    let mut reader = Reader::new(alloc);
    let mut rest = text;
    let mut number = 1;
    while let Some((line, more)) = next_line(rest) {
        if let Some(refusal) = reader.read_line(alloc, number, line)? {
            return Err(ScriptStop::Refused {
                line: number,
                number: refusal,
            });
        }
        rest = more;
        number += 1;
    }
    match reader.finish() {
        Ok(scripts) => Ok(scripts),
        Err(line) => Err(ScriptStop::Refused {
            line,
            number: UNENDED,
        }),
    }
}
