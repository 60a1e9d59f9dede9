ghost use Rattle.std.specs.Prelude.{◌≡◌, ◌<◌, ◌++◌, false, decimal, OnOk};
ghost use Rattle.std.specs.Fmt.{digits, digit_glyph};
ghost use Rattle.om_model.specs.Output.Text.{hex, byte_text, site_text};

use itoa::Buffer;
use std::alloc::AllocError;

/// Adds the number in decimal.
pub fn push_decimal(out: &mut Vec<u8>, number: u64) -> Result<(), AllocError>
    ensures { OnOk result (out.new.items ≡ out.old.items ++ decimal number) }
{
    let mut digits = Buffer::new();
    out.extend_from_slice(digits.format(number).as_bytes())
}

/// Adds the number in hexadecimal, behind `0x`.
pub fn push_hex(out: &mut Vec<u8>, number: u64) -> Result<(), AllocError>
    ensures { OnOk result (out.new.items ≡ out.old.items ++ hex number) }
{
    out.extend_from_slice(b"0x")?;
    push_hex_digits(out, number)
}

// The last digit comes behind those of the number without it.
fn push_hex_digits(out: &mut Vec<u8>, number: u64) -> Result<(), AllocError>
    ensures { OnOk result (out.new.items ≡ out.old.items ++ digits 16 false number) }
{
    if number >= 16 {
        push_hex_digits(out, number / 16)?;
    }
    out.push(hex_digit((number % 16) as u8))?;
    Ok(())
}

fn hex_digit(value: u8) -> u8
    requires { value < 16 }
    ensures { result ≡ digit_glyph false value }
{
    if value < 10 {
        b'0' + value
    } else {
        b'a' + (value - 10)
    }
}

/// Adds the byte as two hexadecimal digits.
pub fn push_byte(out: &mut Vec<u8>, byte: u8) -> Result<(), AllocError>
    ensures { OnOk result (out.new.items ≡ out.old.items ++ byte_text byte) }
{
    out.push(hex_digit(byte / 16))?;
    out.push(hex_digit(byte % 16))?;
    Ok(())
}

/// Adds the place in the program, as ` @0x0`.
pub fn push_site(out: &mut Vec<u8>, site: u64) -> Result<(), AllocError>
    ensures { OnOk result (out.new.items ≡ out.old.items ++ site_text site) }
{
    out.extend_from_slice(b" @")?;
    push_hex(out, site)
}
