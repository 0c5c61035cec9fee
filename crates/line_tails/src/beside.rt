ghost use Rattle.std.specs.Prelude.{◌≡◌, ◌++◌, ◌∷◌, ℕ, IfOk, List, map};
ghost use Rattle.std.specs.String.{string_bytes};
ghost use Rattle.line_tails.specs.Beside.{with_tails};

use std::alloc::{AllocError, Global};

// Appends a byte, behind the first of the texts that are left where it ends a line; those that are left then.
fn append_byte<'s>(
    out: &mut Vec<u8>,
    left: &'s [String],
    byte: u8,
) -> Result<&'s [String], AllocError>
    ensures { IfOk result (λ rest. (more : List ℕ)
        → out.new.items ++ with_tails more (map string_bytes rest.now)
        ≡ out.old.items ++ with_tails (byte ∷ more) (map string_bytes left.now)) }
{
    match left {
        [] => {
            out.push(byte)?;
            Ok(left)
        }
        [tail, rest @ ..] => {
            if byte != b'\n' {
                out.push(byte)?;
                return Ok(left);
            }
            out.extend_from_slice(tail.as_bytes())?;
            out.push(byte)?;
            Ok(rest)
        }
    }
}

/// The same lines, with a text before them all, and each with its own before its line feed.
pub fn put_beside(
    alloc: Global,
    head: &str,
    lines: &[u8],
    tails: &[String],
) -> Result<Vec<u8>, AllocError>
    ensures { IfOk result (λ v. v.items
        ≡ head.now ++ with_tails lines.now (map string_bytes tails.now)) }
{
    let mut out = Vec::from_slice(alloc, head.as_bytes())?;
    let mut left = tails;
    for byte in lines {
        left = append_byte(&mut out, left, *byte)?;
    }
    Ok(out)
}
