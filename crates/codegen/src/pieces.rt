ghost use Rattle.std.specs.Prelude.{◌≡◌, IfOk, IfErr, map};
ghost use Rattle.program.specs.Names.{said_by};
ghost use Rattle.program.specs.Trees.{as_version};
ghost use Rattle.lowering.specs.Layout.{layout_of};
ghost use Rattle.codegen.specs.Generated.{piece_of, unlinked_pieces, RefusesPieces};

use crate::code_piece::CodePiece;
use crate::piece::procedure_code;
use crate::room::with_piece;
use layout::Layout;
use program::Checked;
use scanner::Refusal;
use std::alloc::Global;

/// The pieces of a program, one for each procedure, by rising number, for an image of the layout's version. Their places
/// count from their own beginning, and calls name pieces by their numbers.
///
/// Code of more instructions than an image may have is `Limit` at 1:1.
pub fn generate(
    alloc: Global,
    checked: &Checked,
    layout: &Layout,
) -> Result<Vec<CodePiece>, Refusal>
    requires { layout.now ≡ layout_of (as_version layout.now.version (said_by checked.now)) }
    ensures made { IfOk result (λ pieces. map piece_of pieces.items
        ≡ unlinked_pieces (as_version layout.now.version (said_by checked.now))) }
    ensures refusal { IfErr result
        (λ e. RefusesPieces (as_version layout.now.version (said_by checked.now)) e) }
{
    let program = checked.program();
    let mut pieces = Vec::new(alloc);
    let mut number = 0;
    let mut total = 0;
    for procedure in &program.procedures {
        let code = procedure_code(alloc, procedure, program, layout)?;
        total = with_piece(total, &code)?;
        pieces.push(CodePiece { number, code })?;
        number += 1;
    }
    Ok(pieces)
}
