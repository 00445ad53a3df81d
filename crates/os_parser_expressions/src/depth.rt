ghost use Rattle.os_parser_expressions.specs.Deepens.{Deepens};
ghost use Rattle.os_parser_expressions.specs.Deepens.{DeepensStmt};

use crate::production_error::ProductionError;

/// What is left of a depth for the parts that stand one deeper.
#[tactic(auto, using(os_parser_grammar::proofs::Depths::depths))]
pub fn deeper(depth: u32) -> Result<u32, ProductionError>
    ensures expressions { Deepens depth result }
    ensures statements { DeepensStmt depth result }
{
    if depth == 0 {
        return Err(ProductionError::Syntax);
    }
    Ok(depth - 1)
}
