//! Whether a document refers to what an argument gives.
ghost use Rattle.std.specs.Prelude.{◌≡◌, filter_map};
ghost use Rattle.std.specs.List.{list_any};
ghost use Rattle.cs_value.specs.View.{tree, list_tree};
ghost use Rattle.cs_value.specs.Words.{as_text};
ghost use Rattle.cs_func.specs.Refers.{refers};
ghost use Rattle.cs_meaning.specs.Operators.{targets};
ghost use Rattle.cs_operand.specs.Operands.{operand};

use cs_func::refers;
use cs_operand::Operand;
use cs_value::Val;

fn some_text_refers(items: &Vec<Val>, this: &Val) -> bool
    ensures { result ≡ list_any (λ t. refers t (tree this.now))
        (filter_map as_text (list_tree items.now.items)) }
{
    for item in items {
        if let Val::Text(text) = item {
            if refers(this, text) {
                return true;
            }
        }
    }
    false
}

/// Whether a value refers to a text that the argument gives.
pub(crate) fn refers_to(this: &Val, argument: Operand<'_>) -> bool
    ensures { result
        ≡ list_any (λ t. refers t (tree this.now)) (targets (operand argument.entry)) }
{
    match argument {
        Operand::Text(text) => refers(this, text),
        Operand::List(items) => some_text_refers(items, this),
        _ => false,
    }
}
