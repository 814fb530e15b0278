ghost use Rattle.std.specs.Prelude.{◌≡◌, ◌≤◌, ℕ, Bool, OnOk, length};
ghost use Rattle.sql_front.specs.Machine.{State};
ghost use Rattle.sql_front.specs.Reads.{Leads, runs};
ghost use Rattle.sql_front.specs.Spell.{between};
ghost use Rattle.sql_front.specs.Tail.{at_number};
ghost use Rattle.sql_front.specs.Tree as tree;
ghost use Rattle.sql_front.specs.View.{number_tree};

use crate::ParseFault;
use crate::input::Input;
use crate::tree::NumberAt;
use sql_tokens::What;

/// A number from the least to the most.
pub(crate) fn number(input: &mut Input, least: u128, most: u128) -> Result<NumberAt, ParseFault>
    ensures led { (next : tree.NumberAt → State) → Leads (at_number (between least most) next) input.old result (λ n. runs (next (number_tree n))) input.new }
    ensures shorter { OnOk result (length input.new.rest ≤ length input.old.rest) }
{
    let token = input.peek();
    match token.what {
        What::Number(value) if least <= value && value <= most => {
            input.advance();
            Ok(NumberAt {
                value,
                at: token.at,
            })
        }
        _ => Err(input.refuse(None)),
    }
}
