ghost use Rattle.std.specs.Prelude.{◌≡◌, ◌≤◌, ℕ, OnOk, false, length};
ghost use Rattle.sql_front.specs.Machine.{OptK, first_opt_k, want_opt, add_opt, follow_opts, option_word, sized_word, used_word, more_limited, more_optioned, method_of};
ghost use Rattle.sql_front.specs.Reads.{Leads, runs, runs_on};
ghost use Rattle.sql_front.specs.Spell.{between, fits_setting};
ghost use Rattle.sql_front.specs.Tail.{runs_past};
ghost use Rattle.sql_front.specs.Tree.{Limited};
ghost use Rattle.sql_front.specs.View.{opt_tree, options_tree};
ghost use Rattle.sql_tokens.specs.Tokens.{is_last};

use crate::ParseFault;
use crate::input::Input;
use crate::lists::{MOST_KEPT, list_here};
use crate::numbers::number;
use crate::tree::QueryOption;
use crate::words::{Method, Setting, Unreserved, word_ahead};
use sql_tokens::{Keyword, What};
use sqlite_items::Items;
use std::alloc::Global;

/// The fewest bytes of an option with its comma or `)`, as `SORT 2,`.
const LEAST_OPTION: usize = 7;

/// OPTION and its options, if it stands there.
pub(crate) fn options_part(
    alloc: Global,
    input: &mut Input,
) -> Result<Items<QueryOption>, ParseFault>
    ensures led { (l : Limited) → Leads (runs_on (more_limited l)) input.old result (λ options. runs_on (more_optioned (options_tree l options))) input.new }
{
    match input.peek().what {
        What::Word(Keyword::Option) => {
            input.advance();
            open(input)?;
            options(alloc, input)
        }
        _ => Ok(Items::new(alloc)),
    }
}

/// The `(` behind OPTION.
fn open(input: &mut Input) -> Result<(), ParseFault>
    ensures led { (l : Limited) → Leads (runs (option_word l)) input.old result (λ _. runs (want_opt (first_opt_k l))) input.new }
{
    match input.peek().what {
        What::Open => {
            input.advance();
            Ok(())
        }
        _ => Err(input.refuse(None)),
    }
}

/// All options, and the `)` behind them.
fn options(alloc: Global, input: &mut Input) -> Result<Items<QueryOption>, ParseFault>
    ensures led { (l : Limited) → Leads (runs (want_opt (first_opt_k l))) input.old result (λ options. runs_on (more_optioned (options_tree l options))) input.new }
{
    let mut options = list_here(alloc, input, LEAST_OPTION)?;
    'options: loop {
        options.push(option(input)?)?;
        match input.peek().what {
            What::Comma => input.advance(),
            What::Close => {
                input.advance();
                return Ok(options.into_items(MOST_KEPT));
            }
            _ => return Err(input.refuse(None)),
        }
    }
}

fn option(input: &mut Input) -> Result<QueryOption, ParseFault>
    ensures led { (k : OptK) → Leads (runs (want_opt k)) input.old result (λ o. runs_on (follow_opts (add_opt k (opt_tree o)))) input.new }
    ensures shorter { OnOk result (length input.new.rest ≤ length input.old.rest) }
{
    match word_ahead(input) {
        Some(Unreserved::Block) => sized(input, Setting::Block),
        Some(Unreserved::Parts) => sized(input, Setting::Parts),
        Some(Unreserved::Sort) => sized(input, Setting::Sort),
        Some(Unreserved::Use) => used(input),
        _ => Err(input.refuse(None)),
    }
}

/// A size, whose word stands here.
fn sized(input: &mut Input, setting: Setting) -> Result<QueryOption, ParseFault>
    requires { is_last input.old.first.what ≡ false }
    ensures led { (k : OptK) → Leads (runs_past (λ at. sized_word setting at k)) input.old result (λ o. runs_on (follow_opts (add_opt k (opt_tree o)))) input.new }
    ensures shorter { OnOk result (length input.new.rest ≤ length input.old.rest) }
{
    let at = input.peek().at;
    input.advance();
    let n = number(input, 1, most_of(setting))?;
    Ok(QueryOption::Set(setting, at, n))
}

fn most_of(setting: Setting) -> u128
    ensures { (n : ℕ) → fits_setting setting n ≡ between 1 result n }
{
    match setting {
        Setting::Block => 4_096,
        Setting::Parts => 16,
        Setting::Sort => 65_536,
    }
}

/// A method, behind USE, which stands here.
fn used(input: &mut Input) -> Result<QueryOption, ParseFault>
    requires { is_last input.old.first.what ≡ false }
    ensures led { (k : OptK) → Leads (runs_past (λ at. used_word at k)) input.old result (λ o. runs_on (follow_opts (add_opt k (opt_tree o)))) input.new }
    ensures shorter { OnOk result (length input.new.rest ≤ length input.old.rest) }
{
    let at = input.peek().at;
    input.advance();
    let place = input.peek().at;
    match method_of(word_ahead(input)) {
        Some(method) => {
            input.advance();
            Ok(QueryOption::Use(at, method, place))
        }
        None => Err(input.refuse(None)),
    }
}

fn method_of(word: Option<Unreserved>) -> Option<Method>
    ensures { result ≡ method_of word }
{
    match word {
        Some(Unreserved::Block) => Some(Method::Block),
        Some(Unreserved::Index) => Some(Method::Index),
        Some(Unreserved::Merge) => Some(Method::Merge),
        Some(Unreserved::Hash) => Some(Method::Hash),
        _ => None,
    }
}
