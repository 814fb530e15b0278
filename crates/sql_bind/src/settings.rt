ghost use Rattle.std.specs.Prelude.{◌≡◌};
ghost use Rattle.sql_bind.specs.Bound.{default_options, with_option, with_options, with_size};

use crate::bound::PlanOptions;
use sql_front::{QueryOption, Setting};

/// What holds where no option says otherwise.
const DEFAULT_OPTIONS: PlanOptions = PlanOptions {
    block: 100,
    parts: 4,
    sort: 4_096,
    method: None,
};

fn set_size(options: &mut PlanOptions, setting: Setting, size: u128)
    ensures { options.new ≡ with_size setting size options.old }
{
    match setting {
        Setting::Block => options.block = size,
        Setting::Parts => options.parts = size,
        Setting::Sort => options.sort = size,
    }
}

fn set(options: &mut PlanOptions, option: &QueryOption)
    ensures { options.new ≡ with_option options.old option.now }
{
    match option {
        QueryOption::Set(setting, _, size) => set_size(options, *setting, size.value),
        QueryOption::Use(_, method, _) => options.method = Some(*method),
    }
}

/// The options of a query. Of repeated ones the last counts.
pub(crate) fn plan_options(given: &[QueryOption]) -> PlanOptions
    ensures { result ≡ with_options default_options given.now }
{
    let mut options = DEFAULT_OPTIONS;
    for option in given {
        set(&mut options, option);
    }
    options
}
