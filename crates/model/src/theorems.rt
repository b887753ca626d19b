ghost use Rattle.model.specs.Cases.{WorkedCases};
ghost use Rattle.model.specs.Exact.{TenIsExact, OneRowAtMost};
ghost use Rattle.model.specs.Orders.{ReportsInOrder};
ghost use Rattle.model.specs.MirrorExact.{IntakeIsExact};
ghost use Rattle.model.specs.Runs.{RunsKeepTheLaw};

/// The worked cases of the rules, on the definitions.
pub fn worked_cases()
    ensures { WorkedCases }
{}

/// Refusal 10 is given exactly if every check before it passes and no row fits.
pub fn ten_is_exact()
    ensures { TenIsExact }
{}

/// At most one of rows 2 to 6 fits a wafer and a target.
pub fn one_row_at_most()
    ensures { OneRowAtMost }
{}

/// Which rows and location reports each accepted call writes, and in which order.
pub fn reports_in_order()
    ensures { ReportsInOrder }
{}

/// The mirror takes a report exactly if it is a step, or a location report of a listed place, and refuses every other by its number.
pub fn intake_is_exact()
    ensures { IntakeIsExact }
{}

/// From every world that events lead to, a run keeps the law at each of its worlds, and each call's reports are rows of the table.
pub fn runs_keep_the_law()
    ensures { RunsKeepTheLaw }
{}
