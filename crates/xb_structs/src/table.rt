// Route tables as plain numbers.
ghost use Rattle.std.specs.Prelude.{◌≡◌, ◌≤◌, ◌↔◌, IsSome, IfSome, Some, take};
ghost use Rattle.xb_model.specs.LawfulLimits.{IsLawful};
ghost use Rattle.xb_model.specs.Plans.{plan_of_digits};
ghost use Rattle.xb_routes.specs.declared.table.TheConstants.{MOST_ROUTES};
ghost use Rattle.xb_structs.specs.Tables.{IsOpen, plan_number};

use crate::route::PlainRoute;
use xb_model::{Limits, Plan};
use xb_routes::limits_by;

/// A route table.
#[repr(C)]
#[derive(Drop)]
pub struct PlainTable {
    /// How long numbers are: 7 or 10.
    pub plan: u32,
    /// The limits of a line's pulses.
    pub limits: Limits,
    /// How many routes there are.
    pub count: u32,
    /// The routes in the order of their codes' numbers, and room for more.
    pub routes: [PlainRoute; 1000],
}

/// The number of a plan.
pub(crate) fn plan_number(plan: Plan) -> u32
    ensures { result ≡ plan_number plan }
{
    match plan {
        Plan::Seven => 7,
        Plan::Ten => 10,
    }
}

// The limits of a table, if they are lawful.
fn limits_of(table: &PlainTable) -> Option<Limits>
    ensures variant { IsSome result ↔ IsLawful table.now.limits }
    ensures value { IfSome result (λ limits. limits ≡ table.now.limits) }
{
    limits_by(table.limits).ok()
}

/// The routes of a table, if their count is not too great.
pub(crate) fn routes_of(table: &PlainTable) -> Option<&[PlainRoute]>
    ensures variant { IsSome result ↔ (table.now.count ≤ MOST_ROUTES) }
    ensures value { IfSome result (λ routes. routes.now ≡ take table.now.count table.now.routes) }
{
    table.routes.get(..table.count as usize)
}

/// What a table says that was opened.
#[derive(Clone, Copy)]
pub(crate) struct Opened<'t> {
    pub(crate) plan: Plan,
    pub(crate) limits: Limits,
    pub(crate) routes: &'t [PlainRoute],
}

/// What a table says; `None` where it is none that was opened.
pub(crate) fn parts_of(table: &PlainTable) -> Option<Opened<'_>>
    ensures variant { IsSome result ↔ IsOpen table.now }
    ensures plan { IfSome result (λ parts. plan_of_digits table.now.plan ≡ Some parts.plan) }
    ensures limits { IfSome result (λ parts. parts.limits ≡ table.now.limits) }
    ensures routes { IfSome result (λ parts. parts.routes.now ≡ take table.now.count table.now.routes) }
{
    Some(Opened {
        plan: Plan::of_digits(table.plan)?,
        limits: limits_of(table)?,
        routes: routes_of(table)?,
    })
}
