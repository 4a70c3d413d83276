// The order of what was dialled.
ghost use Rattle.std.specs.Prelude.{◌≡◌, List};
ghost use Rattle.xb_model.specs.Routing.{CodedRoute, order_of};
ghost use Rattle.xb_structs.specs.Routes.{AreRoutes};

use crate::route::PlainRoute;
use crate::search::look;
use xb_model::{Dialled, Order};
use xb_routes::order_by;

/// The order of what was dialled, by routes as they stand in a table.
pub fn order_of(routes: &[PlainRoute], dialled: &Dialled) -> Order
    ensures { (all : List CodedRoute) → AreRoutes routes.now all → result ≡ order_of all dialled.now }
{
    match dialled {
        Dialled::Refused(reason, heard) => Order::Refused(*reason, *heard),
        Dialled::Number(number) => order_by(look(routes, number.digits()).as_ref(), number),
    }
}
