// From the dial to the ear, by the receiver of xb_ear: a law that cites the laws below it.
ghost use Rattle.xb_together.specs.Received.{DialledIsReceived};

use xb_calls::laws::dialled_is_heard;
use xb_ear::laws::disturbed_keys_are_heard;

/// **The digits that are dialled on a line are, by its route, the digits that the receiver hears**, through any
/// disturbance of at most 923 in a tone and 277 in silence: number by number KP, the digits that the number's route
/// sends, and ST, and nothing of a number without a route. The prefixes of routes are digits, as those of each table
/// that is read are.
pub fn dialled_is_received()
    ensures { DialledIsReceived }
{
    dialled_is_heard();
    disturbed_keys_are_heard();
}
