//! The fault of a text for a refused event.
ghost use Rattle.std.specs.Prelude.{◌≡◌};
ghost use Rattle.snap_format.specs.Faults.{fault_of};

use snap_core::EventRefusal;
use snap_text::TextFault;

/// The fault of a text for a refused event; none if memory ran out.
pub fn fault_for(refusal: EventRefusal) -> Option<TextFault>
    ensures { result ≡ fault_of refusal }
{
    match refusal {
        EventRefusal::TooMany => Some(TextFault::TooMany),
        EventRefusal::Busy => Some(TextFault::Busy),
        EventRefusal::Idle => Some(TextFault::Idle),
        EventRefusal::OtherOp => Some(TextFault::OtherOp),
        EventRefusal::Writer => Some(TextFault::Writer),
        EventRefusal::Number => Some(TextFault::Number),
        EventRefusal::Order => Some(TextFault::Order),
        EventRefusal::Memory => None,
    }
}
